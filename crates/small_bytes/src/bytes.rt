//! Where the bytes stand, in place or in memory of their own.

ghost use Rattle.std.specs.Prelude.{◌≡◌, ◌≤◌, length, IfOk, OnErr};
ghost use Rattle.small_bytes.specs.Places.{bytes_of, IsSound};

use std::alloc::{AllocError, Global};
use std::marker::Model;

/// How many bytes stand in place.
const PLACES: usize = 16;

// The places of the bytes.
enum Places {
    // The first so many of these.
    Here([u8; PLACES], usize),
    // All of these.
    Apart(Vec<u8>),
}

impl Drop for Places {
    fn drop(self) {
        match self {
            Places::Here(_, _) => {}
            Places::Apart(_) => {}
        }
    }
}

/// Bytes that are made once, which contracts see as their list. Up to 16 of them take no memory of their own.
pub struct SmallBytes {
    places: Places,
}

impl Drop for SmallBytes {
    fn drop(self) {
        let SmallBytes { places: _ } = self;
    }
}

impl Model for SmallBytes {
    ghost use Rattle.std.specs.Prelude.{List, ℕ};
    ghost use Rattle.small_bytes.specs.Places.{bytes_of, IsSound};

    ghost Value = { List ℕ };

    ghost view = { λ b. bytes_of b.places };

    ghost invariant = { λ b. IsSound b.places };
}

// Bytes that fit in place.
fn in_place(bytes: &[u8]) -> Places
    requires { length bytes.now ≤ 16 }
    ensures sound { IsSound result }
    ensures bytes { bytes_of result ≡ bytes.now }
{
    let mut here = [0; PLACES];
    here[..bytes.len()].copy_from_slice(bytes);
    Places::Here(here, bytes.len())
}

impl SmallBytes {
    /// These bytes.
    ///
    /// # Errors
    ///
    /// AllocError where there is no memory for them, which up to 16 don't ask for.
    pub fn from_slice(alloc: Global, bytes: &[u8]) -> Result<SmallBytes, AllocError>
        ensures made { IfOk result (λ b. b ≡ bytes.now) }
        ensures few { OnErr result (17 ≤ length bytes.now) }
    {
        let places = if bytes.len() <= PLACES {
            in_place(bytes)
        } else {
            Places::Apart(Vec::from_slice(alloc, bytes)?)
        };
        Ok(SmallBytes { places })
    }

    /// The bytes.
    pub fn as_slice(&self) -> &[u8]
        ensures { result.now ≡ self.now }
    {
        match &self.places {
            Places::Here(here, count) => &here[..*count],
            Places::Apart(all) => all.as_slice(),
        }
    }
}

//! Names.

ghost use Rattle.std.specs.Prelude.{◌≡◌, IfOk};

use small_bytes::SmallBytes;
use std::alloc::{AllocError, Global};
use std::marker::Model;

/// A name, which contracts see as its bytes. One of up to 16 bytes takes no memory of its own.
pub struct Name {
    bytes: SmallBytes,
}

impl Drop for Name {
    fn drop(self) {
        let Name { bytes: _ } = self;
    }
}

impl Model for Name {
    ghost use Rattle.std.specs.Prelude.{List, ℕ};

    ghost Value = { List ℕ };

    ghost view = { λ n. n.bytes };
}

impl Name {
    /// The name of these bytes.
    ///
    /// # Errors
    ///
    /// AllocError where there is no memory for them.
    pub fn new(alloc: Global, bytes: &[u8]) -> Result<Name, AllocError>
        ensures { IfOk result (λ n. n ≡ bytes.now) }
    {
        Ok(Name {
            bytes: SmallBytes::from_slice(alloc, bytes)?,
        })
    }

    /// Its bytes.
    pub fn as_slice(&self) -> &[u8]
        ensures { result.now ≡ self.now }
    {
        self.bytes.as_slice()
    }
}

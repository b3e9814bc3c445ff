//! Bytes of which two loans can be told to be loans of the very same place: then they hold the same bytes, and nobody
//! need compare them. And symbols below 16 that stand in such bytes, two to a byte.
#![tactic(auto)]

ghost use Rattle.std.specs.Prelude.{◌≡◌, ◌↔◌, ◌<◌, ◌++◌, ◌∷◌, [], true, length, slice_set, OnOk, OnErr};
ghost use Rattle.std.specs.Ptr.{as_ptr};

mod symbols;

use sqlite_items::Items;
use std::alloc::AllocError;
use std::cell::Cell;
use std::marker::Model;
pub use symbols::{LentSymbols, Symbols};

/// Bytes with a mark by which two loans of the same are recognized. A contract sees the bytes.
#[derive(Drop)]
pub struct Marked {
    // Whoever asks turns it for a moment. It says nothing by itself.
    mark: Cell<bool>,
    bytes: Items<u8>,
}

impl Model for Marked {
    ghost use Rattle.std.specs.Prelude.{ℕ, List};
    ghost use Rattle.std.specs.Coded.{coded_ℕ, coded_list};

    ghost Value = { List ℕ };

    ghost coded = { coded_list coded_ℕ };

    ghost view = { λ m. m.bytes };
}

impl Marked {
    /// These bytes, marked.
    pub fn new(bytes: Items<u8>) -> Marked
        ensures { result ≡ bytes }
    {
        Marked {
            mark: Cell::new(false),
            bytes,
        }
    }

    /// The bytes.
    pub fn bytes(&self) -> &[u8]
        ensures { result.now ≡ self.now }
    {
        self.bytes.as_slice()
    }

    /// One byte more.
    pub fn push(&mut self, byte: u8) -> Result<(), AllocError>
        ensures ok { OnOk result (self.new ≡ self.old ++ byte ∷ []) }
        ensures err { OnErr result (self.new ≡ self.old) }
    {
        self.bytes.push(byte)
    }

    /// Another byte at this place.
    pub fn set(&mut self, at: usize, byte: u8)
        requires { at < length self.old }
        ensures { self.new ≡ slice_set self.old at byte }
    {
        self.bytes.set(at, byte);
    }
}

/// Whether both are one place in memory: then they hold the same bytes. False says nothing of the bytes.
///
/// It costs the same however many bytes there are, since it looks at none: pointers into two allocations may not be
/// compared, so it turns the mark of the one, looks whether that of the other has turned, and turns it back.
pub fn are_one(a: &Marked, b: &Marked) -> bool
    ensures place { (result ≡ true) ↔ (as_ptr a.entry ≡ as_ptr b.entry) }
    ensures same { result ≡ true → a.now ≡ b.now }
{
    let p = &raw const a.mark as *mut bool;
    let q = &raw const b.mark as *mut bool;
    unsafe {
        let before = *q;
        let old = *p;
        *p = !before;
        let after = *q;
        *p = old;
        before != after
    }
}

//! Symbols below 16, kept two to a byte.

ghost use Rattle.std.specs.Prelude.{◌≡◌, ◌<◌, ◌≤◌, ◌++◌, ◌∷◌, [], true, length, take, OnOk};
ghost use Rattle.std.specs.Option.{option_copied};
ghost use Rattle.std.specs.Str.{bytes_eq};
ghost use Rattle.shared_bytes.specs.Symbols.{halves, bytes_in};

use crate::{Marked, are_one};
use sqlite_items::Items;
use std::alloc::{AllocError, Global};
use std::marker::Model;

/// Symbols below 16, as they are written: two to a byte, the first of them in its high half.
#[derive(Drop)]
pub struct Symbols {
    bytes: Marked,
    // How many symbols; the low half of the last byte is free where it is odd.
    count: u32,
}

impl Model for Symbols {
    ghost use Rattle.std.specs.Prelude.{List, ℕ, ◌≡◌, ◌+◌, ◌/◌, length, take};
    ghost use Rattle.shared_bytes.specs.Symbols.{halves};

    ghost Value = { List ℕ };

    ghost view = { λ s. take s.count (halves s.bytes) };

    ghost invariant = { λ s. length s.bytes ≡ (s.count + 1) / 2 };
}

impl Symbols {
    /// No symbol.
    pub fn new(alloc: Global) -> Symbols
        ensures { result ≡ [] }
    {
        Symbols {
            bytes: Marked::new(Items::new(alloc)),
            count: 0,
        }
    }

    /// How many there are.
    pub fn len(&self) -> u32
        ensures { result ≡ length self.now }
    {
        self.count
    }

    /// One more symbol.
    pub fn push(&mut self, symbol: u8) -> Result<(), AllocError>
        requires { symbol < 16 }
        ensures ok { OnOk result (self.new ≡ self.old ++ symbol ∷ []) }
    {
        if self.count == u32::MAX {
            // (no memory has so many)
            return Err(AllocError);
        }
        if self.count % 2 == 0 {
            self.bytes.push(symbol * 16)?;
        } else {
            let place = self.count as usize / 2;
            let last = self.bytes.bytes()[place];
            self.bytes.set(place, last / 16 * 16 + symbol);
        }
        self.count += 1;
        Ok(())
    }

    /// All of them, lent.
    pub fn lent(&self) -> LentSymbols<'_>
        ensures { result ≡ self.now }
    {
        LentSymbols {
            bytes: Some(&self.bytes),
            count: self.count,
        }
    }
}

// The bytes that are lent, where any are.
fn bytes_in<'a>(marked: Option<&'a Marked>) -> &'a [u8]
    ensures { result.now ≡ bytes_in (option_copied marked.entry) }
{
    match marked {
        Some(marked) => marked.bytes(),
        None => &[],
    }
}

// Whether both are bytes of one place, which are the same then.
fn are_of_one_place(a: Option<&Marked>, b: Option<&Marked>) -> bool
    ensures { result ≡ true → bytes_in (option_copied a.entry) ≡ bytes_in (option_copied b.entry) }
{
    match (a, b) {
        (Some(a), Some(b)) => are_one(a, b),
        _ => false,
    }
}

// Whether the first `count` symbols are the same: as whole bytes, and an odd last one as half a byte.
fn same_symbols(a: &[u8], b: &[u8], count: u32) -> bool
    requires in_a { count ≤ length (halves a.now) }
    requires in_b { count ≤ length (halves b.now) }
    ensures { result ≡ bytes_eq (take count (halves a.now)) (take count (halves b.now)) }
{
    let whole = count as usize / 2;
    if a[..whole] != b[..whole] {
        return false;
    }
    count % 2 == 0 || a[whole] / 16 == b[whole] / 16
}

/// Symbols of a code, lent: all of them or the first.
#[derive(Drop)]
pub struct LentSymbols<'a> {
    // Two symbols to a byte, and maybe more of them than are lent.
    bytes: Option<&'a Marked>,
    count: u32,
}

impl<'a> Model for LentSymbols<'a> {
    ghost use Rattle.std.specs.Prelude.{List, ℕ, ◌≤◌, length, take};
    ghost use Rattle.std.specs.Option.{option_copied};
    ghost use Rattle.shared_bytes.specs.Symbols.{halves, bytes_in};

    ghost Value = { List ℕ };

    ghost view = { λ s. take s.count (halves (bytes_in (option_copied s.bytes))) };

    ghost invariant = { λ s. s.count ≤ length (halves (bytes_in (option_copied s.bytes))) };
}

impl<'a> LentSymbols<'a> {
    /// No symbol.
    pub fn none() -> LentSymbols<'a>
        ensures { result ≡ [] }
    {
        LentSymbols {
            bytes: None,
            count: 0,
        }
    }

    /// The first `count` of them.
    pub fn first(&self, count: u32) -> LentSymbols<'a>
        requires { count ≤ length self.now }
        ensures { result ≡ take count self.now }
    {
        LentSymbols {
            bytes: self.bytes,
            count,
        }
    }

    /// The same once more.
    pub fn again(&self) -> LentSymbols<'a>
        ensures { result ≡ self.now }
    {
        LentSymbols {
            bytes: self.bytes,
            count: self.count,
        }
    }

    /// Whether these are the same as others: at once where both are lent from one place, else by their bytes.
    pub fn same_as(&self, other: &LentSymbols<'_>) -> bool
        ensures { result ≡ bytes_eq self.now other.now }
    {
        if self.count != other.count {
            return false;
        }
        are_of_one_place(self.bytes, other.bytes)
            || same_symbols(bytes_in(self.bytes), bytes_in(other.bytes), self.count)
    }
}

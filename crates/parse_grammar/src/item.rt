//! Tokens with what the tree keeps of them.

ghost use Rattle.std.specs.Prelude.{◌≡◌};

use crate::kind::Kind;
use std::marker::Model;

/// A piece of a text, which contracts see as its bytes.
#[derive(Drop)]
pub struct Bytes<'a> {
    bytes: &'a [u8],
}

impl<'a> Model for Bytes<'a> {
    ghost use Rattle.std.specs.Prelude.{List, ℕ};

    ghost Value = { List ℕ };

    ghost view = { λ b. b.bytes.now };
}

impl<'a> Bytes<'a> {
    /// The bytes, as they stand.
    pub fn new(bytes: &'a [u8]) -> Bytes<'a>
        ensures { result ≡ bytes.now }
    {
        Bytes { bytes }
    }

    /// The bytes, as they stand.
    pub fn get(&self) -> &'a [u8]
        ensures { result.now ≡ self.now }
    {
        self.bytes
    }
}

/// A token, as the grammar reads it.
#[derive(Drop)]
pub struct Item<'a> {
    /// Its kind.
    pub kind: Kind,
    /// Its line, counted from 1.
    pub line: u32,
    /// The value of a number or a character, as a word; else 0.
    pub value: u32,
    /// Whether it is a number of an unsigned type.
    pub unsigned: bool,
    /// The bytes of a name; what follows the opening quote of a string; else none.
    pub text: Bytes<'a>,
}

//! A short stretch of code.

ghost use Rattle.std.specs.Prelude.{◌≡◌, ◌+◌, ◌++◌, ◌<◌, ◌≤◌, ◌∷◌, [], length};
ghost use Rattle.mips_encoder.specs.Table.{word_of};

use mips_encoder::{Instr, encode};
use std::marker::Model;

/// The words of a short stretch of code: at most 40.
#[derive(Drop)]
pub struct Snippet {
    room: [u32; 40],
    filled: usize,
}

impl Model for Snippet {
    ghost use Rattle.std.specs.Prelude.{ℕ, List, ◌≤◌, take};

    ghost Value = { List ℕ };

    ghost view = { λ s. take s.filled s.room };

    ghost invariant = { λ s. s.filled ≤ 40 };
}

impl Snippet {
    /// No words.
    pub fn new() -> Self
        ensures { result ≡ [] }
    {
        Snippet {
            room: [0; 40],
            filled: 0,
        }
    }

    /// Forgets the words.
    pub fn clear(&mut self)
        ensures { self.new ≡ [] }
    {
        self.filled = 0;
    }

    /// How many words there are.
    pub fn len(&self) -> usize
        ensures count { result ≡ length self.now }
        ensures most { result ≤ 40 }
    {
        self.filled
    }

    /// The words.
    pub fn words(&self) -> &[u32]
        ensures { result.now ≡ self.now }
    {
        &self.room[..self.filled]
    }

    /// Puts the instruction's word at the end.
    #[inline(always)]
    pub fn push(&mut self, i: Instr)
        requires { length self.old < 40 }
        ensures words { self.new ≡ self.old ++ word_of i ∷ [] }
        ensures len { length self.new ≡ length self.old + 1 }
    {
        self.room[self.filled] = encode(i);
        self.filled += 1;
    }
}

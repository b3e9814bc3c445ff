//! Where the run stands, and how far it goes.

ghost use Rattle.std.specs.Prelude.{◌≡◌, ◌+◌, ◌-◌, ◌<◌, ◌≤◌, ℕ, length, IfSome, Some, None};
ghost use Rattle.word32.specs.declared.map.TheConstants.{ARENA, TEXT_WORDS};
ghost use Rattle.mips_core.specs.Core as spec;

use crate::pc::Pc;
use std::marker::Model;

/// Where the next instruction stands, and how many are left. The way through the text is straight to where the text
/// ends or the count is spent, so one compare tells both.
#[derive(Drop)]
pub(crate) struct Course {
    pc: Pc,
    // the first place that isn't of the text or at which the count is spent
    stop: usize,
    // the place at which the count is spent, if the way is straight: modulo 2^64, so that no count is too high
    end: u64,
}

impl Model for Course {
    ghost use Rattle.std.specs.Prelude.{◌≡◌, ◌+◌, ◌<◌, ◌≤◌};
    ghost use Rattle.mips_core.specs.Places.{Way, left_to, place_of};

    ghost Value = { Way };

    ghost view = { λ c. record { pc = c.pc; left = left_to c.end (place_of c.pc); reach = c.stop } };

    ghost invariant = { λ c. (c.stop ≤ c.end) × (c.end < 18446744073709551616) };
}

impl Course {
    /// From an address, with so many instructions left.
    #[inline(always)]
    pub(crate) fn new(text: &[u32], pc: Pc, left: u64) -> Course
        ensures pc { result.pc ≡ pc }
        ensures left { result.left ≡ left }
        ensures reach { result.reach ≤ length text.now }
    {
        let end = (pc.place() as u64).wrapping_add(left);
        Course {
            pc,
            stop: if end < text.len() as u64 {
                end as usize
            } else {
                text.len()
            },
            end,
        }
    }

    /// The address of the next instruction.
    #[inline(always)]
    pub(crate) fn pc(&self) -> Pc
        ensures { result ≡ self.now.pc }
    {
        self.pc
    }

    /// How many instructions are left.
    #[inline(always)]
    pub(crate) fn left(&self) -> u64
        ensures { result ≡ self.now.left }
    {
        self.end.wrapping_sub(self.pc.place() as u64)
    }

    /// The next word, if it is of the text and the count isn't spent.
    #[inline(always)]
    pub(crate) fn word(&self, text: &[u32]) -> Option<u32>
        requires reach { self.now.reach ≤ length text.now }
        requires fits { length text.now ≤ TEXT_WORDS }
        ensures word { IfSome result (λ w. spec.text_fetched text.now self.now.pc ≡ Some w) }
        ensures below { IfSome result (λ w. self.now.pc < ARENA) }
        ensures apart { IfSome result (λ w. spec.IsApart self.now.pc) }
        ensures some { IfSome result (λ w. 0 < self.now.left) }
    {
        let place = self.pc.place();
        if place < self.stop {
            Some(text[place])
        } else {
            None
        }
    }

    /// On to the next word.
    #[inline(always)]
    pub(crate) fn go_straight(&mut self)
        requires near { self.old.pc < 4294967292 }
        requires some { 0 < self.old.left }
        ensures pc { self.new.pc ≡ self.old.pc + 4 }
        ensures left { self.new.left ≡ self.old.left - 1 }
        ensures reach { self.new.reach ≡ self.old.reach }
    {
        self.pc = self.pc.next();
    }

    /// On to an address.
    #[inline(always)]
    pub(crate) fn go_to(&mut self, text: &[u32], pc: Pc)
        requires some { 0 < self.old.left }
        ensures pc { self.new.pc ≡ pc }
        ensures left { self.new.left ≡ self.old.left - 1 }
        ensures reach { self.new.reach ≤ length text.now }
    {
        *self = Course::new(text, pc, self.left() - 1);
    }
}

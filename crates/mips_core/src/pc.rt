//! The address of an instruction.

ghost use Rattle.std.specs.Prelude.{◌≡◌, ◌+◌, ◌-◌, ◌*◌, ◌/◌, ◌%◌, ◌<◌, ◌≤◌, ℕ};
ghost use Rattle.word32.specs.declared.map.TheConstants.{SEGMENT_BYTES};
ghost use Rattle.word32.specs.Words.{widened_half};
ghost use Rattle.mips_encoder.specs.Fields.{immediate};
ghost use Rattle.mips_core.specs.Core.{IsApart};
ghost use Rattle.mips_core.specs.Places.{place_of};

use mips_encoder::immediate as low_half;
use std::marker::Model;

/// The address of an instruction, kept as the number of its word, counted from the first of the text: so a word of the
/// text is loaded without a computation. An address that is no multiple of 4 has a number that no word has.
#[derive(Clone, Copy)]
pub struct Pc {
    place: usize,
}

impl Model for Pc {
    ghost use Rattle.std.specs.Prelude.{ℕ};
    ghost use Rattle.mips_core.specs.Places.{address_of, place_of, IsPlace, same_place};

    ghost Value = { ℕ };

    ghost view = { λ p. address_of p.place };

    ghost invariant = { λ p. IsPlace p.place };

    ghost inverse = { λ a. record { place = place_of a } };

    ghost use Rattle.std.proofs.Common.{ap};

    ghost inverse_ok = { λ p h. ap (λ n. record { place = n }) (same_place p.place h) };
}

impl Pc {
    /// An address.
    #[inline(always)]
    pub(crate) fn at(address: u32) -> Pc
        ensures { result ≡ address }
    {
        let word = address / 4 + address % 4 * 0x4000_0000;
        Pc {
            place: (word as usize).wrapping_sub(0x10_0000),
        }
    }

    #[inline(always)]
    fn word(self) -> u32
        ensures { result ≡ self / 4 + self % 4 * 1073741824 }
    {
        self.place.wrapping_add(0x10_0000) as u32
    }

    /// The address itself.
    #[inline(always)]
    pub(crate) fn address(self) -> u32
        ensures { result ≡ self }
    {
        let word = self.word();
        word % 0x4000_0000 * 4 + word / 0x4000_0000
    }

    /// The number of its word, counted from the first of the text.
    #[inline(always)]
    pub(crate) fn place(self) -> usize
        ensures place { result ≡ place_of self }
        ensures low { self < 4294967296 }
    {
        self.place
    }

    /// The address of the next word.
    #[inline(always)]
    pub(crate) fn next(self) -> Pc
        requires { self < 4294967292 }
        ensures { result ≡ self + 4 }
    {
        Pc {
            place: self.place.wrapping_add(1),
        }
    }

    /// Where a branch of this word, which stands here, goes if it is taken.
    #[inline(always)]
    pub(crate) fn branch_target(self, w: u32) -> Pc
        requires { IsApart self }
        ensures { result ≡ (self + 4 + 4 * widened_half (immediate w)) % 4294967296 }
    {
        let words = ((low_half(w).bits() + 32768) % 65536) as usize;
        Pc {
            place: self.place.wrapping_add(words).wrapping_sub(32767),
        }
    }

    /// The address of a word of the segment that the delay slot of a jump stands in, which itself stands here.
    #[inline(always)]
    pub(crate) fn segment_target(self, word: u32) -> Pc
        requires near { self < 4294967288 }
        requires word { word < 67108864 }
        ensures { result ≡ (self + 4) / SEGMENT_BYTES * SEGMENT_BYTES + 4 * word }
    {
        let to = self.next().word() % 0x4000_0000 / 0x400_0000 * 0x400_0000 + word;
        Pc {
            place: (to as usize).wrapping_sub(0x10_0000),
        }
    }
}

//! The operands of instructions. Each type holds exactly the numbers that its field of the word holds.

ghost use Rattle.std.specs.Prelude.{
  ◌≡◌,
  ◌≢◌,
  ◌*◌,
  ◌%◌,
  ◌/◌,
  ℕ,
  ◌<◌,
  ◌==◌,
  ◌&&◌,
  cond,
  nat_lt,
  Some,
  None,
};

use crate::register::Register;
use std::marker::Model;

/// A count of bits to shift by, from 0 to 31.
#[derive(Clone, Copy)]
pub struct ShiftAmount {
    bits: u32,
}

impl Model for ShiftAmount {
    ghost Value = { ℕ };

    ghost view = { λ s. s.bits };

    ghost invariant = { λ s. s.bits < 32 };

    ghost inverse = { λ n. record { bits = n } };
}

impl ShiftAmount {
    /// A shift by this many bits.
    #[inline]
    pub fn new(bits: u32) -> Self
        requires { bits < 32 }
        ensures { result ≡ bits }
    {
        ShiftAmount { bits }
    }

    /// A shift by this many bits, or None where they are over 31.
    pub fn checked(bits: u32) -> Option<Self>
        ensures { result ≡ cond (nat_lt bits 32) (Some bits) None }
    {
        if bits < 32 {
            Some(ShiftAmount::new(bits))
        } else {
            None
        }
    }

    /// The count of bits.
    #[inline]
    pub fn bits(self) -> u32
        ensures value { result ≡ self }
        ensures below { result < 32 }
    {
        self.bits
    }
}

/// The code of a BREAK, a number of 20 bits.
#[derive(Clone, Copy)]
pub struct BreakCode {
    code: u32,
}

impl Model for BreakCode {
    ghost Value = { ℕ };

    ghost view = { λ b. b.code };

    ghost invariant = { λ b. b.code < 1048576 };

    ghost inverse = { λ n. record { code = n } };
}

impl BreakCode {
    /// This code.
    #[inline]
    pub fn new(code: u32) -> Self
        requires { code < 1048576 }
        ensures { result ≡ code }
    {
        BreakCode { code }
    }

    /// This code, or None where it is over 1,048,575.
    pub fn checked(code: u32) -> Option<Self>
        ensures { result ≡ cond (nat_lt code 1048576) (Some code) None }
    {
        if code < 1048576 {
            Some(BreakCode::new(code))
        } else {
            None
        }
    }

    /// The code's number.
    #[inline]
    pub fn code(self) -> u32
        ensures value { result ≡ self }
        ensures below { result < 1048576 }
    {
        self.code
    }
}

/// The target of J and JAL: the number of a word, of 26 bits, so that its address is a multiple of 4 below 0x10000000.
#[derive(Clone, Copy)]
pub struct JumpTarget {
    index: u32,
}

impl Model for JumpTarget {
    ghost Value = { ℕ };

    ghost view = { λ t. t.index };

    ghost invariant = { λ t. t.index < 67108864 };

    ghost inverse = { λ n. record { index = n } };
}

impl JumpTarget {
    /// The word with this number, counted from address 0.
    #[inline]
    pub fn new(index: u32) -> Self
        requires { index < 67108864 }
        ensures { result ≡ index }
    {
        JumpTarget { index }
    }

    /// The word at an address in bytes, or None where the address is not a multiple of 4 below 0x10000000.
    pub fn at(address: u32) -> Option<Self>
        ensures { result ≡ cond (nat_lt address 0x10000000 && (address % 4 == 0)) (Some (address / 4)) None }
    {
        if address < 0x1000_0000 && address % 4 == 0 {
            Some(JumpTarget::new(address / 4))
        } else {
            None
        }
    }

    /// The word's number.
    #[inline]
    pub fn index(self) -> u32
        ensures value { result ≡ self }
        ensures below { result < 67108864 }
    {
        self.index
    }

    /// The word's address in bytes.
    #[inline]
    pub fn address(self) -> u32
        ensures value { result ≡ 4 * self }
        ensures below { result < 0x10000000 }
    {
        self.index * 4
    }
}

/// The 16 bits of an immediate or of an offset. Where the instruction takes them with a sign, bit 15 is the sign.
#[derive(Clone, Copy)]
pub struct Immediate {
    bits: u32,
}

impl Model for Immediate {
    ghost Value = { ℕ };

    ghost view = { λ i. i.bits };

    ghost invariant = { λ i. i.bits < 65536 };

    ghost inverse = { λ n. record { bits = n } };
}

impl Immediate {
    /// These 16 bits.
    #[inline]
    pub fn new(bits: u32) -> Self
        requires { bits < 65536 }
        ensures { result ≡ bits }
    {
        Immediate { bits }
    }

    /// These 16 bits, or None where the number is over 65,535.
    pub fn checked(bits: u32) -> Option<Self>
        ensures { result ≡ cond (nat_lt bits 65536) (Some bits) None }
    {
        if bits < 65536 {
            Some(Immediate::new(bits))
        } else {
            None
        }
    }

    /// The low 16 bits of a word.
    #[inline]
    pub fn low_half(word: u32) -> Self
        ensures { result ≡ word % 65536 }
    {
        Immediate::new(word % 65536)
    }

    /// The high 16 bits of a word.
    #[inline]
    pub fn high_half(word: u32) -> Self
        ensures { result ≡ word / 65536 }
    {
        Immediate::new(word / 65536)
    }

    /// The bits as a number from 0 to 65,535.
    #[inline]
    pub fn bits(self) -> u32
        ensures value { result ≡ self }
        ensures below { result < 65536 }
    {
        self.bits
    }
}

/// The register that BLTZAL and BGEZAL test. It is not register 31, which they write.
#[derive(Clone, Copy)]
pub struct LinkSource {
    number: u32,
}

impl Model for LinkSource {
    ghost Value = { ℕ };

    ghost view = { λ r. r.number };

    ghost invariant = { λ r. r.number < 31 };

    ghost inverse = { λ n. record { number = n } };
}

impl LinkSource {
    /// The register with this number.
    #[inline]
    pub fn new(number: u32) -> Self
        requires { number < 31 }
        ensures { result ≡ number }
    {
        LinkSource { number }
    }

    /// This register, or None where it is register 31.
    pub fn checked(rs: Register) -> Option<Self>
        ensures { result ≡ cond (nat_lt rs 31) (Some rs) None }
    {
        let number = rs.number();
        if number < 31 {
            Some(LinkSource::new(number))
        } else {
            None
        }
    }

    /// The register's number.
    #[inline]
    pub fn number(self) -> u32
        ensures value { result ≡ self }
        ensures below { result < 31 }
    {
        self.number
    }
}

/// The registers of a JALR: `rd` takes the address to return to, `rs` holds the target. They differ.
#[derive(Clone, Copy)]
pub struct LinkPair {
    rd: u32,
    rs: u32,
}

impl Model for LinkPair {
    ghost use Rattle.std.specs.Prelude.{ℕ, ◌≢◌, ◌<◌};
    ghost use Rattle.mips_encoder.specs.LinkRegisters.{LinkRegisters};

    ghost Value = { LinkRegisters };

    ghost view = { λ p. record { rd = p.rd; rs = p.rs } };

    ghost invariant = { λ p. (p.rd < 32) × (p.rs < 32) × (p.rd ≢ p.rs) };

    ghost inverse = { λ v. record { rd = v.rd; rs = v.rs } };
}

impl LinkPair {
    /// The registers with these numbers.
    #[inline]
    pub fn new(rd: u32, rs: u32) -> Self
        requires rd { rd < 32 }
        requires rs { rs < 32 }
        requires differ { rd ≢ rs }
        ensures rd { result.rd ≡ rd }
        ensures rs { result.rs ≡ rs }
    {
        LinkPair { rd, rs }
    }

    /// These registers, or None where they are the same.
    pub fn checked(rd: Register, rs: Register) -> Option<Self>
        ensures { result ≡ cond (rd == rs) None (Some (record { rd = rd; rs = rs })) }
    {
        let to = rd.number();
        let from = rs.number();
        if to == from {
            None
        } else {
            Some(LinkPair::new(to, from))
        }
    }

    /// The number of the register that takes the address to return to.
    #[inline]
    pub fn rd(self) -> u32
        ensures value { result ≡ self.rd }
        ensures below { result < 32 }
    {
        self.rd
    }

    /// The number of the register that holds the target.
    #[inline]
    pub fn rs(self) -> u32
        ensures value { result ≡ self.rs }
        ensures below { result < 32 }
        ensures differ { result ≢ self.rd }
    {
        self.rs
    }
}

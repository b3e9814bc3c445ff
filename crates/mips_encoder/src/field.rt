//! The fields of a word.

ghost use Rattle.std.specs.Prelude.{◌≡◌, ◌/◌, ◌%◌};
ghost use Rattle.mips_encoder.specs.Fields as field;

use crate::operand::{Immediate, ShiftAmount};
use crate::register::Register;

/// Bits 25 to 21: the first source register.
#[inline]
pub fn rs(word: u32) -> Register
    ensures { result ≡ field.rs word }
{
    Register::new(word / 2097152 % 32)
}

/// Bits 20 to 16: the second source register, or the destination of a load or of an immediate form.
#[inline]
pub fn rt(word: u32) -> Register
    ensures { result ≡ field.rt word }
{
    Register::new(word / 65536 % 32)
}

/// Bits 15 to 11: the destination register.
#[inline]
pub fn rd(word: u32) -> Register
    ensures { result ≡ field.rd word }
{
    Register::new(word / 2048 % 32)
}

/// Bits 10 to 6: the count of bits to shift by.
#[inline]
pub fn shamt(word: u32) -> ShiftAmount
    ensures { result ≡ field.shamt word }
{
    ShiftAmount::new(word / 64 % 32)
}

/// Bits 15 to 0: the immediate or the offset.
#[inline]
pub fn immediate(word: u32) -> Immediate
    ensures { result ≡ field.immediate word }
{
    Immediate::new(word % 65536)
}

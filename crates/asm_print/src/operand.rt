//! The operands of an instruction, as they stand in a line.

use mips_encoder::Immediate;

/// An operand of an instruction in text.
#[derive(Clone, Copy)]
pub enum Operand {
    /// A general register, by its number.
    Numbered(u32),
    /// 16 bits whose bit 15 is the sign.
    Signed(Immediate),
    /// A number without a sign.
    Unsigned(u32),
    /// An address in bytes.
    Address(u32),
}

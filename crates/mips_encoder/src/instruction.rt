//! Instructions: one variant for each form of the table, with its operation and its operands in the order of assembly
//! text.

use crate::operand::{BreakCode, Immediate, JumpTarget, LinkPair, LinkSource, ShiftAmount};
use crate::register::Register;

/// Operations on two registers, with a register for the result.
#[derive(Clone, Copy)]
pub enum ArithmeticOp {
    /// Sum, which stops with an overflow where the signed sum doesn't fit.
    Add,
    /// Sum, which wraps.
    Addu,
    /// Difference, which stops with an overflow where the signed difference doesn't fit.
    Sub,
    /// Difference, which wraps.
    Subu,
    /// Bitwise and.
    And,
    /// Bitwise or.
    Or,
    /// Bitwise exclusive or.
    Xor,
    /// The complement of the bitwise or.
    Nor,
    /// 1 where the first is less than the second as signed numbers, else 0.
    Slt,
    /// 1 where the first is less than the second as unsigned numbers, else 0.
    Sltu,
}

/// Shifts by a number of bits that stands in the word.
#[derive(Clone, Copy)]
pub enum ShiftOp {
    /// Left, with zeros.
    Sll,
    /// Right, with zeros.
    Srl,
    /// Right, with the sign.
    Sra,
}

/// Shifts by the low five bits of a register.
#[derive(Clone, Copy)]
pub enum ShiftVariableOp {
    /// Left, with zeros.
    Sllv,
    /// Right, with zeros.
    Srlv,
    /// Right, with the sign.
    Srav,
}

/// The two registers that products and quotients go to.
#[derive(Clone, Copy)]
pub enum HiLo {
    /// HI: a product's high word, or a remainder.
    Hi,
    /// LO: a product's low word, or a quotient.
    Lo,
}

/// Products and quotients, which go to HI and LO.
#[derive(Clone, Copy)]
pub enum MultiplyDivideOp {
    /// Signed product.
    Mult,
    /// Unsigned product.
    Multu,
    /// Signed quotient and remainder.
    Div,
    /// Unsigned quotient and remainder.
    Divu,
}

/// How a register's signed number is compared with 0, with or without a link.
#[derive(Clone, Copy)]
pub enum SignTest {
    /// Less than 0: BLTZ and BLTZAL.
    Negative,
    /// At least 0: BGEZ and BGEZAL.
    NonNegative,
}

/// Jumps to a target that stands in the word.
#[derive(Clone, Copy)]
pub enum JumpOp {
    /// Without a link.
    J,
    /// With a link in register 31.
    Jal,
}

/// Branches that compare two registers.
#[derive(Clone, Copy)]
pub enum EqualityOp {
    /// Where they are equal.
    Beq,
    /// Where they differ.
    Bne,
}

/// The other branches that compare a register's signed number with 0.
#[derive(Clone, Copy)]
pub enum ZeroComparisonOp {
    /// Where it is at most 0.
    Blez,
    /// Where it is greater than 0.
    Bgtz,
}

/// Operations on a register and an immediate, with a register for the result.
#[derive(Clone, Copy)]
pub enum ImmediateOp {
    /// Sum with the signed immediate, which stops with an overflow where the signed sum doesn't fit.
    Addi,
    /// Sum with the signed immediate, which wraps.
    Addiu,
    /// 1 where the register is less than the signed immediate as signed numbers, else 0.
    Slti,
    /// 1 where the register is less than the sign-extended immediate as unsigned numbers, else 0.
    Sltiu,
    /// Bitwise and with the unsigned immediate.
    Andi,
    /// Bitwise or with the unsigned immediate.
    Ori,
    /// Bitwise exclusive or with the unsigned immediate.
    Xori,
}

/// Loads and stores.
#[derive(Clone, Copy)]
pub enum MemoryOp {
    /// Loads a byte with its sign.
    Lb,
    /// Loads two bytes with their sign.
    Lh,
    /// Loads a word.
    Lw,
    /// Loads a byte with zeros.
    Lbu,
    /// Loads two bytes with zeros.
    Lhu,
    /// Stores a byte.
    Sb,
    /// Stores two bytes.
    Sh,
    /// Stores a word.
    Sw,
}

/// An instruction of the table. Every value has a word, and each word of the table has one value.
#[derive(Clone, Copy)]
pub enum Instr {
    /// rd, rs, rt.
    Arithmetic(ArithmeticOp, Register, Register, Register),
    /// rd, rt, shamt.
    Shift(ShiftOp, Register, Register, ShiftAmount),
    /// rd, rt, rs.
    ShiftVariable(ShiftVariableOp, Register, Register, Register),
    /// JR: rs.
    JumpRegister(Register),
    /// JALR: rd, rs.
    JumpAndLinkRegister(LinkPair),
    /// SYSCALL, which has no field.
    Syscall,
    /// BREAK, with its code.
    Break(BreakCode),
    /// MFHI and MFLO: rd.
    MoveFrom(HiLo, Register),
    /// MTHI and MTLO: rs.
    MoveTo(HiLo, Register),
    /// rs, rt.
    MultiplyDivide(MultiplyDivideOp, Register, Register),
    /// BLTZ and BGEZ: rs, offset in words.
    BranchOnSign(SignTest, Register, Immediate),
    /// BLTZAL and BGEZAL: rs, offset in words.
    BranchOnSignAndLink(SignTest, LinkSource, Immediate),
    /// The target.
    Jump(JumpOp, JumpTarget),
    /// rs, rt, offset in words.
    BranchOnEquality(EqualityOp, Register, Register, Immediate),
    /// rs, offset in words.
    BranchOnZero(ZeroComparisonOp, Register, Immediate),
    /// rt, rs, immediate.
    ImmediateArithmetic(ImmediateOp, Register, Register, Immediate),
    /// LUI: rt, immediate.
    LoadUpperImmediate(Register, Immediate),
    /// rt, offset in bytes, rs.
    Memory(MemoryOp, Register, Immediate, Register),
}

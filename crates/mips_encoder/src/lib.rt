//! The words of MIPS I instructions: each instruction of the table has one word, and each word at most one instruction.
#![tactic(auto)]

mod code;
mod decoder;
mod encoder;
mod field;
mod instruction;
mod operand;
mod register;

pub use decoder::decode;
pub use encoder::encode;
pub use field::{immediate, rd, rs, rt, shamt};
pub use instruction::{
    ArithmeticOp, EqualityOp, HiLo, ImmediateOp, Instr, JumpOp, MemoryOp, MultiplyDivideOp,
    ShiftOp, ShiftVariableOp, SignTest, ZeroComparisonOp,
};
pub use operand::{BreakCode, Immediate, JumpTarget, LinkPair, LinkSource, ShiftAmount};
pub use register::Register;

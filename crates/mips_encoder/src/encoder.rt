//! The word of an instruction.

ghost use Rattle.std.specs.Prelude.{◌≡◌, ◌+◌, ◌*◌, ℕ, ◌<◌, Some};
ghost use Rattle.mips_encoder.specs.Table.{word_of, Fits};
ghost use Rattle.mips_encoder.specs.Decoded.{instr_of};
ghost use Rattle.mips_encoder.specs.Table as table;

use crate::instruction::Instr;
use crate::operand::Immediate;

/// The word of an instruction by the table of the architecture manual. `decode` reads it back as that instruction.
#[inline(always)]
pub fn encode(i: Instr) -> u32
    ensures word { result ≡ word_of i }
    ensures fits { Fits i }
    ensures back { instr_of result ≡ Some i }
{
    word(i)
}

// The word with opcode 0 and these fields.
fn special(rs: u32, rt: u32, rd: u32, shamt: u32, funct: u32) -> u32
    requires rs { rs < 32 }
    requires rt { rt < 32 }
    requires rd { rd < 32 }
    requires shamt { shamt < 32 }
    requires funct { funct < 64 }
    ensures { result ≡ table.special rs rt rd shamt funct }
{
    rs * 2097152 + rt * 65536 + rd * 2048 + shamt * 64 + funct
}

// The word with an immediate of 16 bits and these fields.
fn with_immediate(opcode: u32, rs: u32, rt: u32, immediate: Immediate) -> u32
    requires opcode { opcode < 64 }
    requires rs { rs < 32 }
    requires rt { rt < 32 }
    ensures { result ≡ table.with_immediate opcode rs rt immediate }
{
    opcode * 67108864 + rs * 2097152 + rt * 65536 + immediate.bits()
}

#[inline(always)]
fn word(i: Instr) -> u32
    ensures word { result ≡ word_of i }
    ensures fits { Fits i }
{
    match i {
        Instr::Arithmetic(op, rd, rs, rt) => {
            special(rs.number(), rt.number(), rd.number(), 0, op.funct())
        }
        Instr::Shift(op, rd, rt, shamt) => {
            special(0, rt.number(), rd.number(), shamt.bits(), op.funct())
        }
        Instr::ShiftVariable(op, rd, rt, rs) => {
            special(rs.number(), rt.number(), rd.number(), 0, op.funct())
        }
        Instr::JumpRegister(rs) => special(rs.number(), 0, 0, 0, 8),
        Instr::JumpAndLinkRegister(pair) => special(pair.rs(), 0, pair.rd(), 0, 9),
        Instr::Syscall => 12,
        Instr::Break(code) => code.code() * 64 + 13,
        Instr::MoveFrom(source, rd) => special(0, 0, rd.number(), 0, source.move_from_funct()),
        Instr::MoveTo(target, rs) => special(rs.number(), 0, 0, 0, target.move_to_funct()),
        Instr::MultiplyDivide(op, rs, rt) => special(rs.number(), rt.number(), 0, 0, op.funct()),
        Instr::BranchOnSign(test, rs, offset) => {
            with_immediate(1, rs.number(), test.rt(), offset)
        }
        Instr::BranchOnSignAndLink(test, rs, offset) => {
            with_immediate(1, rs.number(), 16 + test.rt(), offset)
        }
        Instr::Jump(op, target) => op.opcode() * 67108864 + target.index(),
        Instr::BranchOnEquality(op, rs, rt, offset) => {
            with_immediate(op.opcode(), rs.number(), rt.number(), offset)
        }
        Instr::BranchOnZero(op, rs, offset) => {
            with_immediate(op.opcode(), rs.number(), 0, offset)
        }
        Instr::ImmediateArithmetic(op, rt, rs, immediate) => {
            with_immediate(op.opcode(), rs.number(), rt.number(), immediate)
        }
        Instr::LoadUpperImmediate(rt, immediate) => {
            with_immediate(15, 0, rt.number(), immediate)
        }
        Instr::Memory(op, rt, offset, rs) => {
            with_immediate(op.opcode(), rs.number(), rt.number(), offset)
        }
    }
}

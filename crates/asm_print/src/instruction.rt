//! The line of an instruction.

ghost use Rattle.std.specs.Prelude.{◌≡◌, ◌≤◌, length};
ghost use Rattle.asm_print.specs.Instructions as spec;

use crate::line::Line;
use crate::name;
use crate::operand::Operand;
use mips_encoder::{Immediate, ImmediateOp, Instr};

// A line with one operand.
fn one(name: &str, a: Operand) -> Line
    requires { length name.now ≤ 8 }
    ensures { result ≡ spec.one name.now a }
{
    let mut line = Line::new();
    line.push(name.as_bytes());
    line.push(b" ");
    line.push_operand(a);
    line.push(b"\n");
    line
}

// A line with two operands.
fn two(name: &str, a: Operand, b: Operand) -> Line
    requires { length name.now ≤ 8 }
    ensures { result ≡ spec.two name.now a b }
{
    let mut line = Line::new();
    line.push(name.as_bytes());
    line.push(b" ");
    line.push_operand(a);
    line.push(b",");
    line.push_operand(b);
    line.push(b"\n");
    line
}

// A line with three operands.
fn three(name: &str, a: Operand, b: Operand, c: Operand) -> Line
    requires { length name.now ≤ 8 }
    ensures { result ≡ spec.three name.now a b c }
{
    let mut line = Line::new();
    line.push(name.as_bytes());
    line.push(b" ");
    line.push_operand(a);
    line.push(b",");
    line.push_operand(b);
    line.push(b",");
    line.push_operand(c);
    line.push(b"\n");
    line
}

// A line with a register, an offset, and a base register in parentheses.
fn based(name: &str, a: Operand, offset: Operand, base: Operand) -> Line
    requires { length name.now ≤ 8 }
    ensures { result ≡ spec.based name.now a offset base }
{
    let mut line = Line::new();
    line.push(name.as_bytes());
    line.push(b" ");
    line.push_operand(a);
    line.push(b",");
    line.push_operand(offset);
    line.push(b"(");
    line.push_operand(base);
    line.push(b")\n");
    line
}

fn syscall() -> Line
    ensures { result ≡ spec.spelled Instr.Syscall }
{
    let mut line = Line::new();
    line.push(b"syscall\n");
    line
}

// The immediate with a sign where the operation extends it, and without one where it doesn't.
fn immediate_operand(op: ImmediateOp, immediate: Immediate) -> Operand
    ensures { result ≡ spec.immediate_operand op immediate }
{
    match op {
        ImmediateOp::Addi | ImmediateOp::Addiu | ImmediateOp::Slti | ImmediateOp::Sltiu => {
            Operand::Signed(immediate)
        }
        ImmediateOp::Andi | ImmediateOp::Ori | ImmediateOp::Xori => {
            Operand::Unsigned(immediate.bits())
        }
    }
}

/// The line of an instruction, with its line feed: the name, one blank, and the operands with commas between them.
/// Registers are `$` and a number, immediates, offsets and codes are decimal, with a sign where the field has one,
/// and the target of a jump is its address, `0x` and eight digits. A word 0 is `sll $0,$0,0`.
pub fn instruction_line(i: Instr) -> Line
    ensures { result ≡ spec.spelled i }
{
    match i {
        Instr::Arithmetic(op, rd, rs, rt) => three(
            name::arithmetic(op),
            Operand::Numbered(rd.number()),
            Operand::Numbered(rs.number()),
            Operand::Numbered(rt.number()),
        ),
        Instr::Shift(op, rd, rt, shamt) => three(
            name::shift(op),
            Operand::Numbered(rd.number()),
            Operand::Numbered(rt.number()),
            Operand::Unsigned(shamt.bits()),
        ),
        Instr::ShiftVariable(op, rd, rt, rs) => three(
            name::shift_variable(op),
            Operand::Numbered(rd.number()),
            Operand::Numbered(rt.number()),
            Operand::Numbered(rs.number()),
        ),
        Instr::JumpRegister(rs) => one("jr", Operand::Numbered(rs.number())),
        Instr::JumpAndLinkRegister(pair) => two(
            "jalr",
            Operand::Numbered(pair.rd()),
            Operand::Numbered(pair.rs()),
        ),
        Instr::Syscall => syscall(),
        Instr::Break(code) => one("break", Operand::Unsigned(code.code())),
        Instr::MoveFrom(source, rd) => {
            one(name::move_from(source), Operand::Numbered(rd.number()))
        }
        Instr::MoveTo(target, rs) => one(name::move_to(target), Operand::Numbered(rs.number())),
        Instr::MultiplyDivide(op, rs, rt) => two(
            name::multiply_divide(op),
            Operand::Numbered(rs.number()),
            Operand::Numbered(rt.number()),
        ),
        Instr::BranchOnSign(test, rs, offset) => two(
            name::sign(test),
            Operand::Numbered(rs.number()),
            Operand::Signed(offset),
        ),
        Instr::BranchOnSignAndLink(test, rs, offset) => two(
            name::sign_and_link(test),
            Operand::Numbered(rs.number()),
            Operand::Signed(offset),
        ),
        Instr::Jump(op, target) => one(name::jump(op), Operand::Address(target.address())),
        Instr::BranchOnEquality(op, rs, rt, offset) => three(
            name::equality(op),
            Operand::Numbered(rs.number()),
            Operand::Numbered(rt.number()),
            Operand::Signed(offset),
        ),
        Instr::BranchOnZero(op, rs, offset) => two(
            name::zero_comparison(op),
            Operand::Numbered(rs.number()),
            Operand::Signed(offset),
        ),
        Instr::ImmediateArithmetic(op, rt, rs, immediate) => three(
            name::immediate(op),
            Operand::Numbered(rt.number()),
            Operand::Numbered(rs.number()),
            immediate_operand(op, immediate),
        ),
        Instr::LoadUpperImmediate(rt, immediate) => two(
            "lui",
            Operand::Numbered(rt.number()),
            Operand::Unsigned(immediate.bits()),
        ),
        Instr::Memory(op, rt, offset, rs) => based(
            name::memory(op),
            Operand::Numbered(rt.number()),
            Operand::Signed(offset),
            Operand::Numbered(rs.number()),
        ),
    }
}

//! The instruction of a word.

ghost use Rattle.std.specs.Prelude.{◌≡◌, ◌≢◌, ◌+◌, ◌*◌, ◌/◌, ◌%◌, ℕ, ◌<◌, IfSome, None};
ghost use Rattle.mips_encoder.specs.Decoded.{instr_of};
ghost use Rattle.mips_encoder.specs.Table.{word_of, Fits};
ghost use Rattle.mips_encoder.specs.Decoded as decoded;

use crate::field::{immediate, rd, rs, rt, shamt};
use crate::instruction::{
    ArithmeticOp, EqualityOp, HiLo, ImmediateOp, Instr, JumpOp, MemoryOp, MultiplyDivideOp,
    ShiftOp, ShiftVariableOp, SignTest, ZeroComparisonOp,
};
use crate::operand::{BreakCode, JumpTarget, LinkPair, LinkSource};

/// The instruction of a word, or None exactly where the table has no instruction with this word: the opcode or the
/// function is not in it, a field that the form doesn't name is not 0, or the form excludes these registers.
#[inline]
pub fn decode(w: u32) -> Option<Instr>
    ensures instr { result ≡ instr_of w }
    ensures back { IfSome result (λ i. word_of i ≡ w) }
    ensures none { result ≡ None → (i : Instr) → Fits i → word_of i ≢ w }
{
    instr(w)
}

#[inline]
fn instr(w: u32) -> Option<Instr>
    ensures { result ≡ instr_of w }
{
    match w / 67108864 {
        0 => of_special(w),
        1 => of_regimm(w),
        2 => Some(Instr::Jump(JumpOp::J, JumpTarget::new(w % 67108864))),
        3 => Some(Instr::Jump(JumpOp::Jal, JumpTarget::new(w % 67108864))),
        4 => branch_on_equality(EqualityOp::Beq, w),
        5 => branch_on_equality(EqualityOp::Bne, w),
        6 => branch_on_zero(ZeroComparisonOp::Blez, w),
        7 => branch_on_zero(ZeroComparisonOp::Bgtz, w),
        8 => immediate_arithmetic(ImmediateOp::Addi, w),
        9 => immediate_arithmetic(ImmediateOp::Addiu, w),
        10 => immediate_arithmetic(ImmediateOp::Slti, w),
        11 => immediate_arithmetic(ImmediateOp::Sltiu, w),
        12 => immediate_arithmetic(ImmediateOp::Andi, w),
        13 => immediate_arithmetic(ImmediateOp::Ori, w),
        14 => immediate_arithmetic(ImmediateOp::Xori, w),
        15 => load_upper_immediate(w),
        32 => memory(MemoryOp::Lb, w),
        33 => memory(MemoryOp::Lh, w),
        35 => memory(MemoryOp::Lw, w),
        36 => memory(MemoryOp::Lbu, w),
        37 => memory(MemoryOp::Lhu, w),
        40 => memory(MemoryOp::Sb, w),
        41 => memory(MemoryOp::Sh, w),
        43 => memory(MemoryOp::Sw, w),
        _ => None,
    }
}

#[inline]
fn arithmetic(op: ArithmeticOp, w: u32) -> Option<Instr>
    ensures { result ≡ decoded.arithmetic op w }
{
    if w / 64 % 32 == 0 {
        Some(Instr::Arithmetic(op, rd(w), rs(w), rt(w)))
    } else {
        None
    }
}

#[inline]
fn shift(op: ShiftOp, w: u32) -> Option<Instr>
    ensures { result ≡ decoded.shift op w }
{
    if w / 2097152 % 32 == 0 {
        Some(Instr::Shift(op, rd(w), rt(w), shamt(w)))
    } else {
        None
    }
}

#[inline]
fn shift_variable(op: ShiftVariableOp, w: u32) -> Option<Instr>
    ensures { result ≡ decoded.shift_variable op w }
{
    if w / 64 % 32 == 0 {
        Some(Instr::ShiftVariable(op, rd(w), rt(w), rs(w)))
    } else {
        None
    }
}

#[inline]
fn multiply_divide(op: MultiplyDivideOp, w: u32) -> Option<Instr>
    ensures { result ≡ decoded.multiply_divide op w }
{
    if w / 64 % 1024 == 0 {
        Some(Instr::MultiplyDivide(op, rs(w), rt(w)))
    } else {
        None
    }
}

#[inline]
fn move_from(source: HiLo, w: u32) -> Option<Instr>
    ensures { result ≡ decoded.move_from source w }
{
    if w / 65536 == 0 && w / 64 % 32 == 0 {
        Some(Instr::MoveFrom(source, rd(w)))
    } else {
        None
    }
}

#[inline]
fn move_to(source: HiLo, w: u32) -> Option<Instr>
    ensures { result ≡ decoded.move_to source w }
{
    if w / 64 % 32768 == 0 {
        Some(Instr::MoveTo(source, rs(w)))
    } else {
        None
    }
}

#[inline]
fn jump_and_link_register(w: u32) -> Option<Instr>
    ensures { result ≡ decoded.jump_and_link_register w }
{
    let to = w / 2048 % 32;
    let from = w / 2097152 % 32;
    if to == from {
        return None;
    }
    if w / 65536 % 32 == 0 && w / 64 % 32 == 0 {
        Some(Instr::JumpAndLinkRegister(LinkPair::new(to, from)))
    } else {
        None
    }
}

#[inline]
fn jump_register(w: u32) -> Option<Instr>
    ensures { result ≡ decoded.jump_register w }
{
    if w / 64 % 32768 == 0 {
        Some(Instr::JumpRegister(rs(w)))
    } else {
        None
    }
}

#[inline]
fn syscall(w: u32) -> Option<Instr>
    ensures { result ≡ decoded.syscall w }
{
    if w == 12 { Some(Instr::Syscall) } else { None }
}

#[inline]
fn load_upper_immediate(w: u32) -> Option<Instr>
    ensures { result ≡ decoded.load_upper_immediate w }
{
    if w / 2097152 % 32 == 0 {
        Some(Instr::LoadUpperImmediate(rt(w), immediate(w)))
    } else {
        None
    }
}

#[inline]
fn of_special(w: u32) -> Option<Instr>
    ensures { result ≡ decoded.of_special w }
{
    match w % 64 {
        0 => shift(ShiftOp::Sll, w),
        2 => shift(ShiftOp::Srl, w),
        3 => shift(ShiftOp::Sra, w),
        4 => shift_variable(ShiftVariableOp::Sllv, w),
        6 => shift_variable(ShiftVariableOp::Srlv, w),
        7 => shift_variable(ShiftVariableOp::Srav, w),
        8 => jump_register(w),
        9 => jump_and_link_register(w),
        12 => syscall(w),
        13 => Some(Instr::Break(BreakCode::new(w / 64 % 1048576))),
        16 => move_from(HiLo::Hi, w),
        17 => move_to(HiLo::Hi, w),
        18 => move_from(HiLo::Lo, w),
        19 => move_to(HiLo::Lo, w),
        24 => multiply_divide(MultiplyDivideOp::Mult, w),
        25 => multiply_divide(MultiplyDivideOp::Multu, w),
        26 => multiply_divide(MultiplyDivideOp::Div, w),
        27 => multiply_divide(MultiplyDivideOp::Divu, w),
        32 => arithmetic(ArithmeticOp::Add, w),
        33 => arithmetic(ArithmeticOp::Addu, w),
        34 => arithmetic(ArithmeticOp::Sub, w),
        35 => arithmetic(ArithmeticOp::Subu, w),
        36 => arithmetic(ArithmeticOp::And, w),
        37 => arithmetic(ArithmeticOp::Or, w),
        38 => arithmetic(ArithmeticOp::Xor, w),
        39 => arithmetic(ArithmeticOp::Nor, w),
        42 => arithmetic(ArithmeticOp::Slt, w),
        43 => arithmetic(ArithmeticOp::Sltu, w),
        _ => None,
    }
}

#[inline]
fn branch_on_sign_and_link(op: SignTest, w: u32) -> Option<Instr>
    ensures { result ≡ decoded.branch_on_sign_and_link op w }
{
    let from = w / 2097152 % 32;
    if from == 31 {
        None
    } else {
        Some(Instr::BranchOnSignAndLink(op, LinkSource::new(from), immediate(w)))
    }
}

#[inline]
fn of_regimm(w: u32) -> Option<Instr>
    ensures { result ≡ decoded.of_regimm w }
{
    match w / 65536 % 32 {
        0 => Some(Instr::BranchOnSign(SignTest::Negative, rs(w), immediate(w))),
        1 => Some(Instr::BranchOnSign(SignTest::NonNegative, rs(w), immediate(w))),
        16 => branch_on_sign_and_link(SignTest::Negative, w),
        17 => branch_on_sign_and_link(SignTest::NonNegative, w),
        _ => None,
    }
}

#[inline]
fn branch_on_equality(op: EqualityOp, w: u32) -> Option<Instr>
    ensures { result ≡ decoded.branch_on_equality op w }
{
    Some(Instr::BranchOnEquality(op, rs(w), rt(w), immediate(w)))
}

#[inline]
fn branch_on_zero(op: ZeroComparisonOp, w: u32) -> Option<Instr>
    ensures { result ≡ decoded.branch_on_zero op w }
{
    if w / 65536 % 32 == 0 {
        Some(Instr::BranchOnZero(op, rs(w), immediate(w)))
    } else {
        None
    }
}

#[inline]
fn immediate_arithmetic(op: ImmediateOp, w: u32) -> Option<Instr>
    ensures { result ≡ decoded.immediate_arithmetic op w }
{
    Some(Instr::ImmediateArithmetic(op, rt(w), rs(w), immediate(w)))
}

#[inline]
fn memory(op: MemoryOp, w: u32) -> Option<Instr>
    ensures { result ≡ decoded.memory op w }
{
    Some(Instr::Memory(op, rt(w), immediate(w), rs(w)))
}

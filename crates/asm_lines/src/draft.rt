//! Instructions, as they are written.

ghost use Rattle.std.specs.Prelude.{◌≡◌};
ghost use Rattle.asm_words.specs.Numbers.{number_of};
ghost use Rattle.asm_words.specs.Registers.{register_of};
ghost use Rattle.asm_lines.specs.Operands.{target_of};
ghost use Rattle.asm_lines.specs.declared.draft.Draft.TheVariants as declared;
ghost use Rattle.asm_lines.specs.Drafts as spec;

use crate::operand::{Operands, Target, target_of};
use crate::word::Word;
use asm_words::{Number, Operation, number_of, register_of};
use mips_encoder::{
    ArithmeticOp, EqualityOp, HiLo, ImmediateOp, JumpOp, MemoryOp, MultiplyDivideOp, Register,
    ShiftOp, ShiftVariableOp, SignTest, ZeroComparisonOp,
};

/// An instruction whose numbers and labels stand as they are written, one variant for each form.
#[derive(Drop)]
pub enum Draft<'a> {
    /// rd, rs, rt.
    Arithmetic(ArithmeticOp, Register, Register, Register),
    /// rd, rt, shamt.
    Shift(ShiftOp, Register, Register, Number),
    /// rd, rt, rs.
    ShiftVariable(ShiftVariableOp, Register, Register, Register),
    /// JR: rs.
    JumpRegister(Register),
    /// JALR: rd, rs.
    JumpAndLinkRegister(Register, Register),
    /// SYSCALL.
    Syscall,
    /// BREAK: code.
    Break(Number),
    /// MFHI and MFLO: rd.
    MoveFrom(HiLo, Register),
    /// MTHI and MTLO: rs.
    MoveTo(HiLo, Register),
    /// rs, rt.
    MultiplyDivide(MultiplyDivideOp, Register, Register),
    /// BLTZ and BGEZ: rs, offset.
    BranchOnSign(SignTest, Register, Target<'a>),
    /// BLTZAL and BGEZAL: rs, offset.
    BranchOnSignAndLink(SignTest, Register, Target<'a>),
    /// The target.
    Jump(JumpOp, Target<'a>),
    /// rs, rt, offset.
    BranchOnEquality(EqualityOp, Register, Register, Target<'a>),
    /// rs, offset.
    BranchOnZero(ZeroComparisonOp, Register, Target<'a>),
    /// rt, rs, immediate.
    ImmediateArithmetic(ImmediateOp, Register, Register, Number),
    /// LUI: rt, immediate.
    LoadUpperImmediate(Register, Number),
    /// rt, offset, rs.
    Memory(MemoryOp, Register, Number, Register),
}

fn register(word: &Word<'_>) -> Option<Register>
    ensures { result ≡ register_of word.now }
{
    register_of(word.bytes())
}

fn number(word: &Word<'_>) -> Option<Number>
    ensures { result ≡ number_of word.now }
{
    number_of(word.bytes())
}

// A register alone.
fn one_register(operands: &Operands<'_>) -> Option<Register>
    ensures { result ≡ spec.one register_of spec.single operands.now }
{
    let Operands::One(a) = operands else {
        return None;
    };
    register(a)
}

// A number alone.
fn one_number(operands: &Operands<'_>) -> Option<Number>
    ensures { result ≡ spec.one number_of spec.single operands.now }
{
    let Operands::One(a) = operands else {
        return None;
    };
    number(a)
}

// A target alone.
fn one_target<'a>(operands: &Operands<'a>) -> Option<Target<'a>>
    ensures { result ≡ spec.one target_of spec.single operands.now }
{
    let Operands::One(a) = operands else {
        return None;
    };
    target_of(a)
}

// Two registers.
fn two_registers(operands: &Operands<'_>) -> Option<(Register, Register)>
    ensures { result ≡ spec.two register_of register_of spec.pair operands.now }
{
    let Operands::Two(a, b) = operands else {
        return None;
    };
    match (register(a), register(b)) {
        (Some(a), Some(b)) => Some((a, b)),
        _ => None,
    }
}

// A register and a number.
fn register_and_number(operands: &Operands<'_>) -> Option<(Register, Number)>
    ensures { result ≡ spec.two register_of number_of spec.pair operands.now }
{
    let Operands::Two(a, b) = operands else {
        return None;
    };
    match (register(a), number(b)) {
        (Some(a), Some(b)) => Some((a, b)),
        _ => None,
    }
}

// A register and a target.
fn register_and_target<'a>(operands: &Operands<'a>) -> Option<(Register, Target<'a>)>
    ensures { result ≡ spec.two register_of target_of spec.pair operands.now }
{
    let Operands::Two(a, b) = operands else {
        return None;
    };
    match (register(a), target_of(b)) {
        (Some(a), Some(b)) => Some((a, b)),
        _ => None,
    }
}

// Three registers.
fn three_registers(operands: &Operands<'_>) -> Option<(Register, Register, Register)>
    ensures { result ≡ spec.three register_of register_of register_of spec.triple operands.now }
{
    let Operands::Three(a, b, c) = operands else {
        return None;
    };
    match (register(a), register(b), register(c)) {
        (Some(a), Some(b), Some(c)) => Some((a, b, c)),
        _ => None,
    }
}

// Two registers and a number.
fn two_registers_and_number(operands: &Operands<'_>) -> Option<(Register, Register, Number)>
    ensures { result ≡ spec.three register_of register_of number_of spec.triple operands.now }
{
    let Operands::Three(a, b, c) = operands else {
        return None;
    };
    match (register(a), register(b), number(c)) {
        (Some(a), Some(b), Some(c)) => Some((a, b, c)),
        _ => None,
    }
}

// Two registers and a target.
fn two_registers_and_target<'a>(operands: &Operands<'a>) -> Option<(Register, Register, Target<'a>)>
    ensures { result ≡ spec.three register_of register_of target_of spec.triple operands.now }
{
    let Operands::Three(a, b, c) = operands else {
        return None;
    };
    match (register(a), register(b), target_of(c)) {
        (Some(a), Some(b), Some(c)) => Some((a, b, c)),
        _ => None,
    }
}

// A register, and a number with a register in parentheses.
fn memory_operands(operands: &Operands<'_>) -> Option<(Register, Number, Register)>
    ensures { result ≡ spec.based register_of number_of register_of spec.triple operands.now }
{
    let Operands::Based(a, b, c) = operands else {
        return None;
    };
    match (register(a), number(b), register(c)) {
        (Some(a), Some(b), Some(c)) => Some((a, b, c)),
        _ => None,
    }
}

// Whether no operands stand there.
fn is_nothing(operands: &Operands<'_>) -> bool
    ensures { result ≡ spec.is_nothing operands.now }
{
    matches!(operands, Operands::Nothing)
}

/// The instruction of an operation with these operands, or None where they are not those of its form. `nop` is
/// `sll $0,$0,0`.
#[tactic(auto, unfolding(crate::specs::Drafts::drafted))]
pub fn drafted<'a>(operation: Operation, operands: &Operands<'a>) -> Option<Draft<'a>>
    ensures { result ≡ spec.drafted operation operands.now }
{
    match operation {
        Operation::Arithmetic(op) => {
            let (rd, rs, rt) = three_registers(operands)?;
            Some(Draft::Arithmetic(op, rd, rs, rt))
        }
        Operation::Shift(op) => {
            let (rd, rt, shamt) = two_registers_and_number(operands)?;
            Some(Draft::Shift(op, rd, rt, shamt))
        }
        Operation::ShiftVariable(op) => {
            let (rd, rt, rs) = three_registers(operands)?;
            Some(Draft::ShiftVariable(op, rd, rt, rs))
        }
        Operation::JumpRegister => Some(Draft::JumpRegister(one_register(operands)?)),
        Operation::JumpAndLinkRegister => {
            let (rd, rs) = two_registers(operands)?;
            Some(Draft::JumpAndLinkRegister(rd, rs))
        }
        Operation::Syscall if is_nothing(operands) => Some(Draft::Syscall),
        Operation::Break => Some(Draft::Break(one_number(operands)?)),
        Operation::MoveFrom(op) => Some(Draft::MoveFrom(op, one_register(operands)?)),
        Operation::MoveTo(op) => Some(Draft::MoveTo(op, one_register(operands)?)),
        Operation::MultiplyDivide(op) => {
            let (rs, rt) = two_registers(operands)?;
            Some(Draft::MultiplyDivide(op, rs, rt))
        }
        Operation::BranchOnSign(op) => {
            let (rs, offset) = register_and_target(operands)?;
            Some(Draft::BranchOnSign(op, rs, offset))
        }
        Operation::BranchOnSignAndLink(op) => {
            let (rs, offset) = register_and_target(operands)?;
            Some(Draft::BranchOnSignAndLink(op, rs, offset))
        }
        Operation::Jump(op) => Some(Draft::Jump(op, one_target(operands)?)),
        Operation::BranchOnEquality(op) => {
            let (rs, rt, offset) = two_registers_and_target(operands)?;
            Some(Draft::BranchOnEquality(op, rs, rt, offset))
        }
        Operation::BranchOnZero(op) => {
            let (rs, offset) = register_and_target(operands)?;
            Some(Draft::BranchOnZero(op, rs, offset))
        }
        Operation::ImmediateArithmetic(op) => {
            let (rt, rs, immediate) = two_registers_and_number(operands)?;
            Some(Draft::ImmediateArithmetic(op, rt, rs, immediate))
        }
        Operation::LoadUpperImmediate => {
            let (rt, immediate) = register_and_number(operands)?;
            Some(Draft::LoadUpperImmediate(rt, immediate))
        }
        Operation::Memory(op) => {
            let (rt, offset, rs) = memory_operands(operands)?;
            Some(Draft::Memory(op, rt, offset, rs))
        }
        Operation::NoOperation if is_nothing(operands) => {
            let zero = Number {
                negative: false,
                magnitude: Some(0),
            };
            Some(Draft::Shift(ShiftOp::Sll, Register::ZERO, Register::ZERO, zero))
        }
        Operation::Syscall | Operation::NoOperation => None,
    }
}

//! Operations by their names.

ghost use Rattle.std.specs.Prelude.{◌≡◌, Some};
ghost use Rattle.asm_words.specs.Operations as spec;

use asm_print::{
    arithmetic, equality, immediate, jump, memory, move_from, move_to, multiply_divide, shift,
    shift_variable, sign, sign_and_link, zero_comparison,
};
use mips_encoder::{
    ArithmeticOp, EqualityOp, HiLo, ImmediateOp, JumpOp, MemoryOp, MultiplyDivideOp, ShiftOp,
    ShiftVariableOp, SignTest, ZeroComparisonOp,
};

/// An operation that a line names, one variant for each form of operands.
#[derive(Clone, Copy)]
pub enum Operation {
    /// rd, rs, rt.
    Arithmetic(ArithmeticOp),
    /// rd, rt, shamt.
    Shift(ShiftOp),
    /// rd, rt, rs.
    ShiftVariable(ShiftVariableOp),
    /// JR: rs.
    JumpRegister,
    /// JALR: rd, rs.
    JumpAndLinkRegister,
    /// SYSCALL, without operands.
    Syscall,
    /// BREAK: code.
    Break,
    /// MFHI and MFLO: rd.
    MoveFrom(HiLo),
    /// MTHI and MTLO: rs.
    MoveTo(HiLo),
    /// rs, rt.
    MultiplyDivide(MultiplyDivideOp),
    /// BLTZ and BGEZ: rs, offset.
    BranchOnSign(SignTest),
    /// BLTZAL and BGEZAL: rs, offset.
    BranchOnSignAndLink(SignTest),
    /// The target.
    Jump(JumpOp),
    /// rs, rt, offset.
    BranchOnEquality(EqualityOp),
    /// rs, offset.
    BranchOnZero(ZeroComparisonOp),
    /// rt, rs, immediate.
    ImmediateArithmetic(ImmediateOp),
    /// LUI: rt, immediate.
    LoadUpperImmediate,
    /// rt, offset, and rs in parentheses.
    Memory(MemoryOp),
    /// The word 0, without operands: `nop`.
    NoOperation,
}

// All operations.
const OPERATIONS: [Operation; 55] = [
    Operation::Arithmetic(ArithmeticOp::Add),
    Operation::Arithmetic(ArithmeticOp::Addu),
    Operation::Arithmetic(ArithmeticOp::Sub),
    Operation::Arithmetic(ArithmeticOp::Subu),
    Operation::Arithmetic(ArithmeticOp::And),
    Operation::Arithmetic(ArithmeticOp::Or),
    Operation::Arithmetic(ArithmeticOp::Xor),
    Operation::Arithmetic(ArithmeticOp::Nor),
    Operation::Arithmetic(ArithmeticOp::Slt),
    Operation::Arithmetic(ArithmeticOp::Sltu),
    Operation::Shift(ShiftOp::Sll),
    Operation::Shift(ShiftOp::Srl),
    Operation::Shift(ShiftOp::Sra),
    Operation::ShiftVariable(ShiftVariableOp::Sllv),
    Operation::ShiftVariable(ShiftVariableOp::Srlv),
    Operation::ShiftVariable(ShiftVariableOp::Srav),
    Operation::JumpRegister,
    Operation::JumpAndLinkRegister,
    Operation::Syscall,
    Operation::Break,
    Operation::MoveFrom(HiLo::Hi),
    Operation::MoveFrom(HiLo::Lo),
    Operation::MoveTo(HiLo::Hi),
    Operation::MoveTo(HiLo::Lo),
    Operation::MultiplyDivide(MultiplyDivideOp::Mult),
    Operation::MultiplyDivide(MultiplyDivideOp::Multu),
    Operation::MultiplyDivide(MultiplyDivideOp::Div),
    Operation::MultiplyDivide(MultiplyDivideOp::Divu),
    Operation::BranchOnSign(SignTest::Negative),
    Operation::BranchOnSign(SignTest::NonNegative),
    Operation::BranchOnSignAndLink(SignTest::Negative),
    Operation::BranchOnSignAndLink(SignTest::NonNegative),
    Operation::Jump(JumpOp::J),
    Operation::Jump(JumpOp::Jal),
    Operation::BranchOnEquality(EqualityOp::Beq),
    Operation::BranchOnEquality(EqualityOp::Bne),
    Operation::BranchOnZero(ZeroComparisonOp::Blez),
    Operation::BranchOnZero(ZeroComparisonOp::Bgtz),
    Operation::ImmediateArithmetic(ImmediateOp::Addi),
    Operation::ImmediateArithmetic(ImmediateOp::Addiu),
    Operation::ImmediateArithmetic(ImmediateOp::Slti),
    Operation::ImmediateArithmetic(ImmediateOp::Sltiu),
    Operation::ImmediateArithmetic(ImmediateOp::Andi),
    Operation::ImmediateArithmetic(ImmediateOp::Ori),
    Operation::ImmediateArithmetic(ImmediateOp::Xori),
    Operation::LoadUpperImmediate,
    Operation::Memory(MemoryOp::Lb),
    Operation::Memory(MemoryOp::Lh),
    Operation::Memory(MemoryOp::Lw),
    Operation::Memory(MemoryOp::Lbu),
    Operation::Memory(MemoryOp::Lhu),
    Operation::Memory(MemoryOp::Sb),
    Operation::Memory(MemoryOp::Sh),
    Operation::Memory(MemoryOp::Sw),
    Operation::NoOperation,
];

impl Operation {
    /// The name: that of the instruction table in lower case, or `nop`. The operation is found by it.
    pub fn name(self) -> &'static str
        ensures value { result.now ≡ spec.operation_name self }
        ensures found { spec.operation_of result.now ≡ Some self }
    {
        self.spelling()
    }

    fn spelling(self) -> &'static str
        ensures { result.now ≡ spec.operation_name self }
    {
        match self {
            Operation::Arithmetic(op) => arithmetic(op),
            Operation::Shift(op) => shift(op),
            Operation::ShiftVariable(op) => shift_variable(op),
            Operation::JumpRegister => "jr",
            Operation::JumpAndLinkRegister => "jalr",
            Operation::Syscall => "syscall",
            Operation::Break => "break",
            Operation::MoveFrom(op) => move_from(op),
            Operation::MoveTo(op) => move_to(op),
            Operation::MultiplyDivide(op) => multiply_divide(op),
            Operation::BranchOnSign(op) => sign(op),
            Operation::BranchOnSignAndLink(op) => sign_and_link(op),
            Operation::Jump(op) => jump(op),
            Operation::BranchOnEquality(op) => equality(op),
            Operation::BranchOnZero(op) => zero_comparison(op),
            Operation::ImmediateArithmetic(op) => immediate(op),
            Operation::LoadUpperImmediate => "lui",
            Operation::Memory(op) => memory(op),
            Operation::NoOperation => "nop",
        }
    }
}

// The one of these operations that a word names.
fn among(operations: &[Operation], word: &[u8]) -> Option<Operation>
    ensures { result ≡ spec.named operations.now word.now }
{
    for operation in operations {
        if word == operation.spelling().as_bytes() {
            return Some(*operation);
        }
    }
    None
}

/// The operation with this name, or none where no operation has it.
#[tactic(auto, unfolding(crate::specs::Operations::operation_of))]
pub fn operation_of(word: &[u8]) -> Option<Operation>
    ensures { result ≡ spec.operation_of word.now }
{
    among(&OPERATIONS, word)
}

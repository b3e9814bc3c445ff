//! The numbers of operations: the field of the word that tells an operation from the others.

ghost use Rattle.std.specs.Prelude.{◌≡◌, ◌+◌};
ghost use Rattle.mips_encoder.specs.Codes.{
  arithmetic_code,
  shift_code,
  shift_variable_code,
  move_from_code,
  move_to_code,
  multiply_divide_code,
  sign_code,
  jump_code,
  equality_code,
  zero_comparison_code,
  immediate_code,
  memory_code,
};

use crate::instruction::{
    ArithmeticOp, EqualityOp, HiLo, ImmediateOp, JumpOp, MemoryOp, MultiplyDivideOp, ShiftOp,
    ShiftVariableOp, SignTest, ZeroComparisonOp,
};

impl ArithmeticOp {
    /// The low six bits of the word.
    pub(crate) fn funct(self) -> u32
        ensures { result ≡ arithmetic_code self }
    {
        match self {
            ArithmeticOp::Add => 32,
            ArithmeticOp::Addu => 33,
            ArithmeticOp::Sub => 34,
            ArithmeticOp::Subu => 35,
            ArithmeticOp::And => 36,
            ArithmeticOp::Or => 37,
            ArithmeticOp::Xor => 38,
            ArithmeticOp::Nor => 39,
            ArithmeticOp::Slt => 42,
            ArithmeticOp::Sltu => 43,
        }
    }
}

impl ShiftOp {
    /// The low six bits of the word.
    pub(crate) fn funct(self) -> u32
        ensures { result ≡ shift_code self }
    {
        match self {
            ShiftOp::Sll => 0,
            ShiftOp::Srl => 2,
            ShiftOp::Sra => 3,
        }
    }
}

impl ShiftVariableOp {
    /// The low six bits of the word.
    pub(crate) fn funct(self) -> u32
        ensures { result ≡ shift_variable_code self }
    {
        match self {
            ShiftVariableOp::Sllv => 4,
            ShiftVariableOp::Srlv => 6,
            ShiftVariableOp::Srav => 7,
        }
    }
}

impl HiLo {
    /// The low six bits of MFHI or MFLO.
    pub(crate) fn move_from_funct(self) -> u32
        ensures { result ≡ move_from_code self }
    {
        match self {
            HiLo::Hi => 16,
            HiLo::Lo => 18,
        }
    }

    /// The low six bits of MTHI or MTLO.
    pub(crate) fn move_to_funct(self) -> u32
        ensures { result ≡ move_to_code self }
    {
        match self {
            HiLo::Hi => 17,
            HiLo::Lo => 19,
        }
    }
}

impl MultiplyDivideOp {
    /// The low six bits of the word.
    pub(crate) fn funct(self) -> u32
        ensures { result ≡ multiply_divide_code self }
    {
        match self {
            MultiplyDivideOp::Mult => 24,
            MultiplyDivideOp::Multu => 25,
            MultiplyDivideOp::Div => 26,
            MultiplyDivideOp::Divu => 27,
        }
    }
}

impl SignTest {
    /// The field rt of the branch without a link. With a link it is 16 more.
    pub(crate) fn rt(self) -> u32
        ensures { result ≡ sign_code self }
    {
        match self {
            SignTest::Negative => 0,
            SignTest::NonNegative => 1,
        }
    }
}

impl JumpOp {
    /// The high six bits of the word.
    pub(crate) fn opcode(self) -> u32
        ensures { result ≡ jump_code self }
    {
        match self {
            JumpOp::J => 2,
            JumpOp::Jal => 3,
        }
    }
}

impl EqualityOp {
    /// The high six bits of the word.
    pub(crate) fn opcode(self) -> u32
        ensures { result ≡ equality_code self }
    {
        match self {
            EqualityOp::Beq => 4,
            EqualityOp::Bne => 5,
        }
    }
}

impl ZeroComparisonOp {
    /// The high six bits of the word.
    pub(crate) fn opcode(self) -> u32
        ensures { result ≡ zero_comparison_code self }
    {
        match self {
            ZeroComparisonOp::Blez => 6,
            ZeroComparisonOp::Bgtz => 7,
        }
    }
}

impl ImmediateOp {
    /// The high six bits of the word.
    pub(crate) fn opcode(self) -> u32
        ensures { result ≡ immediate_code self }
    {
        match self {
            ImmediateOp::Addi => 8,
            ImmediateOp::Addiu => 9,
            ImmediateOp::Slti => 10,
            ImmediateOp::Sltiu => 11,
            ImmediateOp::Andi => 12,
            ImmediateOp::Ori => 13,
            ImmediateOp::Xori => 14,
        }
    }
}

impl MemoryOp {
    /// The high six bits of the word.
    pub(crate) fn opcode(self) -> u32
        ensures { result ≡ memory_code self }
    {
        match self {
            MemoryOp::Lb => 32,
            MemoryOp::Lh => 33,
            MemoryOp::Lw => 35,
            MemoryOp::Lbu => 36,
            MemoryOp::Lhu => 37,
            MemoryOp::Sb => 40,
            MemoryOp::Sh => 41,
            MemoryOp::Sw => 43,
        }
    }
}

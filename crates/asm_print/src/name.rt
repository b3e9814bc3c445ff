//! The names of operations in assembly text, those of the architecture manual in lower case.

ghost use Rattle.std.specs.Prelude.{◌≡◌, ◌≤◌, length};
ghost use Rattle.asm_print.specs.Names.{
  arithmetic_name,
  shift_name,
  shift_variable_name,
  move_from_name,
  move_to_name,
  multiply_divide_name,
  sign_name,
  sign_and_link_name,
  jump_name,
  equality_name,
  zero_comparison_name,
  immediate_name,
  memory_name,
};

use mips_encoder::{
    ArithmeticOp, EqualityOp, HiLo, ImmediateOp, JumpOp, MemoryOp, MultiplyDivideOp, ShiftOp,
    ShiftVariableOp, SignTest, ZeroComparisonOp,
};

/// The name of the operation.
pub fn arithmetic(op: ArithmeticOp) -> &'static str
    ensures value { result.now ≡ arithmetic_name op }
    ensures short { length result.now ≤ 6 }
{
    match op {
        ArithmeticOp::Add => "add",
        ArithmeticOp::Addu => "addu",
        ArithmeticOp::Sub => "sub",
        ArithmeticOp::Subu => "subu",
        ArithmeticOp::And => "and",
        ArithmeticOp::Or => "or",
        ArithmeticOp::Xor => "xor",
        ArithmeticOp::Nor => "nor",
        ArithmeticOp::Slt => "slt",
        ArithmeticOp::Sltu => "sltu",
    }
}

/// The name of the operation.
pub fn shift(op: ShiftOp) -> &'static str
    ensures value { result.now ≡ shift_name op }
    ensures short { length result.now ≤ 6 }
{
    match op {
        ShiftOp::Sll => "sll",
        ShiftOp::Srl => "srl",
        ShiftOp::Sra => "sra",
    }
}

/// The name of the operation.
pub fn shift_variable(op: ShiftVariableOp) -> &'static str
    ensures value { result.now ≡ shift_variable_name op }
    ensures short { length result.now ≤ 6 }
{
    match op {
        ShiftVariableOp::Sllv => "sllv",
        ShiftVariableOp::Srlv => "srlv",
        ShiftVariableOp::Srav => "srav",
    }
}

/// The name of the move from this register.
pub fn move_from(op: HiLo) -> &'static str
    ensures value { result.now ≡ move_from_name op }
    ensures short { length result.now ≤ 6 }
{
    match op {
        HiLo::Hi => "mfhi",
        HiLo::Lo => "mflo",
    }
}

/// The name of the move to this register.
pub fn move_to(op: HiLo) -> &'static str
    ensures value { result.now ≡ move_to_name op }
    ensures short { length result.now ≤ 6 }
{
    match op {
        HiLo::Hi => "mthi",
        HiLo::Lo => "mtlo",
    }
}

/// The name of the operation.
pub fn multiply_divide(op: MultiplyDivideOp) -> &'static str
    ensures value { result.now ≡ multiply_divide_name op }
    ensures short { length result.now ≤ 6 }
{
    match op {
        MultiplyDivideOp::Mult => "mult",
        MultiplyDivideOp::Multu => "multu",
        MultiplyDivideOp::Div => "div",
        MultiplyDivideOp::Divu => "divu",
    }
}

/// The name of the branch by this test, without a link.
pub fn sign(op: SignTest) -> &'static str
    ensures value { result.now ≡ sign_name op }
    ensures short { length result.now ≤ 6 }
{
    match op {
        SignTest::Negative => "bltz",
        SignTest::NonNegative => "bgez",
    }
}

/// The name of the branch by this test, with a link.
pub fn sign_and_link(op: SignTest) -> &'static str
    ensures value { result.now ≡ sign_and_link_name op }
    ensures short { length result.now ≤ 6 }
{
    match op {
        SignTest::Negative => "bltzal",
        SignTest::NonNegative => "bgezal",
    }
}

/// The name of the operation.
pub fn jump(op: JumpOp) -> &'static str
    ensures value { result.now ≡ jump_name op }
    ensures short { length result.now ≤ 6 }
{
    match op {
        JumpOp::J => "j",
        JumpOp::Jal => "jal",
    }
}

/// The name of the operation.
pub fn equality(op: EqualityOp) -> &'static str
    ensures value { result.now ≡ equality_name op }
    ensures short { length result.now ≤ 6 }
{
    match op {
        EqualityOp::Beq => "beq",
        EqualityOp::Bne => "bne",
    }
}

/// The name of the operation.
pub fn zero_comparison(op: ZeroComparisonOp) -> &'static str
    ensures value { result.now ≡ zero_comparison_name op }
    ensures short { length result.now ≤ 6 }
{
    match op {
        ZeroComparisonOp::Blez => "blez",
        ZeroComparisonOp::Bgtz => "bgtz",
    }
}

/// The name of the operation.
pub fn immediate(op: ImmediateOp) -> &'static str
    ensures value { result.now ≡ immediate_name op }
    ensures short { length result.now ≤ 6 }
{
    match op {
        ImmediateOp::Addi => "addi",
        ImmediateOp::Addiu => "addiu",
        ImmediateOp::Slti => "slti",
        ImmediateOp::Sltiu => "sltiu",
        ImmediateOp::Andi => "andi",
        ImmediateOp::Ori => "ori",
        ImmediateOp::Xori => "xori",
    }
}

/// The name of the operation.
pub fn memory(op: MemoryOp) -> &'static str
    ensures value { result.now ≡ memory_name op }
    ensures short { length result.now ≤ 6 }
{
    match op {
        MemoryOp::Lb => "lb",
        MemoryOp::Lh => "lh",
        MemoryOp::Lw => "lw",
        MemoryOp::Lbu => "lbu",
        MemoryOp::Lhu => "lhu",
        MemoryOp::Sb => "sb",
        MemoryOp::Sh => "sh",
        MemoryOp::Sw => "sw",
    }
}

//! Instructions by their names in assembly text, with their operands in that text's order. Offsets and immediates are
//! their 16 bits, and the addresses of jumps are in bytes.
#![tactic(auto)]

ghost use Rattle.std.specs.Prelude.{◌≡◌, ◌<◌};
ghost use Rattle.word32.specs.declared.map.TheConstants.{SEGMENT_BYTES};
ghost use Rattle.mips_assembly.specs.Assembly as assembly;

use mips_encoder::{
    ArithmeticOp, BreakCode, EqualityOp, HiLo, Immediate, ImmediateOp, Instr, JumpOp, JumpTarget,
    LinkPair, MemoryOp, MultiplyDivideOp, Register, ShiftAmount, ShiftOp, ShiftVariableOp,
};

/// `addu d, s, t`
#[inline]
pub fn addu(d: Register, s: Register, t: Register) -> Instr
    ensures { result ≡ assembly.addu d s t }
{
    Instr::Arithmetic(ArithmeticOp::Addu, d, s, t)
}

/// `subu d, s, t`
#[inline]
pub fn subu(d: Register, s: Register, t: Register) -> Instr
    ensures { result ≡ assembly.subu d s t }
{
    Instr::Arithmetic(ArithmeticOp::Subu, d, s, t)
}

/// `xor d, s, t`
#[inline]
pub fn xor(d: Register, s: Register, t: Register) -> Instr
    ensures { result ≡ assembly.xor d s t }
{
    Instr::Arithmetic(ArithmeticOp::Xor, d, s, t)
}

/// `slt d, s, t`
#[inline]
pub fn slt(d: Register, s: Register, t: Register) -> Instr
    ensures { result ≡ assembly.slt d s t }
{
    Instr::Arithmetic(ArithmeticOp::Slt, d, s, t)
}

/// `sltu d, s, t`
#[inline]
pub fn sltu(d: Register, s: Register, t: Register) -> Instr
    ensures { result ≡ assembly.sltu d s t }
{
    Instr::Arithmetic(ArithmeticOp::Sltu, d, s, t)
}

/// `addiu t, s, bits`
#[inline]
pub fn addiu(t: Register, s: Register, bits: u32) -> Instr
    requires { bits < 65536 }
    ensures { result ≡ assembly.addiu t s bits }
{
    Instr::ImmediateArithmetic(ImmediateOp::Addiu, t, s, Immediate::new(bits))
}

/// `sltiu t, s, bits`
#[inline]
pub fn sltiu(t: Register, s: Register, bits: u32) -> Instr
    requires { bits < 65536 }
    ensures { result ≡ assembly.sltiu t s bits }
{
    Instr::ImmediateArithmetic(ImmediateOp::Sltiu, t, s, Immediate::new(bits))
}

/// `andi t, s, bits`
#[inline]
pub fn andi(t: Register, s: Register, bits: u32) -> Instr
    requires { bits < 65536 }
    ensures { result ≡ assembly.andi t s bits }
{
    Instr::ImmediateArithmetic(ImmediateOp::Andi, t, s, Immediate::new(bits))
}

/// `ori t, s, bits`
#[inline]
pub fn ori(t: Register, s: Register, bits: u32) -> Instr
    requires { bits < 65536 }
    ensures { result ≡ assembly.ori t s bits }
{
    Instr::ImmediateArithmetic(ImmediateOp::Ori, t, s, Immediate::new(bits))
}

/// `xori t, s, bits`
#[inline]
pub fn xori(t: Register, s: Register, bits: u32) -> Instr
    requires { bits < 65536 }
    ensures { result ≡ assembly.xori t s bits }
{
    Instr::ImmediateArithmetic(ImmediateOp::Xori, t, s, Immediate::new(bits))
}

/// `sll d, t, bits`
#[inline]
pub fn sll(d: Register, t: Register, bits: u32) -> Instr
    requires { bits < 32 }
    ensures { result ≡ assembly.sll d t bits }
{
    Instr::Shift(ShiftOp::Sll, d, t, ShiftAmount::new(bits))
}

/// `srl d, t, bits`
#[inline]
pub fn srl(d: Register, t: Register, bits: u32) -> Instr
    requires { bits < 32 }
    ensures { result ≡ assembly.srl d t bits }
{
    Instr::Shift(ShiftOp::Srl, d, t, ShiftAmount::new(bits))
}

/// `sra d, t, bits`
#[inline]
pub fn sra(d: Register, t: Register, bits: u32) -> Instr
    requires { bits < 32 }
    ensures { result ≡ assembly.sra d t bits }
{
    Instr::Shift(ShiftOp::Sra, d, t, ShiftAmount::new(bits))
}

/// `lw t, offset(base)`
#[inline]
pub fn lw(t: Register, offset: u32, base: Register) -> Instr
    requires { offset < 65536 }
    ensures { result ≡ assembly.lw t offset base }
{
    Instr::Memory(MemoryOp::Lw, t, Immediate::new(offset), base)
}

/// `sw t, offset(base)`
#[inline]
pub fn sw(t: Register, offset: u32, base: Register) -> Instr
    requires { offset < 65536 }
    ensures { result ≡ assembly.sw t offset base }
{
    Instr::Memory(MemoryOp::Sw, t, Immediate::new(offset), base)
}

/// `beq s, t, offset`, with the offset in words from the instruction behind this one
#[inline]
pub fn beq(s: Register, t: Register, offset: u32) -> Instr
    requires { offset < 65536 }
    ensures { result ≡ assembly.beq s t offset }
{
    Instr::BranchOnEquality(EqualityOp::Beq, s, t, Immediate::new(offset))
}

/// `bne s, t, offset`, with the offset in words from the instruction behind this one
#[inline]
pub fn bne(s: Register, t: Register, offset: u32) -> Instr
    requires { offset < 65536 }
    ensures { result ≡ assembly.bne s t offset }
{
    Instr::BranchOnEquality(EqualityOp::Bne, s, t, Immediate::new(offset))
}

/// `j address`
#[inline]
pub fn j(address: u32) -> Instr
    requires { address < SEGMENT_BYTES }
    ensures { result ≡ assembly.j address }
{
    Instr::Jump(JumpOp::J, JumpTarget::new(address / 4))
}

/// `jal address`
#[inline]
pub fn jal(address: u32) -> Instr
    requires { address < SEGMENT_BYTES }
    ensures { result ≡ assembly.jal address }
{
    Instr::Jump(JumpOp::Jal, JumpTarget::new(address / 4))
}

/// `lui t, bits`
#[inline]
pub fn lui(t: Register, bits: u32) -> Instr
    requires { bits < 65536 }
    ensures { result ≡ assembly.lui t bits }
{
    Instr::LoadUpperImmediate(t, Immediate::new(bits))
}

/// `break code`
#[inline]
pub fn trap(code: u32) -> Instr
    requires { code < 1048576 }
    ensures { result ≡ assembly.trap code }
{
    Instr::Break(BreakCode::new(code))
}

/// The instruction that does nothing: `sll $0, $0, 0`
#[inline]
pub fn nop() -> Instr
    ensures { result ≡ assembly.nop }
{
    sll(Register::ZERO, Register::ZERO, 0)
}

/// `and d, s, t`
#[inline]
pub fn and(d: Register, s: Register, t: Register) -> Instr
    ensures { result ≡ assembly.and d s t }
{
    Instr::Arithmetic(ArithmeticOp::And, d, s, t)
}

/// `or d, s, t`
#[inline]
pub fn or(d: Register, s: Register, t: Register) -> Instr
    ensures { result ≡ assembly.or d s t }
{
    Instr::Arithmetic(ArithmeticOp::Or, d, s, t)
}

/// `nor d, s, t`
#[inline]
pub fn nor(d: Register, s: Register, t: Register) -> Instr
    ensures { result ≡ assembly.nor d s t }
{
    Instr::Arithmetic(ArithmeticOp::Nor, d, s, t)
}

/// `sllv d, t, s`
#[inline]
pub fn sllv(d: Register, t: Register, s: Register) -> Instr
    ensures { result ≡ assembly.sllv d t s }
{
    Instr::ShiftVariable(ShiftVariableOp::Sllv, d, t, s)
}

/// `srlv d, t, s`
#[inline]
pub fn srlv(d: Register, t: Register, s: Register) -> Instr
    ensures { result ≡ assembly.srlv d t s }
{
    Instr::ShiftVariable(ShiftVariableOp::Srlv, d, t, s)
}

/// `srav d, t, s`
#[inline]
pub fn srav(d: Register, t: Register, s: Register) -> Instr
    ensures { result ≡ assembly.srav d t s }
{
    Instr::ShiftVariable(ShiftVariableOp::Srav, d, t, s)
}

/// `mult s, t`
#[inline]
pub fn mult(s: Register, t: Register) -> Instr
    ensures { result ≡ assembly.mult s t }
{
    Instr::MultiplyDivide(MultiplyDivideOp::Mult, s, t)
}

/// `div s, t`
#[inline]
pub fn div(s: Register, t: Register) -> Instr
    ensures { result ≡ assembly.div s t }
{
    Instr::MultiplyDivide(MultiplyDivideOp::Div, s, t)
}

/// `divu s, t`
#[inline]
pub fn divu(s: Register, t: Register) -> Instr
    ensures { result ≡ assembly.divu s t }
{
    Instr::MultiplyDivide(MultiplyDivideOp::Divu, s, t)
}

/// `mflo d`
#[inline]
pub fn mflo(d: Register) -> Instr
    ensures { result ≡ assembly.mflo d }
{
    Instr::MoveFrom(HiLo::Lo, d)
}

/// `mfhi d`
#[inline]
pub fn mfhi(d: Register) -> Instr
    ensures { result ≡ assembly.mfhi d }
{
    Instr::MoveFrom(HiLo::Hi, d)
}

/// `jr s`
#[inline]
pub fn jr(s: Register) -> Instr
    ensures { result ≡ assembly.jr s }
{
    Instr::JumpRegister(s)
}

/// `jalr $ra, $t8`
#[inline]
pub fn jalr_of_t8() -> Instr
    ensures { result ≡ assembly.jalr assembly.ra assembly.t8 }
{
    Instr::JumpAndLinkRegister(LinkPair::new(31, 24))
}

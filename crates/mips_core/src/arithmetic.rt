//! What the instructions compute.

ghost use Rattle.std.specs.Prelude.{◌≡◌, ◌+◌, ◌*◌, ◌/◌, ◌%◌, ◌-◌, ℕ, ◌<◌, ◌≤◌};
ghost use Rattle.word32.specs.Words.{widened_half, is_less_signed, sign_turned};
ghost use Rattle.mips_model.specs.Arithmetic as spec;

use mips_encoder::{
    ArithmeticOp, Immediate, ImmediateOp, MultiplyDivideOp, ShiftOp, ShiftVariableOp, SignTest,
    ZeroComparisonOp,
};
use word32::{DivFault, div_s, div_u};

/// The immediate of 16 bits, widened to a word with its sign.
#[inline]
pub fn widened(n: Immediate) -> u32
    ensures { result ≡ widened_half n }
{
    let bits = n.bits();
    (bits.wrapping_add(32768) % 65536).wrapping_sub(32768)
}

#[inline]
fn turned(w: u32) -> u32
    ensures { result ≡ sign_turned w }
{
    w.wrapping_add(0x8000_0000)
}

/// The result of an operation on two registers; None where a sum or difference that must fit doesn't.
#[inline]
#[tactic(auto, using(word32::proofs::WordLaws::less_turned))]
pub fn arithmetic(op: ArithmeticOp, a: u32, b: u32) -> Option<u32>
    ensures { result ≡ spec.arithmetic op a b }
{
    match op {
        ArithmeticOp::Add => {
            let total = u64::from(turned(a)) + u64::from(turned(b));
            if total >= 2147483648 && total < 6442450944 {
                Some(a.wrapping_add(b))
            } else {
                None
            }
        }
        ArithmeticOp::Addu => Some(a.wrapping_add(b)),
        ArithmeticOp::Sub => {
            let from = u64::from(turned(a));
            let less = u64::from(turned(b));
            if less <= from + 2147483648 && from < less + 2147483648 {
                Some(a.wrapping_sub(b))
            } else {
                None
            }
        }
        ArithmeticOp::Subu => Some(a.wrapping_sub(b)),
        ArithmeticOp::And => Some(a & b),
        ArithmeticOp::Or => Some(a | b),
        ArithmeticOp::Xor => Some(a ^ b),
        ArithmeticOp::Nor => Some(4294967295 - (a | b)),
        ArithmeticOp::Slt => Some(u32::from(turned(a) < turned(b))),
        ArithmeticOp::Sltu => Some(u32::from(a < b)),
    }
}

/// The result of an operation on a register and an immediate.
#[inline]
pub fn immediate(op: ImmediateOp, a: u32, n: Immediate) -> Option<u32>
    ensures { result ≡ spec.immediate op a n }
{
    match op {
        ImmediateOp::Addi => arithmetic(ArithmeticOp::Add, a, widened(n)),
        ImmediateOp::Addiu => arithmetic(ArithmeticOp::Addu, a, widened(n)),
        ImmediateOp::Slti => arithmetic(ArithmeticOp::Slt, a, widened(n)),
        ImmediateOp::Sltiu => arithmetic(ArithmeticOp::Sltu, a, widened(n)),
        ImmediateOp::Andi => arithmetic(ArithmeticOp::And, a, n.bits()),
        ImmediateOp::Ori => arithmetic(ArithmeticOp::Or, a, n.bits()),
        ImmediateOp::Xori => arithmetic(ArithmeticOp::Xor, a, n.bits()),
    }
}

/// A shift by the low five bits of a count.
#[inline]
pub fn shifted(op: ShiftOp, w: u32, count: u32) -> u32
    ensures { result ≡ spec.shifted op w count }
{
    let by = count % 32;
    match op {
        ShiftOp::Sll => w << by,
        ShiftOp::Srl => w >> by,
        ShiftOp::Sra => {
            if w < 2147483648 {
                w >> by
            } else {
                4294967295 - ((4294967295 - w) >> by)
            }
        }
    }
}

/// The shift of the same kind by a number.
#[inline]
pub fn by_number(op: ShiftVariableOp) -> ShiftOp
    ensures { result ≡ spec.by_number op }
{
    match op {
        ShiftVariableOp::Sllv => ShiftOp::Sll,
        ShiftVariableOp::Srlv => ShiftOp::Srl,
        ShiftVariableOp::Srav => ShiftOp::Sra,
    }
}

fn widened_word(w: u32) -> u64
    ensures { result ≡ spec.widened_word w }
{
    if w < 2147483648 {
        u64::from(w)
    } else {
        u64::from(w) + 18446744069414584320
    }
}

fn high_low(x: u64) -> (u32, u32)
    ensures { result ≡ spec.high_low x }
{
    ((x / 4294967296) as u32, (x % 4294967296) as u32)
}

fn quotients(q: Result<(u32, u32), DivFault>) -> (u32, u32)
    ensures { result ≡ spec.quotients q }
{
    match q {
        Ok(q) => (q.1, q.0),
        Err(DivFault::Zero) => (0, 0),
        Err(DivFault::Overflow) => (0, 2147483648),
    }
}

/// HI and LO after a product or a quotient.
pub fn multiply_divide(op: MultiplyDivideOp, a: u32, b: u32) -> (u32, u32)
    ensures { result ≡ spec.multiply_divide op a b }
{
    match op {
        MultiplyDivideOp::Mult => high_low(widened_word(a).wrapping_mul(widened_word(b))),
        MultiplyDivideOp::Multu => high_low(u64::from(a) * u64::from(b)),
        MultiplyDivideOp::Div => quotients(div_s(a, b)),
        MultiplyDivideOp::Divu => quotients(div_u(a, b)),
    }
}

/// Whether BLEZ or BGTZ is taken.
#[inline]
pub fn zero_comparison(op: ZeroComparisonOp, w: u32) -> bool
    ensures { result ≡ spec.zero_comparison op w }
{
    match op {
        ZeroComparisonOp::Blez => w == 0 || w >= 2147483648,
        ZeroComparisonOp::Bgtz => !(w == 0 || w >= 2147483648),
    }
}

/// Whether a branch on the sign is taken.
#[inline]
pub fn sign_test(test: SignTest, w: u32) -> bool
    ensures { result ≡ spec.sign_test test w }
{
    match test {
        SignTest::Negative => w >= 2147483648,
        SignTest::NonNegative => w < 2147483648,
    }
}

//! The values of operators on words, as a run has them, and of constant expressions in their typed form.
#![tactic(auto)]

mod constants;

ghost use Rattle.std.specs.Prelude.{◌≡◌};
ghost use Rattle.word32.specs.Words as words;
ghost use Rattle.meaning_state.specs.Operators as run;
ghost use Rattle.meaning_operators.specs.Values as spec;

pub use constants::constant_value;
use icode_ops::{BinKind, UnKind};
use word32::{div_s, div_u, sext8, sext16};

fn truth(holds: bool) -> u32
    ensures { result ≡ run.truth holds }
{
    if holds { 1 } else { 0 }
}

// A word with its sign bit turned: the order of signed views is the order of these.
fn turned(w: u32) -> u32
    ensures { result ≡ words.sign_turned w }
{
    w.wrapping_add(0x8000_0000)
}

#[tactic(auto, using(word32::proofs::WordLaws::less_turned))]
fn is_less_signed(a: u32, b: u32) -> bool
    ensures { result ≡ words.is_less_signed a b }
{
    turned(a) < turned(b)
}

fn shifted_left(w: u32, count: u32) -> u32
    ensures { result ≡ words.shifted_left w count }
{
    w << (count % 32)
}

fn shifted_right(w: u32, count: u32) -> u32
    ensures { result ≡ words.shifted_right w count }
{
    w >> (count % 32)
}

fn shifted_right_signed(w: u32, count: u32) -> u32
    ensures { result ≡ words.shifted_right_signed w count }
{
    let by = count % 32;
    if w < 2147483648 {
        w >> by
    } else {
        4294967295 - ((4294967295 - w) >> by)
    }
}

fn quotient(a: u32, b: u32) -> Option<u32>
    ensures { result ≡ spec.binary BinKind.DivideSigned a b }
{
    match div_s(a, b) {
        Ok(found) => Some(found.0),
        Err(_) => None,
    }
}

fn remainder(a: u32, b: u32) -> Option<u32>
    ensures { result ≡ spec.binary BinKind.RemainderSigned a b }
{
    match div_s(a, b) {
        Ok(found) => Some(found.1),
        Err(_) => None,
    }
}

fn unsigned_quotient(a: u32, b: u32) -> Option<u32>
    ensures { result ≡ spec.binary BinKind.DivideUnsigned a b }
{
    if b == 0 { None } else { Some(a / b) }
}

fn unsigned_remainder(a: u32, b: u32) -> Option<u32>
    ensures { result ≡ spec.binary BinKind.RemainderUnsigned a b }
{
    if b == 0 { None } else { Some(a % b) }
}

/// The value of an operator on two words; none where a division would trap.
pub fn binary_value(kind: BinKind, a: u32, b: u32) -> Option<u32>
    ensures { result ≡ spec.binary kind a b }
{
    match kind {
        BinKind::DivideSigned => quotient(a, b),
        BinKind::DivideUnsigned => unsigned_quotient(a, b),
        BinKind::RemainderSigned => remainder(a, b),
        BinKind::RemainderUnsigned => unsigned_remainder(a, b),
        BinKind::Add => Some(a.wrapping_add(b)),
        BinKind::Subtract => Some(a.wrapping_sub(b)),
        BinKind::Multiply => Some(a.wrapping_mul(b)),
        BinKind::And => Some(a & b),
        BinKind::Or => Some(a | b),
        BinKind::Xor => Some(a ^ b),
        BinKind::ShiftLeft => Some(shifted_left(a, b)),
        BinKind::ShiftRightSigned => Some(shifted_right_signed(a, b)),
        BinKind::ShiftRightUnsigned => Some(shifted_right(a, b)),
        BinKind::Equal => Some(truth(a == b)),
        BinKind::NotEqual => Some(truth(a != b)),
        BinKind::LessSigned => Some(truth(is_less_signed(a, b))),
        BinKind::LessUnsigned => Some(truth(a < b)),
        BinKind::LessOrEqualSigned => Some(truth(!is_less_signed(b, a))),
        BinKind::LessOrEqualUnsigned => Some(truth(a <= b)),
        BinKind::GreaterSigned => Some(truth(is_less_signed(b, a))),
        BinKind::GreaterUnsigned => Some(truth(b < a)),
        BinKind::GreaterOrEqualSigned => Some(truth(!is_less_signed(a, b))),
        BinKind::GreaterOrEqualUnsigned => Some(truth(a >= b)),
    }
}

/// The value of an operator on one word, conversions to narrow types among them.
pub fn unary_value(kind: UnKind, a: u32) -> u32
    ensures { result ≡ run.un_value kind a }
{
    match kind {
        UnKind::Negate => 0u32.wrapping_sub(a),
        UnKind::Complement => 4294967295 - a,
        UnKind::IsZero => truth(a == 0),
        UnKind::SignedByte => sext8(a),
        UnKind::Byte => a % 256,
        UnKind::SignedHalf => sext16(a),
        UnKind::Half => a % 65536,
    }
}

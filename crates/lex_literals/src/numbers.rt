//! Number tokens and digits.

ghost use Rattle.std.specs.Prelude.{◌≡◌, ◌+◌, ◌<◌, ◌≤◌, length, drop, slice_index, true, IfSome, IfNone};
ghost use Rattle.std.specs.Char.{is_ascii_digit};
ghost use Rattle.lex_literals.specs.Literals as spec;

use crate::byte_at;

/// How digits are read.
#[derive(Clone, Copy)]
pub(crate) enum Base {
    Octal,
    Decimal,
    Hexadecimal,
}

/// A number token.
#[derive(Clone, Copy, PartialEq, Eq)]
pub struct Numeral {
    /// Its length in bytes, with the suffix.
    pub len: usize,
    /// Its value; none over 4,294,967,295.
    pub value: Option<u32>,
    /// Whether its type is unsigned and not int: by its suffix, or by a value over 2,147,483,647.
    pub unsigned: bool,
}

fn radix(base: Base) -> u64
    ensures value { result ≡ spec.radix base }
    ensures low { 1 ≤ result }
    ensures high { result ≤ 16 }
{
    match base {
        Base::Octal => 8,
        Base::Decimal => 10,
        Base::Hexadecimal => 16,
    }
}

pub(crate) fn is_digit(base: Base, b: u8) -> bool
    ensures { result ≡ spec.is_digit base b }
{
    match base {
        Base::Octal => b'0' <= b && b <= b'7',
        Base::Decimal => b.is_ascii_digit(),
        Base::Hexadecimal => b.is_ascii_hexdigit(),
    }
}

// How many digits stand at the front of a text.
pub(crate) fn digit_count(base: Base, text: &[u8]) -> usize
    ensures value { result ≡ spec.digit_count base text.now }
    ensures within { result ≤ length text.now }
    ensures some { 0 < length text.now → spec.is_digit base (slice_index text.now 0) ≡ true → 0 < result }
{
    let mut count = 0;
    while count < text.len() && is_digit(base, text[count]) {
        count += 1;
    }
    count
}

fn digit_value(b: u8) -> u8
    ensures { result ≡ spec.digit_value b }
{
    if b <= b'9' {
        b.saturating_sub(b'0')
    } else if b <= b'F' {
        b.saturating_sub(55)
    } else {
        b.saturating_sub(87)
    }
}

// The number that digits spell, or none where it is over 4,294,967,295.
#[tactic(auto, using(crate::proofs::Laws::value_of_grows))]
pub(crate) fn number(base: Base, digits: &[u8]) -> Option<u32>
    ensures found { IfSome result (λ n. n ≡ spec.value_of (spec.radix base) 0 digits.now) }
    ensures none { IfNone result (4294967295 < spec.value_of (spec.radix base) 0 digits.now) }
{
    let radix = radix(base);
    let mut n = 0;
    for b in digits {
        n = n * radix + u64::from(digit_value(*b));
        if 4294967295 < n {
            return None;
        }
    }
    Some(n as u32)
}

// A number whose digits begin at the place `from`.
fn written(base: Base, from: usize, text: &[u8]) -> Numeral
    requires { from ≤ length text.now }
    ensures value { result ≡ spec.written base from text.now }
    ensures within { (from ≤ result.len) × (result.len ≤ length text.now) }
    ensures some { 0 < length text.now → from ≡ 0 → spec.is_digit base (slice_index text.now 0) ≡ true →
        0 < result.len }
{
    let end = from + digit_count(base, &text[from..]);
    let value = number(base, &text[from..end]);
    let next = byte_at(text, end);
    let suffix = next == b'u' || next == b'U';
    Numeral {
        len: if suffix { end + 1 } else { end },
        value,
        unsigned: suffix || value.is_none_or(|n| 2147483647 < n),
    }
}

fn is_hexadecimal(text: &[u8]) -> bool
    ensures value { result ≡ spec.is_hexadecimal text.now }
    ensures within { result ≡ true → 2 < length text.now }
{
    let x = byte_at(text, 1);
    byte_at(text, 0) == b'0' && (x == b'x' || x == b'X') && byte_at(text, 2).is_ascii_hexdigit()
}

/// The number at the front of a text that begins with a digit.
#[tactic(auto, unfolding(crate::specs::Literals::numeral_at))]
pub fn numeral_at(text: &[u8]) -> Numeral
    ensures value { result ≡ spec.numeral_at text.now }
    ensures within { result.len ≤ length text.now }
    ensures some { 0 < length text.now → is_ascii_digit (slice_index text.now 0) ≡ true → 0 < result.len }
{
    if is_hexadecimal(text) {
        written(Base::Hexadecimal, 2, text)
    } else if byte_at(text, 0) == b'0' {
        written(Base::Octal, 0, text)
    } else {
        written(Base::Decimal, 0, text)
    }
}

//! Numbers, and the fields that they fit.

ghost use Rattle.std.specs.Prelude.{
  ◌≡◌,
  ◌+◌,
  ◌<◌,
  ◌≤◌,
  length,
  drop,
  true,
  IfSome,
  IfNone,
};
ghost use Rattle.std.specs.List.{list_all};
ghost use Rattle.asm_words.specs.Numbers as spec;

use mips_encoder::Immediate;

/// How digits are read.
#[derive(Clone, Copy, PartialEq, Eq)]
pub enum Base {
    /// `0` to `9`.
    Decimal,
    /// `0` to `9`, and `a` to `f` in either case.
    Hexadecimal,
}

/// What a word of the form of a number says.
#[derive(Clone, Copy, PartialEq, Eq)]
pub struct Number {
    /// Whether a minus sign stands before it.
    pub negative: bool,
    /// The number without its sign; none over 4,294,967,295, which fits no field.
    pub magnitude: Option<u32>,
}

impl Base {
    fn radix(self) -> u64
        ensures value { result ≡ spec.radix self }
        ensures low { 1 ≤ result }
        ensures high { result ≤ 16 }
    {
        match self {
            Base::Decimal => 10,
            Base::Hexadecimal => 16,
        }
    }
}

fn is_digit(base: Base, b: u8) -> bool
    ensures { result ≡ spec.is_digit base b }
{
    match base {
        Base::Decimal => b.is_ascii_digit(),
        Base::Hexadecimal => b.is_ascii_hexdigit(),
    }
}

pub(crate) fn digit_value(b: u8) -> u8
    ensures { result ≡ spec.digit_value b }
{
    if b <= b'9' {
        b.saturating_sub(b'0')
    } else if b <= b'F' {
        b.saturating_sub(55)
    } else {
        b.saturating_sub(87)
    }
}

fn all_digits(base: Base, digits: &[u8]) -> bool
    ensures { result ≡ list_all (spec.is_digit base) digits.now }
{
    for b in digits {
        if !is_digit(base, *b) {
            return false;
        }
    }
    true
}

pub(crate) fn are_digits(base: Base, digits: &[u8]) -> bool
    ensures { result ≡ spec.are_digits base digits.now }
{
    !digits.is_empty() && all_digits(base, digits)
}

// The number that digits spell, or none where it is over 4,294,967,295.
#[tactic(auto, using(crate::proofs::Laws::value_of_grows))]
fn value(base: Base, digits: &[u8]) -> Option<u32>
    ensures found { IfSome result (λ n. n ≡ spec.value_of (spec.radix base) 0 digits.now) }
    ensures none { IfNone result (4294967295 < spec.value_of (spec.radix base) 0 digits.now) }
{
    let radix = base.radix();
    let mut n = 0;
    for b in digits {
        n = n * radix + u64::from(digit_value(*b));
        if 4294967295 < n {
            return None;
        }
    }
    Some(n as u32)
}

fn number_in(negative: bool, base: Base, digits: &[u8]) -> Option<Number>
    ensures { result ≡ spec.number_in negative base digits.now }
{
    if !are_digits(base, digits) {
        return None;
    }
    Some(Number {
        negative,
        magnitude: value(base, digits),
    })
}

/// The number that a word is: decimal digits with an optional minus sign, or `0x` and hexadecimal digits, of any
/// length. None exactly where the word has another form.
#[tactic(auto, unfolding(crate::specs::Numbers::number_of))]
pub fn number_of(word: &[u8]) -> Option<Number>
    ensures { result ≡ spec.number_of word.now }
{
    match word {
        [b'-', digits @ ..] => number_in(true, Base::Decimal, digits),
        [b'0', b'x', digits @ ..] => number_in(false, Base::Hexadecimal, digits),
        _ => number_in(false, Base::Decimal, word),
    }
}

impl Number {
    /// The number as a word without a sign, or none where it is negative or over 4,294,967,295. A 0 with a minus sign
    /// is 0.
    pub fn unsigned(self) -> Option<u32>
        ensures { result ≡ spec.unsigned self }
    {
        match self.magnitude {
            Some(magnitude) if !(self.negative && magnitude != 0) => Some(magnitude),
            _ => None,
        }
    }

    /// The number as 16 bits with a sign, or none where it is not from -32,768 to 32,767.
    pub fn signed_half(self) -> Option<Immediate>
        ensures { result ≡ spec.signed_half self }
    {
        let magnitude = self.magnitude?;
        if self.negative && magnitude != 0 {
            if magnitude <= 32768 {
                Some(Immediate::new(65536 - magnitude))
            } else {
                None
            }
        } else if magnitude < 32768 {
            Some(Immediate::new(magnitude))
        } else {
            None
        }
    }
}

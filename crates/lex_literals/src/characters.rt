//! Characters and escapes inside literals.

ghost use Rattle.std.specs.Prelude.{◌≡◌, ◌+◌, ◌<◌, ◌≤◌, length, drop, min, slice_index, IfSome};
ghost use Rattle.lex_literals.specs.Literals as spec;

use crate::byte_at;
use crate::numbers::{Base, digit_count, is_digit, number};

/// A character of a literal.
#[derive(Clone, Copy)]
pub struct Character {
    /// Its length in bytes, the `\` of an escape with it.
    pub len: usize,
    /// The byte that it stands for.
    pub value: u8,
}

// The value of the escape of one letter or sign.
fn simple_escape(b: u8) -> Option<u8>
    ensures { result ≡ spec.simple_escape b }
{
    let value = match b {
        b'n' => b'\n',
        b't' => b'\t',
        b'r' => b'\r',
        b'a' => 7,
        b'b' => 8,
        b'f' => 12,
        b'v' => 11,
        b'\\' | b'\'' | b'"' | b'?' => b,
        _ => return None,
    };
    Some(value)
}

// An escape of so many digits from the place `from` on.
fn numbered(base: Base, from: usize, count: usize, text: &[u8]) -> Option<Character>
    requires { from + count ≤ length text.now }
    ensures value { result ≡ spec.numbered base from count text.now }
    ensures within { IfSome result (λ c. (1 ≤ c.len) × (c.len ≤ length text.now)) }
{
    if count == 0 {
        return None;
    }
    match number(base, &text[from..from + count]) {
        Some(n) if n <= 255 => Some(Character {
            len: from + count,
            value: n as u8,
        }),
        _ => None,
    }
}

// The escape that follows a `\`.
#[tactic(auto, unfolding(crate::specs::Literals::escape))]
fn escape(text: &[u8]) -> Option<Character>
    ensures value { result ≡ spec.escape text.now }
    ensures within { IfSome result (λ c. (1 ≤ c.len) × (c.len ≤ length text.now)) }
{
    let b = byte_at(text, 0);
    if b == b'x' {
        let count = digit_count(Base::Hexadecimal, &text[1..]).min(2);
        return numbered(Base::Hexadecimal, 1, count, text);
    }
    if is_digit(Base::Octal, b) {
        let count = digit_count(Base::Octal, text).min(3);
        return numbered(Base::Octal, 0, count, text);
    }
    match simple_escape(b) {
        Some(value) => Some(Character { len: 1, value }),
        None => None,
    }
}

/// The character at the front of a text inside a literal; none where a `\` begins no escape.
#[tactic(auto, unfolding(crate::specs::Literals::character_at))]
pub fn character_at(text: &[u8]) -> Option<Character>
    ensures value { result ≡ spec.character_at text.now }
    ensures within { 0 < length text.now → IfSome result (λ c. (1 ≤ c.len) × (c.len ≤ length text.now)) }
{
    let b = byte_at(text, 0);
    if b != b'\\' {
        return Some(Character { len: 1, value: b });
    }
    match escape(&text[1..]) {
        Some(c) => Some(Character {
            len: c.len + 1,
            value: c.value,
        }),
        None => None,
    }
}

// The word of a byte as a signed char.
fn signed_word(b: u8) -> u32
    ensures { result ≡ spec.signed_word b }
{
    if b < 128 {
        u32::from(b)
    } else {
        u32::from(b) + 4294967040
    }
}

/// The value, as a word, of the character literal whose text behind its opening quote this is: its byte as a signed
/// char.
#[tactic(auto, unfolding(crate::specs::Literals::character_value))]
pub fn character_value(text: &[u8]) -> u32
    ensures { result ≡ spec.character_value text.now }
{
    match character_at(text) {
        Some(c) => signed_word(c.value),
        None => 0,
    }
}

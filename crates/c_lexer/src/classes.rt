//! Classes of bytes.

ghost use Rattle.std.specs.Prelude.{◌≡◌, ◌<◌, ◌≤◌, length, slice_index, true};
ghost use Rattle.c_lexer.specs.Lex as spec;

/// A class of bytes.
#[derive(Clone, Copy)]
pub(crate) enum Class {
    /// A space, or one of the bytes 9 to 13.
    Blank,
    /// What begins a name.
    Letter,
    /// What a name goes on with.
    Name,
    /// What a line has before its line feed.
    Line,
}

pub(crate) fn is_in(class: Class, b: u8) -> bool
    ensures { result ≡ spec.is_in class b }
{
    match class {
        Class::Blank => b == b' ' || (9 <= b && b <= 13),
        Class::Letter => b.is_ascii_alphabetic() || b == b'_',
        Class::Name => b.is_ascii_lowercase() || b.is_ascii_alphanumeric() || b == b'_',
        Class::Line => !(b == b'\n'),
    }
}

// The first place from `at` on whose byte is not of the class.
pub(crate) fn past(class: Class, text: &[u8], at: usize) -> usize
    requires { at ≤ length text.now }
    ensures value { result ≡ spec.past class text.now at }
    ensures within { (at ≤ result) × (result ≤ length text.now) }
    ensures moves { at < length text.now → spec.is_in class (slice_index text.now at) ≡ true → at < result }
{
    let mut end = at;
    while end < text.len() && is_in(class, text[end]) {
        end += 1;
    }
    end
}

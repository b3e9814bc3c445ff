//! The piece at the front of a text.

ghost use Rattle.std.specs.Prelude.{◌≡◌, ◌≢◌, ◌+◌, ◌^◌, ◌<◌, ◌≤◌, length, drop, slice_index, true, IfSome};
ghost use Rattle.std.specs.Char.{is_ascii_digit};
ghost use Rattle.lex_words.specs.Words.{spelling};
ghost use Rattle.lex_literals.specs.Literals.{Ends, numeral_at};
ghost use Rattle.c_lexer.specs.Lex as spec;
ghost use Rattle.c_lexer.specs.declared.classes.Class.TheVariants as class;

use crate::byte_at;
use crate::classes::{Class, is_in, past};
use lex_literals::{Closing, closing_of, numeral_at};
use lex_words::{Sign, keyword_of, sign_at};
use tick_tree::{FaultKind, TokenKind};

/// What stands at a place.
#[derive(Clone, Copy)]
pub(crate) enum Piece {
    /// Blanks or a comment, of so many bytes.
    Gap(usize),
    /// A token of this kind and length.
    Taken(TokenKind, usize),
    /// A fault.
    Bad(FaultKind),
}

// A keyword or a name.
fn word(text: &[u8]) -> Piece
    requires some { 0 < length text.now }
    requires letter { spec.is_in class.Letter (slice_index text.now 0) ≡ true }
    ensures value { result ≡ spec.word text.now }
    ensures within { spec.Within (length text.now) result }
    ensures flat { spec.Flat text.now result }
{
    let end = past(Class::Name, text, 0);
    let kind = if keyword_of(&text[..end]).is_some() {
        TokenKind::Keyword
    } else {
        TokenKind::Name
    };
    Piece::Taken(kind, end)
}

// The length of a number, unless it is too large. It stands alone, so that other tokens make no room for a numeral.
#[inline(never)]
fn number_len(text: &[u8]) -> Option<usize>
    requires some { 0 < length text.now }
    requires digit { is_ascii_digit (slice_index text.now 0) ≡ true }
    ensures value { spec.number (numeral_at text.now) ≡ spec.number_by result }
    ensures within { IfSome result (λ n. (1 ≤ n) × (n ≤ length text.now)) }
{
    let numeral = numeral_at(text);
    if numeral.value.is_some() {
        Some(numeral.len)
    } else {
        None
    }
}

// A number, by its length.
fn number(len: Option<usize>) -> Piece
    ensures { result ≡ spec.number_by len }
{
    match len {
        Some(n) => Piece::Taken(TokenKind::Number, n),
        None => Piece::Bad(FaultKind::BigLiteral),
    }
}

// A string, by how it ends behind its quote.
fn string(closing: Closing) -> Piece
    requires { Ends (2 ^ 62) closing }
    ensures { result ≡ spec.string closing }
{
    match closing {
        Closing::Closed(end, _) => Piece::Taken(TokenKind::String, end + 1),
        Closing::Open => Piece::Bad(FaultKind::OpenLiteral),
        Closing::Wrong(_) => Piece::Bad(FaultKind::BadEscape),
    }
}

// A character literal, by how it ends behind its quote.
fn character(closing: Closing) -> Piece
    requires { Ends (2 ^ 62) closing }
    ensures { result ≡ spec.character closing }
{
    match closing {
        Closing::Closed(end, 1) => Piece::Taken(TokenKind::Character, end + 1),
        Closing::Wrong(0) => Piece::Bad(FaultKind::BadEscape),
        Closing::Closed(_, _) | Closing::Open | Closing::Wrong(_) => Piece::Bad(
            FaultKind::OpenLiteral,
        ),
    }
}

// The length of the rest of a comment, up to and with `*/`.
fn comment_len(text: &[u8]) -> Option<usize>
    ensures value { result ≡ spec.comment_len text.now }
    ensures within { IfSome result (λ n. n ≤ length text.now) }
{
    for (at, b) in text.iter().enumerate() {
        if *b == b'*' && byte_at(text, at + 1) == b'/' {
            return Some(at + 2);
        }
    }
    None
}

// A comment, by the length of what follows its `/*`.
fn comment(len: Option<usize>) -> Piece
    requires { IfSome len (λ n. n < 2 ^ 62) }
    ensures { result ≡ spec.comment len }
{
    match len {
        None => Piece::Bad(FaultKind::OpenComment),
        Some(n) => Piece::Gap(2 + n),
    }
}

fn sign(sign: Option<Sign>) -> Piece
    ensures { result ≡ spec.sign sign }
{
    match sign {
        None => Piece::Bad(FaultKind::BadByte),
        Some(sign) => Piece::Taken(TokenKind::Sign, sign.spelling().len()),
    }
}

/// What stands at the front of a text.
#[tactic(auto, unfolding(crate::specs::Lex::piece))]
pub(crate) fn piece_of(text: &[u8]) -> Piece
    requires some { 0 < length text.now }
    requires small { length text.now < 2 ^ 62 }
    ensures value { result ≡ spec.piece text.now }
    ensures within { spec.Within (length text.now) result }
    ensures flat { spec.Flat text.now result }
{
    let b = byte_at(text, 0);
    let next = byte_at(text, 1);
    if is_in(Class::Blank, b) {
        Piece::Gap(past(Class::Blank, text, 1))
    } else if is_in(Class::Letter, b) {
        word(text)
    } else if b.is_ascii_digit() {
        number(number_len(text))
    } else if b == b'\'' {
        character(closing_of(b'\'', &text[1..]))
    } else if b == b'"' {
        string(closing_of(b'"', &text[1..]))
    } else if b == b'/' && next == b'/' {
        Piece::Gap(past(Class::Line, text, 2))
    } else if b == b'/' && next == b'*' {
        comment(comment_len(&text[2..]))
    } else {
        sign(sign_at(text))
    }
}

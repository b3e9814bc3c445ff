//! The words and marks of a line.

ghost use Rattle.std.specs.Prelude.{◌≡◌, ◌≤◌, length, take, drop, IfOk};
ghost use Rattle.std.specs.List.{prefix_len};
ghost use Rattle.asm_lines.specs.Pieces as spec;

use crate::word::Word;
use std::alloc::{AllocError, Global};

/// A word or a mark.
#[derive(Drop)]
pub enum Piece<'a> {
    /// A word.
    Word(Word<'a>),
    /// `,`, between operands.
    Comma,
    /// `:`, behind a label.
    Colon,
    /// `(`, before a base register.
    Open,
    /// `)`, behind a base register.
    Close,
}

/// What a byte is.
#[derive(Drop)]
pub enum Class<'a> {
    /// A byte between words.
    Blank,
    /// The first byte of a comment.
    Comment,
    /// A mark.
    Mark(Piece<'a>),
    /// A byte of a word.
    Part,
}

impl<'a> Piece<'a> {
    /// The word that this is, or None at a mark.
    pub fn word(&self) -> Option<Word<'a>>
        ensures { result ≡ spec.word_in self.now }
    {
        match self {
            Piece::Word(word) => Some(word.copied()),
            _ => None,
        }
    }

    /// Whether this is a comma.
    pub fn is_comma(&self) -> bool
        ensures { result ≡ spec.is_comma self.now }
    {
        matches!(self, Piece::Comma)
    }

    /// Whether this is a colon.
    pub fn is_colon(&self) -> bool
        ensures { result ≡ spec.is_colon self.now }
    {
        matches!(self, Piece::Colon)
    }

    /// Whether this is an opening parenthesis.
    pub fn is_open(&self) -> bool
        ensures { result ≡ spec.is_open self.now }
    {
        matches!(self, Piece::Open)
    }

    /// Whether this is a closing parenthesis.
    pub fn is_close(&self) -> bool
        ensures { result ≡ spec.is_close self.now }
    {
        matches!(self, Piece::Close)
    }
}

fn class_of<'a>(b: u8) -> Class<'a>
    ensures { result ≡ spec.class_of b }
{
    match b {
        b' ' | b'\t' | b'\r' => Class::Blank,
        b'#' => Class::Comment,
        b',' => Class::Mark(Piece::Comma),
        b':' => Class::Mark(Piece::Colon),
        b'(' => Class::Mark(Piece::Open),
        b')' => Class::Mark(Piece::Close),
        _ => Class::Part,
    }
}

fn is_part(b: u8) -> bool
    ensures { result ≡ spec.is_part b }
{
    matches!(class_of(b), Class::Part)
}

// How many bytes of a word a line begins with.
fn word_len(line: &[u8]) -> usize
    ensures value { result ≡ prefix_len spec.is_part line.now }
    ensures within { result ≤ length line.now }
{
    let mut len = 0;
    for b in line {
        if !is_part(*b) {
            return len;
        }
        len += 1;
    }
    len
}

/// The words and marks of a line, in their order, without its blanks and its comment.
///
/// # Errors
/// Where memory is wanting.
#[tactic(auto, unfolding(crate::specs::Pieces::pieces))]
pub fn pieces<'a>(alloc: Global, line: &'a [u8]) -> Result<Vec<Piece<'a>>, AllocError>
    ensures { IfOk result (λ found. found.items ≡ spec.pieces line.now) }
{
    let mut found = Vec::new(alloc);
    let mut rest = line;
    while let [first, more @ ..] = rest {
        match class_of(*first) {
            Class::Blank => rest = more,
            Class::Comment => return Ok(found),
            Class::Mark(mark) => {
                found.push(mark)?;
                rest = more;
            }
            Class::Part => {
                let len = word_len(rest);
                found.push(Piece::Word(Word::new(&rest[..len])))?;
                rest = &rest[len..];
            }
        }
    }
    Ok(found)
}

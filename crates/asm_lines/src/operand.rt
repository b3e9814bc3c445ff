//! Operands, as they are written.

ghost use Rattle.std.specs.Prelude.{◌≡◌};
ghost use Rattle.asm_lines.specs.Operands as spec;

use crate::piece::Piece;
use crate::word::Word;
use asm_words::{Number, is_name, number_of};

/// The operands of an instruction, by the marks between them.
#[derive(Drop)]
pub enum Operands<'a> {
    /// No operand.
    Nothing,
    /// One operand.
    One(Word<'a>),
    /// Two operands, with a comma between them.
    Two(Word<'a>, Word<'a>),
    /// Three operands, with commas between them.
    Three(Word<'a>, Word<'a>, Word<'a>),
    /// An operand, and behind a comma a second one with a third in parentheses.
    Based(Word<'a>, Word<'a>, Word<'a>),
}

/// Where a jump or a branch goes, or an entry or a function stands.
#[derive(Drop)]
pub enum Target<'a> {
    /// A number: the address in bytes, or for a branch the offset in words.
    Number(Number),
    /// The address of a label, by its name.
    Label(Word<'a>),
}

fn two<'a>(a: &Piece<'a>, comma: &Piece<'a>, b: &Piece<'a>) -> Option<Operands<'a>>
    ensures { result ≡ spec.two a.now comma.now b.now }
{
    let first = a.word()?;
    let second = b.word()?;
    if comma.is_comma() {
        Some(Operands::Two(first, second))
    } else {
        None
    }
}

fn three<'a>(
    a: &Piece<'a>,
    comma: &Piece<'a>,
    b: &Piece<'a>,
    next_comma: &Piece<'a>,
    c: &Piece<'a>,
) -> Option<Operands<'a>>
    ensures { result ≡ spec.three a.now comma.now b.now next_comma.now c.now }
{
    let first = a.word()?;
    let second = b.word()?;
    let third = c.word()?;
    if comma.is_comma() && next_comma.is_comma() {
        Some(Operands::Three(first, second, third))
    } else {
        None
    }
}

fn based<'a>(
    a: &Piece<'a>,
    comma: &Piece<'a>,
    b: &Piece<'a>,
    opening: &Piece<'a>,
    c: &Piece<'a>,
    closing: &Piece<'a>,
) -> Option<Operands<'a>>
    ensures { result ≡ spec.based a.now comma.now b.now opening.now c.now closing.now }
{
    let first = a.word()?;
    let second = b.word()?;
    let third = c.word()?;
    if comma.is_comma() && opening.is_open() && closing.is_close() {
        Some(Operands::Based(first, second, third))
    } else {
        None
    }
}

/// The operands that words and marks are, or None where the marks stand otherwise.
pub fn operands_of<'a>(pieces: &[Piece<'a>]) -> Option<Operands<'a>>
    ensures { result ≡ spec.operands_of pieces.now }
{
    match pieces {
        [] => Some(Operands::Nothing),
        [a] => Some(Operands::One(a.word()?)),
        [a, m, b] => two(a, m, b),
        [a, m, b, n, c] => three(a, m, b, n, c),
        [a, m, b, n, c, k] => based(a, m, b, n, c, k),
        _ => None,
    }
}

/// The target that a word is: a number, or the name of a label. None where it is neither.
pub fn target_of<'a>(word: &Word<'a>) -> Option<Target<'a>>
    ensures { result ≡ spec.target_of word.now }
{
    match number_of(word.bytes()) {
        Some(number) => Some(Target::Number(number)),
        None if is_name(word.bytes()) => Some(Target::Label(word.copied())),
        None => None,
    }
}

//! Lines.

ghost use Rattle.std.specs.Prelude.{◌≡◌, IfOk, length};
ghost use Rattle.asm_lines.specs.Lines as spec;

use crate::draft::{Draft, drafted};
use crate::operand::{Target, operands_of, target_of};
use crate::piece::{Piece, pieces};
use crate::word::Word;
use asm_words::{Number, Operation, Pairs, is_name, number_of, operation_of};
use std::alloc::{AllocError, Global};

/// What a line says beside its label.
#[derive(Drop)]
pub enum Statement<'a> {
    /// Nothing: the line is empty, or a label or a comment alone.
    Nothing,
    /// `.entry A`: the program is entered at A.
    Entry(Target<'a>),
    /// `.fn A COUNT`: a function at A with so many arguments.
    Function(Target<'a>, Number),
    /// `.data HEX`: bytes of data.
    Data(Pairs<'a>),
    /// `.word N`: a word of the text.
    Word(Number),
    /// An instruction: a word of the text.
    Instruction(Draft<'a>),
}

/// A line of the right form.
#[derive(Drop)]
pub struct Line<'a> {
    /// The name of its label.
    pub label: Option<Word<'a>>,
    /// What it says.
    pub statement: Statement<'a>,
}

fn entry<'a>(pieces: &[Piece<'a>]) -> Option<Statement<'a>>
    ensures { result ≡ spec.entry pieces.now }
{
    let [address] = pieces else {
        return None;
    };
    Some(Statement::Entry(target_of(&address.word()?)?))
}

fn function<'a>(pieces: &[Piece<'a>]) -> Option<Statement<'a>>
    ensures { result ≡ spec.function pieces.now }
{
    let [address, count] = pieces else {
        return None;
    };
    let address = address.word()?;
    let count = count.word()?;
    let target = target_of(&address)?;
    Some(Statement::Function(target, number_of(count.bytes())?))
}

fn data_bytes<'a>(pieces: &[Piece<'a>]) -> Option<Statement<'a>>
    ensures { result ≡ spec.data_bytes pieces.now }
{
    let [digits] = pieces else {
        return None;
    };
    let digits = digits.word()?;
    Some(Statement::Data(Pairs::of(digits.bytes())?))
}

fn plain_word<'a>(pieces: &[Piece<'a>]) -> Option<Statement<'a>>
    ensures { result ≡ spec.plain_word pieces.now }
{
    let [number] = pieces else {
        return None;
    };
    let number = number.word()?;
    Some(Statement::Word(number_of(number.bytes())?))
}

fn instruction<'a>(operation: Option<Operation>, pieces: &[Piece<'a>]) -> Option<Statement<'a>>
    ensures { result ≡ spec.instruction operation pieces.now }
{
    let operands = operands_of(pieces)?;
    Some(Statement::Instruction(drafted(operation?, &operands)?))
}

fn statement_by<'a>(word: &[u8], pieces: &[Piece<'a>]) -> Option<Statement<'a>>
    ensures { result ≡ spec.statement_by word.now pieces.now }
{
    if word == ".entry".as_bytes() {
        entry(pieces)
    } else if word == ".fn".as_bytes() {
        function(pieces)
    } else if word == ".data".as_bytes() {
        data_bytes(pieces)
    } else if word == ".word".as_bytes() {
        plain_word(pieces)
    } else {
        instruction(operation_of(word), pieces)
    }
}

#[tactic(auto, unfolding(crate::specs::Lines::statement_of))]
fn statement_of<'a>(pieces: &[Piece<'a>]) -> Option<Statement<'a>>
    ensures { result ≡ spec.statement_of pieces.now }
{
    let [first, rest @ ..] = pieces else {
        return Some(Statement::Nothing);
    };
    let word = first.word()?;
    statement_by(word.bytes(), rest)
}

fn labelled<'a>(name: &Piece<'a>, pieces: &[Piece<'a>]) -> Option<Line<'a>>
    ensures { result ≡ spec.labelled name.now pieces.now }
{
    let name = name.word()?;
    let statement = statement_of(pieces)?;
    if is_name(name.bytes()) {
        Some(Line {
            label: Some(name),
            statement,
        })
    } else {
        None
    }
}

fn line_in<'a>(pieces: &[Piece<'a>]) -> Option<Line<'a>>
    ensures { result ≡ spec.line_in pieces.now }
{
    match pieces {
        [name, colon, rest @ ..] if colon.is_colon() => labelled(name, rest),
        _ => Some(Line {
            label: None,
            statement: statement_of(pieces)?,
        }),
    }
}

/// What a line says, or None where it has another form. The line has no line feed.
///
/// # Errors
/// Where memory is wanting.
#[tactic(auto, unfolding(crate::specs::Lines::line_of))]
pub fn line_of<'a>(alloc: Global, line: &'a [u8]) -> Result<Option<Line<'a>>, AllocError>
    ensures line { IfOk result (λ found. found ≡ spec.line_of line.now) }
    ensures digits { IfOk result (spec.HasDigits (length line.now)) }
{
    let pieces = pieces(alloc, line)?;
    Ok(line_in(&pieces))
}

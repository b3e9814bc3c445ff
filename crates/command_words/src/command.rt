//! The commands, each with its operands.
ghost use Rattle.std.specs.Prelude.{◌≡◌, ℕ, List, ◌+◌, ◌<◌, ◌^◌, Ok, Err, map, length, Some, ◌≤◌, IfOk, MatchResult};
ghost use Rattle.std.specs.Prelude.{string_bytes};
ghost use Rattle.command_words.specs.Orders as spec;

use crate::arguments::{Given, Operands, Wanted, arguments, number_of};
use limits::text::LARGEST_SOURCE;

/// A command, with its operands.
#[derive(Clone, Copy, Drop)]
pub enum Command<'a> {
    /// `run FILE`: builds the text of the file and runs its image on the input, for at most so many instructions.
    Run(&'a str, u64),
    /// `build FILE IMAGE`: builds the text of the file and saves its image.
    Build(&'a str, &'a str),
    /// `exec IMAGE`: runs a saved image on the input, for at most so many instructions.
    Exec(&'a str, u64),
    /// `mean FILE`: evaluates the text of the file on the input, for at most so many units of work.
    Mean(&'a str, u64),
    /// `asm FILE IMAGE`: assembles the text of the file and saves the image.
    Asm(&'a str, &'a str),
    /// `dis IMAGE`: writes the assembly text of a saved image.
    Dis(&'a str),
    /// `gen NUMBER`: writes the generated source with this number.
    Gen(u32),
}

fn wanted(operands: u32, steps: bool, counts: bool) -> Wanted
    ensures { result ≡ spec.wanted operands steps counts }
{
    Wanted {
        operands,
        steps,
        number: false,
        stats: counts,
    }
}

// The operand and the number of steps of `run` and `exec`, which may ask for counts, and of `mean`.
fn stepped(words: &[String], counts: bool) -> Result<(&str, u64), u64>
    requires { length words.now < 2 ^ 60 }
    ensures given { MatchResult result
        (λ a. (order : List ℕ → ℕ → spec.Order) →
        spec.stepped counts order (2 + length words.now) (map string_bytes words.now) ≡
        Ok (spec.of_file (order a.0.now a.1)))
        (λ place. (order : List ℕ → ℕ → spec.Order) →
        spec.stepped counts order (2 + length words.now) (map string_bytes words.now) ≡ Err place) }
    ensures steps { IfOk result (λ a. a.1 ≤ 2 ^ 40) }
{
    let given = arguments(wanted(1, true, counts), 2, words)?;
    match given.operands {
        Operands::One(operand) => Ok((operand, given.steps)),
        _ => Err(2 + words.len() as u64),
    }
}

// The operand of `dis`.
fn single(words: &[String]) -> Result<&str, u64>
    requires { length words.now < 2 ^ 60 }
    ensures { MatchResult result
        (λ a. (order : List ℕ → spec.Order) →
        spec.single order (2 + length words.now) (map string_bytes words.now) ≡ Ok (spec.of_file (order a.now)))
        (λ place. (order : List ℕ → spec.Order) →
        spec.single order (2 + length words.now) (map string_bytes words.now) ≡ Err place) }
{
    let given = arguments(wanted(1, false, false), 2, words)?;
    match given.operands {
        Operands::One(operand) => Ok(operand),
        _ => Err(2 + words.len() as u64),
    }
}

// The operands of `build` and `asm`.
fn double(words: &[String]) -> Result<(&str, &str), u64>
    requires { length words.now < 2 ^ 60 }
    ensures { MatchResult result
        (λ a. (order : List ℕ → List ℕ → spec.Order) →
        spec.double order (2 + length words.now) (map string_bytes words.now) ≡
        Ok (spec.of_file (order a.0.now a.1.now)))
        (λ place. (order : List ℕ → List ℕ → spec.Order) →
        spec.double order (2 + length words.now) (map string_bytes words.now) ≡ Err place) }
{
    let given = arguments(wanted(2, false, false), 2, words)?;
    match given.operands {
        Operands::Two(first, second) => Ok((first, second)),
        _ => Err(2 + words.len() as u64),
    }
}

// The number of a generated source that a word is.
fn source_of(word: &str) -> Option<u32>
    ensures { result ≡ spec.source_of word.now }
{
    match number_of(word, LARGEST_SOURCE) {
        None => None,
        Some(number) => Some(number as u32),
    }
}

// The number of `gen`.
fn source_behind(words: &[String]) -> Result<u32, u64>
    ensures { MatchResult result (λ n. spec.source_behind (map string_bytes words.now) ≡ Ok (spec.gen n))
        (λ place. spec.source_behind (map string_bytes words.now) ≡ Err place) }
{
    match words {
        [] => Err(2),
        [word, rest @ ..] => match source_of(word.as_str()) {
            None => Err(2),
            Some(number) => match rest {
                [] => Ok(number),
                [_, ..] => Err(3),
            },
        },
    }
}

/// The names of commands.
#[derive(Clone, Copy, Drop)]
pub(crate) enum Name {
    /// `run`.
    Run,
    /// `build`.
    Build,
    /// `exec`.
    Exec,
    /// `mean`.
    Mean,
    /// `asm`.
    Asm,
    /// `dis`.
    Dis,
    /// `gen`.
    Gen,
}

/// The command of a name and the words behind it, or the place of the first that can't come there, the first having
/// place 2.
pub(crate) fn by_name(name: Name, words: &[String]) -> Result<Command<'_>, u64>
    requires { length words.now < 2 ^ 60 }
    ensures command { MatchResult result (λ c. spec.by_name (Some name) (2 + length words.now)
        (map string_bytes words.now) ≡ Ok (spec.ordered c))
        (λ place. spec.by_name (Some name) (2 + length words.now) (map string_bytes words.now) ≡ Err place) }
    ensures steps { IfOk result (λ c. spec.steps_in c ≤ 2 ^ 40) }
{
    match name {
        Name::Run => {
            let (file, steps) = stepped(words, true)?;
            Ok(Command::Run(file, steps))
        }
        Name::Build => {
            let (file, image) = double(words)?;
            Ok(Command::Build(file, image))
        }
        Name::Exec => {
            let (image, steps) = stepped(words, true)?;
            Ok(Command::Exec(image, steps))
        }
        Name::Mean => {
            let (file, units) = stepped(words, false)?;
            Ok(Command::Mean(file, units))
        }
        Name::Asm => {
            let (file, image) = double(words)?;
            Ok(Command::Asm(file, image))
        }
        Name::Dis => {
            let image = single(words)?;
            Ok(Command::Dis(image))
        }
        Name::Gen => {
            let number = source_behind(words)?;
            Ok(Command::Gen(number))
        }
    }
}

//! The words of a command line: which command they give, or which word is the first that can't continue one.

ghost use Rattle.std.specs.Prelude.{◌≡◌, ◌^◌, Ok, Err, map, ◌≤◌, IfOk, MatchResult, string_bytes};
ghost use Rattle.command_words.specs.Orders as options;
ghost use Rattle.command_words.specs.Words as spec;

use crate::command::{Command, Name, by_name};

// The command that a word names.
fn name_of(word: &str) -> Option<Name>
    ensures { result ≡ spec.name_of word.now }
{
    match word {
        "run" => Some(Name::Run),
        "build" => Some(Name::Build),
        "exec" => Some(Name::Exec),
        "mean" => Some(Name::Mean),
        "asm" => Some(Name::Asm),
        "dis" => Some(Name::Dis),
        "gen" => Some(Name::Gen),
        _ => None,
    }
}

/// The command that the words give, word 0 being the program's name, or the place of the first word that can't continue
/// one; that is the number of words where they end too early. A run has at most 1,099,511,627,776 instructions.
pub fn command_of(words: &[String]) -> Result<Command<'_>, u64>
    ensures command { MatchResult result
        (λ c. spec.order_of (map string_bytes words.now) ≡ Ok (options.ordered c))
        (λ place. spec.order_of (map string_bytes words.now) ≡ Err place) }
    ensures steps { IfOk result (λ c. options.steps_in c ≤ 2 ^ 40) }
{
    match words {
        [] => Err(0),
        [_] => Err(1),
        [_, name, rest @ ..] => match name_of(name.as_str()) {
            Some(name) => by_name(name, rest),
            None => Err(1),
        },
    }
}

//! The words behind a command's name: its operands and its options.
ghost use Rattle.std.specs.Prelude.{◌≡◌, ◌+◌, ◌<◌, ◌≤◌, ◌^◌, ◌∷◌, Ok, Err, map, length, IfOk, IfSome, MatchResult};
ghost use Rattle.std.specs.Prelude.{string_bytes};
ghost use Rattle.std.specs.Char.{is_ascii_digit};
ghost use Rattle.std.specs.List.{list_all};
ghost use Rattle.command_words.specs.Orders as spec;

use crate::MOST_DIGITS;
use limits::run::{DEFAULT_STEPS, MOST_STEPS};

/// The operands that were given, in their order.
#[derive(Clone, Copy, Drop)]
pub enum Operands<'a> {
    /// None.
    None,
    /// One.
    One(&'a str),
    /// Two.
    Two(&'a str, &'a str),
}

/// What words gave.
#[derive(Clone, Copy, Drop)]
pub struct Given<'a> {
    /// The operands.
    pub operands: Operands<'a>,
    /// The most instructions of a run.
    pub steps: u64,
}

/// What may come next.
#[derive(Clone, Copy, Drop)]
pub struct Wanted {
    /// So many operands, at most two.
    pub operands: u32,
    /// The option `--steps`.
    pub steps: bool,
    /// The number of that option, right behind it.
    pub number: bool,
    /// The option `--stats`.
    pub stats: bool,
}

// An operand isn't empty and doesn't begin with a dash.
fn is_operand(word: &str) -> bool
    ensures { result ≡ spec.is_operand word.now }
{
    match word.as_bytes() {
        [] => false,
        [first, ..] => *first != b'-',
    }
}

fn has_only_digits(word: &[u8]) -> bool
    ensures { result ≡ list_all is_ascii_digit word.now }
{
    word.iter().all(|c| c.is_ascii_digit())
}

// Whether a word is 1 to 19 decimal digits.
fn are_digits(word: &[u8]) -> bool
    ensures { result ≡ spec.are_digits word.now }
{
    !word.is_empty() && word.len() <= MOST_DIGITS && has_only_digits(word)
}

fn in_range(number: u64, most: u64) -> Option<u64>
    ensures value { result ≡ spec.in_range most number }
    ensures small { IfSome result (λ n. n ≤ most) }
{
    if 0 < number && number <= most {
        Some(number)
    } else {
        None
    }
}

/// The number that a word is, from 1 up to the given one.
pub fn number_of(word: &str, most: u64) -> Option<u64>
    ensures value { result ≡ spec.number_of most word.now }
    ensures small { IfSome result (λ n. n ≤ most) }
{
    if !are_digits(word.as_bytes()) {
        return None;
    }
    match word.parse::<u64>() {
        Ok(number) => in_range(number, most),
        Err(_) => None,
    }
}

// What a word is where it can come next.
#[derive(Clone, Copy, Drop)]
enum Piece<'a> {
    // An operand.
    Operand(&'a str),
    // The option `--steps`.
    Steps,
    // The number of that option.
    Number(u64),
    // The option `--stats`.
    Stats,
}

fn piece_of(wanted: Wanted, word: &str) -> Option<Piece<'_>>
    ensures piece { spec.pieces_read result ≡ spec.piece_of wanted word.now }
    ensures small { IfSome result (λ p. spec.steps_given (spec.piece_read p) ≤ 2 ^ 40) }
{
    if wanted.number {
        match number_of(word, MOST_STEPS) {
            None => None,
            Some(steps) => Some(Piece::Number(steps)),
        }
    } else if wanted.steps && word == "--steps" {
        Some(Piece::Steps)
    } else if wanted.stats && word == "--stats" {
        Some(Piece::Stats)
    } else if wanted.operands > 0 && is_operand(word) {
        Some(Piece::Operand(word))
    } else {
        None
    }
}

// What may come behind a piece.
fn behind(piece: Piece<'_>, wanted: Wanted) -> Wanted
    ensures { result ≡ spec.behind (spec.piece_read piece.entry) wanted }
{
    match piece {
        Piece::Operand(_) => Wanted {
            operands: wanted.operands.saturating_sub(1),
            ..wanted
        },
        Piece::Steps => Wanted {
            steps: false,
            number: true,
            ..wanted
        },
        Piece::Number(_) => Wanted {
            number: false,
            ..wanted
        },
        Piece::Stats => Wanted {
            stats: false,
            ..wanted
        },
    }
}

// One operand more in front, where there are fewer than two.
fn with_operand<'a>(word: &'a str, operands: Operands<'a>) -> Operands<'a>
    requires { length (spec.operands_of operands) ≤ 1 }
    ensures { spec.operands_of result ≡ word.now ∷ spec.operands_of operands.entry }
{
    match operands {
        Operands::None => Operands::One(word),
        Operands::One(next) => Operands::Two(word, next),
        Operands::Two(_, _) => operands,
    }
}

// What a piece gives, in front of what the words behind it give.
fn joined<'a>(piece: Piece<'a>, given: Given<'a>) -> Given<'a>
    requires room { length (spec.operands_of given.operands) + spec.operands_in (spec.piece_read piece) ≤ 2 }
    requires small { (spec.steps_given (spec.piece_read piece) ≤ 2 ^ 40) × (given.steps ≤ 2 ^ 40) }
    ensures given { spec.given_of result ≡ spec.joined (spec.piece_read piece.entry) (spec.given_of given.entry) }
    ensures steps { result.steps ≤ 2 ^ 40 }
{
    match piece {
        Piece::Operand(word) => Given {
            operands: with_operand(word, given.operands),
            ..given
        },
        Piece::Steps => given,
        Piece::Number(steps) => Given { steps, ..given },
        Piece::Stats => given,
    }
}

/// What the words from a place on give, or the place of the first that can't come there. At most two operands are
/// wanted.
pub fn arguments(wanted: Wanted, place: u64, words: &[String]) -> Result<Given<'_>, u64>
    requires few { wanted.operands ≤ 2 }
    requires room { place + length words.now < 2 ^ 64 }
    ensures given { MatchResult result (λ a. spec.arguments wanted place (map string_bytes words.now) ≡
        Ok (spec.given_of a)) (λ end. spec.arguments wanted place (map string_bytes words.now) ≡ Err end) }
    ensures count { IfOk result (λ a. length (spec.operands_of a.operands) ≤ wanted.operands) }
    ensures steps { IfOk result (λ a. a.steps ≤ 2 ^ 40) }
{
    match words {
        [] if wanted.number => Err(place),
        [] => Ok(Given {
            operands: Operands::None,
            steps: DEFAULT_STEPS,
        }),
        [word, rest @ ..] => match piece_of(wanted, word.as_str()) {
            None => Err(place),
            Some(piece) => {
                let given = arguments(behind(piece, wanted), place + 1, rest)?;
                Ok(joined(piece, given))
            }
        },
    }
}

// Whether the option `--stats` stands among the words behind a command's name.
fn has_stats(words: &[String]) -> bool
    ensures { result ≡ spec.has_stats (map string_bytes words.now) }
{
    match words {
        [] => false,
        [word, rest @ ..] => word.as_str() == "--stats" || has_stats(rest),
    }
}

/// Whether the words, which are a command, ask for the line of counts.
pub fn asks_counts(words: &[String]) -> bool
    ensures { result ≡ spec.asks_counts (map string_bytes words.now) }
{
    match words {
        [] => false,
        [_] => false,
        [_, _, rest @ ..] => has_stats(rest),
    }
}

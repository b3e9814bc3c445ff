//! The tree of a text.

ghost use Rattle.std.specs.Prelude.{◌≡◌, ◌+◌, ◌≤◌, length, IfOk, [], ◌==◌};
ghost use Rattle.std.specs.List.{count_by};
ghost use Rattle.tick_tree.specs.Faults.{Answers};
ghost use Rattle.parse_spelling.specs.Words.{words};
ghost use Rattle.parse_spelling.specs.Spelling.{spells_program};
ghost use Rattle.parse_spelling.specs.Items.{items_of};
ghost use Rattle.tick_parser.specs.Laws.{ParsedAreTexts};
ghost use Rattle.parse_spelling.specs.Trees as spec;
ghost use Rattle.limits.specs.declared.text.TheConstants.{LONGEST_TEXT, MAX_TOKENS};

use crate::items::items_of;
use crate::knot::{read, read_declarator, read_stmt};
use limits::text::MAX_NESTING;
use parse_grammar::{Grammar, Item, Stop, Tokens};
use sqlite_items::Items;
use std::alloc::Global;
use tick_tree::{Deny, External, Fault, FaultKind, Token, Tree};

// The line of the first token, or of the end of the text: that behind its last byte.
fn first_line(text: &[u8], tokens: &[Token]) -> u32
    requires { length text.now ≤ LONGEST_TEXT }
    ensures { result ≡ spec.first_line text.now tokens.now }
{
    match tokens {
        [] => 1 + text.iter().filter(|b| **b == b'\n').count() as u32,
        [first, ..] => first.line,
    }
}

// The fault at the token from which so many tokens are left.
fn fault_at(text: &[u8], tokens: &[Token], kind: FaultKind, left: usize) -> Fault
    requires small { length text.now ≤ LONGEST_TEXT }
    requires few { length tokens.now ≤ MAX_TOKENS }
    ensures { result ≡ spec.fault_at text.now tokens.now kind left }
{
    let at = tokens.len().saturating_sub(left);
    Fault {
        kind,
        line: first_line(text, &tokens[at..]),
        token: at as u32,
    }
}

fn denial(text: &[u8], tokens: &[Token], stop: Stop) -> Deny
    requires small { length text.now ≤ LONGEST_TEXT }
    requires few { length tokens.now ≤ MAX_TOKENS }
    ensures { spec.Denies text.now tokens.now stop result }
{
    match stop {
        Stop::NoMemory => Deny::NoMemory,
        Stop::Syntax(left) => Deny::Refused(fault_at(text, tokens, FaultKind::Syntax, left)),
        Stop::TooDeep(left) => Deny::Refused(fault_at(text, tokens, FaultKind::TooDeep, left)),
    }
}

// Parses all tokens as the items of a program.
#[tactic(auto, unfolding(parse_spelling::specs::Trees::outcome))]
fn program<'a>(alloc: Global, items: &'a [Item<'a>]) -> Result<Items<External>, Stop>
    ensures found { spec.Finds (spec.outcome items.now) result }
    ensures spells { IfOk result (λ found. words items.now ≡ spells_program found []) }
{
    let grammar = Grammar {
        alloc,
        limit: MAX_NESTING,
        expr: read,
        stmt: read_stmt,
        declarator: read_declarator,
    };
    let mut tokens = Tokens::new(items);
    parse_statements::program(&grammar, &mut tokens, MAX_NESTING)
}

/// The syntax tree of a text of at most 1,048,576 bytes, from its at most 262,144 tokens. The tree spells the tokens.
///
/// The fault of the first token that is wrong: Syntax where the grammar takes no such token there, the end of the text
/// with it, else TooDeep where the nesting at it is over [`MAX_NESTING`].
#[tactic(auto, unfolding(parse_spelling::specs::Trees::parsed), using(crate::proofs::Parsed::is_text))]
pub fn parse(alloc: Global, text: &[u8], tokens: &[Token]) -> Result<Tree, Deny>
    requires small { length text.now ≤ LONGEST_TEXT }
    requires few { length tokens.now ≤ MAX_TOKENS }
    ensures exact { Answers (λ tree. tree) result (spec.parsed text.now tokens.now) }
    ensures spells { IfOk result (λ tree. words (items_of text.now tokens.now) ≡ spells_program tree.items []) }
{
    let Ok(items) = items_of(alloc, text, tokens) else {
        return Err(Deny::NoMemory);
    };
    match program(alloc, &items) {
        Ok(items) => Ok(Tree::new(items)),
        Err(stop) => Err(denial(text, tokens, stop)),
    }
}

/// That each tree of at most 262,144 tokens names its functions and is small, as [`Tree`] keeps it.
pub fn parsed_are_texts()
    ensures { ParsedAreTexts }
{}

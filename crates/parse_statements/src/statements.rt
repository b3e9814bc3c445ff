//! Statements.

ghost use Rattle.std.specs.Prelude.{◌≡◌, ◌-◌, ◌<◌, ◌≤◌};
ghost use Rattle.parse_grammar.specs.Input.{Reads};
ghost use Rattle.parse_grammar.specs.Steps as steps;
ghost use Rattle.parse_grammar.specs.Expressions as expressions;
ghost use Rattle.parse_grammar.specs.Statements as spec;
ghost use Rattle.parse_grammar.specs.Statements.{inner, room_of};

use crate::declarations::declaration;
use crate::first_words::{begins_first, begins_stmt};
use parse_expressions::{block, cond, expr, parenthesized};
use parse_grammar::{Deeper, Kind, Mark, Part, Stop, Tokens, Word, descend, ended, enter_paren};
use sqlite_items::Boxed;
use tick_tree::{Expr, OptionalExpr, Stmt};

// Parses a statement that is no item of a block.
#[tactic(auto, unfolding(parse_grammar::specs::Statements::part))]
fn part<G: Deeper>(grammar: &G, tokens: &mut Tokens<'_>, room: usize) -> Result<Boxed<Stmt>, Stop>
    requires nests { G.nests grammar.now }
    requires room { room ≤ G.limit grammar.now }
    ensures { Reads (spec.part (room_of room) tokens.old) result tokens.new }
{
    if !begins_stmt(tokens.peek()) {
        return Err(tokens.refuse());
    }
    descend(tokens, room)?;
    let found = grammar.inner_stmt(tokens, room - 1)?;
    Ok(Boxed::new(grammar.alloc(), found)?)
}

#[tactic(auto, unfolding(parse_grammar::specs::Statements::if_rest, parse_grammar::specs::Statements::else_rest))]
fn if_rest<G: Deeper>(
    grammar: &G,
    tokens: &mut Tokens<'_>,
    room: usize,
    line: u32,
) -> Result<Stmt, Stop>
    requires nests { G.nests grammar.now }
    requires room { room ≤ G.limit grammar.now }
    ensures { Reads (spec.if_rest line (room_of room) tokens.old) result tokens.new }
{
    let test = parenthesized(grammar, tokens, room)?;
    let first = part(grammar, tokens, room)?;
    if !tokens.eat(Mark::Else) {
        return Ok(Stmt::If(line, test, first));
    }
    let second = part(grammar, tokens, room)?;
    Ok(Stmt::IfElse(line, test, first, second))
}

fn do_rest<G: Deeper>(
    grammar: &G,
    tokens: &mut Tokens<'_>,
    room: usize,
    line: u32,
) -> Result<Stmt, Stop>
    requires nests { G.nests grammar.now }
    requires room { room ≤ G.limit grammar.now }
    ensures { Reads (spec.do_rest line (room_of room) tokens.old) result tokens.new }
{
    let body = part(grammar, tokens, room)?;
    tokens.expect_word(Word::While)?;
    let test = parenthesized(grammar, tokens, room)?;
    ended(tokens, Stmt::Do(line, body, test), Mark::Semicolon)
}

// Parses the first part of a `for`, with its `;`.
#[tactic(auto, unfolding(parse_grammar::specs::Statements::for_first))]
fn for_first<G: Deeper>(
    grammar: &G,
    tokens: &mut Tokens<'_>,
    room: usize,
) -> Result<Boxed<Stmt>, Stop>
    requires nests { G.nests grammar.now }
    requires room { room < G.limit grammar.now }
    ensures { Reads (spec.for_first (inner (room_of room)) tokens.old) result tokens.new }
{
    if !begins_first(tokens.peek()) {
        return Err(tokens.refuse());
    }
    let found = grammar.inner_stmt(tokens, room)?;
    Ok(Boxed::new(grammar.alloc(), found)?)
}

// Parses an expression that may be absent, up to this mark, which it takes too.
fn optional<G: Deeper>(
    grammar: &G,
    tokens: &mut Tokens<'_>,
    room: usize,
    mark: Mark,
) -> Result<OptionalExpr, Stop>
    requires nests { G.nests grammar.now }
    requires room { room < G.limit grammar.now }
    ensures { Reads (steps.optional mark (expressions.expr (room_of room)) tokens.old) result tokens.new }
{
    if tokens.eat(mark) {
        return Ok(OptionalExpr::Absent);
    }
    let found = grammar.inner(tokens, room, Part::Whole)?;
    ended(tokens, OptionalExpr::Present(found), mark)
}

fn for_rest<G: Deeper>(
    grammar: &G,
    tokens: &mut Tokens<'_>,
    room: usize,
    line: u32,
) -> Result<Stmt, Stop>
    requires nests { G.nests grammar.now }
    requires room { room ≤ G.limit grammar.now }
    ensures { Reads (spec.for_rest line (room_of room) tokens.old) result tokens.new }
{
    enter_paren(tokens, room)?;
    let first = for_first(grammar, tokens, room - 1)?;
    let test = optional(grammar, tokens, room - 1, Mark::Semicolon)?;
    let step = optional(grammar, tokens, room - 1, Mark::ParenClose)?;
    let body = part(grammar, tokens, room)?;
    Ok(Stmt::For(line, first, test, step, body))
}

#[tactic(auto, unfolding(parse_grammar::specs::Statements::word_stmt, parse_grammar::specs::Statements::while_rest, parse_grammar::specs::Statements::switch_rest, parse_grammar::specs::Statements::case_rest, parse_grammar::specs::Statements::return_rest))]
fn word_stmt<G: Deeper>(
    grammar: &G,
    tokens: &mut Tokens<'_>,
    room: usize,
    word: Word,
) -> Result<Stmt, Stop>
    requires nests { G.nests grammar.now }
    requires room { room ≤ G.limit grammar.now }
    ensures { Reads (spec.word_stmt word (room_of room) tokens.old) result tokens.new }
{
    let line = tokens.line();
    tokens.take();
    match word {
        Word::If => if_rest(grammar, tokens, room, line),
        Word::While => {
            let test = parenthesized(grammar, tokens, room)?;
            Ok(Stmt::While(line, test, part(grammar, tokens, room)?))
        }
        Word::Do => do_rest(grammar, tokens, room, line),
        Word::For => for_rest(grammar, tokens, room, line),
        Word::Switch => {
            let value = parenthesized(grammar, tokens, room)?;
            Ok(Stmt::Switch(line, value, block(grammar, tokens, room)?))
        }
        Word::Case => {
            let value = cond(grammar, tokens, room)?;
            ended(tokens, Stmt::Case(line, value), Mark::Colon)
        }
        Word::Default => ended(tokens, Stmt::Default(line), Mark::Colon),
        Word::Break => ended(tokens, Stmt::Break(line), Mark::Semicolon),
        Word::Continue => ended(tokens, Stmt::Continue(line), Mark::Semicolon),
        Word::Return => {
            if tokens.eat(Mark::Semicolon) {
                return Ok(Stmt::Return(line, OptionalExpr::Absent));
            }
            let value = OptionalExpr::Present(expr(grammar, tokens, room)?);
            ended(tokens, Stmt::Return(line, value), Mark::Semicolon)
        }
    }
}

/// An item of a block: a declaration or a statement.
///
/// Syntax or TooDeep exactly at the first token that the production doesn't take, or that nests too deep.
#[tactic(auto, unfolding(parse_grammar::specs::Statements::stmt, parse_grammar::specs::Statements::plain))]
pub fn stmt<G: Deeper>(grammar: &G, tokens: &mut Tokens<'_>, room: usize) -> Result<Stmt, Stop>
    requires nests { G.nests grammar.now }
    requires room { room ≤ G.limit grammar.now }
    ensures { Reads (spec.stmt (room_of room) tokens.old) result tokens.new }
{
    match tokens.peek() {
        Kind::Mark(Mark::Semicolon) => {
            tokens.take();
            Ok(Stmt::Empty)
        }
        Kind::Mark(Mark::BraceOpen) => Ok(Stmt::Block(block(grammar, tokens, room)?)),
        Kind::Base(_) => Ok(Stmt::Local(declaration(grammar, tokens, room)?)),
        Kind::Word(word) => word_stmt(grammar, tokens, room, word),
        _ => {
            let value = expr(grammar, tokens, room)?;
            ended(tokens, Stmt::Expr(value), Mark::Semicolon)
        }
    }
}

//! Primary expressions, and the lists in brackets. Why their loops count their turns is said at `Tokens::left`.

ghost use Rattle.std.specs.Prelude.{◌≡◌, ◌<◌, ◌≤◌};
ghost use Rattle.parse_grammar.specs.Input.{Reads};
ghost use Rattle.parse_grammar.specs.Steps as steps;
ghost use Rattle.parse_grammar.specs.Expressions as spec;
ghost use Rattle.parse_grammar.specs.Statements.{room_of, stmt};

use crate::leaves::{name, string};
use crate::parts::expr_before;
use crate::staged::{compile, local, param};
use parse_grammar::{Deeper, Kind, Mark, Part, Stop, Tokens, ended, enter, enter_paren};
use sqlite_items::{Boxed, Items};
use tick_tree::{Expr, Stmt};

#[tactic(auto, unfolding(parse_grammar::specs::Steps::separated, parse_grammar::specs::Steps::following_from))]
fn separated<G: Deeper>(
    grammar: &G,
    tokens: &mut Tokens<'_>,
    room: usize,
) -> Result<Items<Expr>, Stop>
    requires nests { G.nests grammar.now }
    requires room { room < G.limit grammar.now }
    ensures { Reads (steps.separated (spec.assign (room_of room)) tokens.old) result tokens.new }
{
    let mut found = Items::new(grammar.alloc());
    found.push(grammar.inner(tokens, room, Part::Assign)?)?;
    for _turn in 0..tokens.left() {
        if !tokens.eat(Mark::Comma) {
            return Ok(found);
        }
        found.push(grammar.inner(tokens, room, Part::Assign)?)?;
    }
    Ok(found)
}

/// The arguments of a call, from behind its opening parenthesis on.
///
/// Syntax or TooDeep exactly at the first token that the production doesn't take, or that nests too deep.
#[tactic(auto, unfolding(parse_grammar::specs::Expressions::arguments))]
pub(crate) fn arguments<G: Deeper>(
    grammar: &G,
    tokens: &mut Tokens<'_>,
    room: usize,
) -> Result<Items<Expr>, Stop>
    requires nests { G.nests grammar.now }
    requires room { room < G.limit grammar.now }
    ensures { Reads (spec.arguments (spec.assign (room_of room)) tokens.old) result tokens.new }
{
    if tokens.eat(Mark::ParenClose) {
        return Ok(Items::new(grammar.alloc()));
    }
    let found = separated(grammar, tokens, room)?;
    ended(tokens, found, Mark::ParenClose)
}

// Parses the items of a block up to its closing brace, which it takes too.
#[tactic(auto, unfolding(parse_grammar::specs::Steps::closed, parse_grammar::specs::Steps::closed_from))]
fn closed<G: Deeper>(grammar: &G, tokens: &mut Tokens<'_>, room: usize) -> Result<Items<Stmt>, Stop>
    requires nests { G.nests grammar.now }
    requires room { room < G.limit grammar.now }
    ensures { Reads (steps.closed (stmt (room_of room)) tokens.old) result tokens.new }
{
    let mut found = Items::new(grammar.alloc());
    for _turn in 0..tokens.left() {
        if tokens.eat(Mark::BraceClose) {
            return Ok(found);
        }
        found.push(grammar.inner_stmt(tokens, room)?)?;
    }
    Err(tokens.refuse())
}

/// The items of a block, with its braces.
///
/// Syntax or TooDeep exactly at the first token that no block takes, or that nests too deep.
#[tactic(auto, unfolding(parse_grammar::specs::Expressions::block))]
pub fn block<G: Deeper>(
    grammar: &G,
    tokens: &mut Tokens<'_>,
    room: usize,
) -> Result<Items<Stmt>, Stop>
    requires nests { G.nests grammar.now }
    requires room { room ≤ G.limit grammar.now }
    ensures { Reads (spec.block (room_of room) tokens.old) result tokens.new }
{
    if !tokens.sees(Mark::BraceOpen) {
        return Err(tokens.refuse());
    }
    enter(tokens, room)?;
    closed(grammar, tokens, room - 1)
}

/// An expression in parentheses, as the test of a statement.
///
/// Syntax or TooDeep exactly at the first token that the production doesn't take, or that nests too deep.
#[tactic(auto, unfolding(parse_grammar::specs::Expressions::parenthesized))]
pub fn parenthesized<G: Deeper>(
    grammar: &G,
    tokens: &mut Tokens<'_>,
    room: usize,
) -> Result<Expr, Stop>
    requires nests { G.nests grammar.now }
    requires room { room ≤ G.limit grammar.now }
    ensures { Reads (spec.parenthesized (room_of room) tokens.old) result tokens.new }
{
    enter_paren(tokens, room)?;
    expr_before(grammar, tokens, room - 1, Part::Whole, Mark::ParenClose)
}

// Parses an expression in parentheses, from a `(` on that begins no cast. It stands alone, so that other primary
// expressions make no room for it.
fn paren<G: Deeper>(grammar: &G, tokens: &mut Tokens<'_>, room: usize) -> Result<Expr, Stop>
    requires nests { G.nests grammar.now }
    requires room { room ≤ G.limit grammar.now }
    ensures { Reads (spec.primary_by (room_of room) (Kind.Mark Mark.ParenOpen) tokens.old) result tokens.new }
{
    let inner = parenthesized(grammar, tokens, room)?;
    Ok(Expr::Paren(Boxed::new(grammar.alloc(), inner)?))
}

/// A primary expression.
///
/// Syntax or TooDeep exactly at the first token that the production doesn't take, or that nests too deep.
#[tactic(auto, unfolding(parse_grammar::specs::Expressions::primary))]
pub(crate) fn primary<G: Deeper>(
    grammar: &G,
    tokens: &mut Tokens<'_>,
    room: usize,
) -> Result<Expr, Stop>
    requires nests { G.nests grammar.now }
    requires room { room ≤ G.limit grammar.now }
    ensures { Reads (spec.primary (room_of room) tokens.old) result tokens.new }
{
    let alloc = grammar.alloc();
    match tokens.peek() {
        Kind::Name => name(alloc, tokens),
        Kind::Number => {
            let found = Expr::Number(tokens.value(), tokens.unsigned());
            tokens.take();
            Ok(found)
        }
        Kind::Character => {
            let found = Expr::Character(tokens.value());
            tokens.take();
            Ok(found)
        }
        Kind::String => string(alloc, tokens),
        Kind::Compile => compile(grammar, tokens, room),
        Kind::Local => local(grammar, tokens, room),
        Kind::Param => param(grammar, tokens, room),
        Kind::Mark(Mark::ParenOpen) => paren(grammar, tokens, room),
        _ => Err(tokens.refuse()),
    }
}

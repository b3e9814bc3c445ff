//! The levels of precedence above an operand.

ghost use Rattle.std.specs.Prelude.{◌≡◌, ◌<◌, ◌≤◌};
ghost use Rattle.parse_grammar.specs.Input.{Reads};
ghost use Rattle.parse_grammar.specs.Expressions as spec;
ghost use Rattle.parse_grammar.specs.Statements.{inner, room_of};
ghost use Rattle.parse_expressions.specs.Assigned.{assigned_by};
ghost use Rattle.parse_expressions.specs.Precedence.{chain_at};

use crate::operators::{binary_of, is_comma, looseness_within};
use crate::postfixes::unary;
use parse_grammar::{Deeper, Kind, Mark, Part, Stop, Tokens, enter};
use sqlite_items::Boxed;
use tick_tree::{Expr, ModifyOp};

// How many levels of operators between operands there are.
const LEVELS: u8 = 10;

// Parses the operators of this level and their operands, from behind the first operand on.
#[cycle(level)]
#[tactic(auto, using(crate::proofs::Steps::level_steps))]
fn chain<G: Deeper>(
    grammar: &G,
    tokens: &mut Tokens<'_>,
    room: usize,
    level: u8,
    first: Expr,
) -> Result<Expr, Stop>
    requires nests { G.nests grammar.now }
    requires room { room ≤ G.limit grammar.now }
    requires small { level < 10 }
    ensures { Reads (chain_at level (room_of room) first tokens.old) result tokens.new }
{
    let mut left = first;
    let mut room = room;
    while let Some(op) = binary_of(level, tokens.peek()) {
        let line = tokens.line();
        enter(tokens, room)?;
        room -= 1;
        let right = climb(grammar, tokens, room, level)?;
        left = Expr::Binary(line, op, Boxed::new(grammar.alloc(), (left, right))?);
    }
    Ok(left)
}

// Parses the operators that bind tighter than those of this level. Levels without an operator are passed over.
#[cycle(level)]
#[tactic(auto, using(crate::proofs::Climbs::climb_steps))]
#[inline(always)]
fn climb<G: Deeper>(
    grammar: &G,
    tokens: &mut Tokens<'_>,
    room: usize,
    level: u8,
) -> Result<Expr, Stop>
    requires nests { G.nests grammar.now }
    requires room { room ≤ G.limit grammar.now }
    requires small { level ≤ 10 }
    ensures { Reads (spec.level level (room_of room) tokens.old) result tokens.new }
{
    let mut left = unary(grammar, tokens, room)?;
    let mut least = 0;
    while let Some(next) = looseness_within(least, level, tokens.peek()) {
        left = chain(grammar, tokens, room, next, left)?;
        least = next + 1;
    }
    Ok(left)
}

// Parses the two ways of a conditional expression, from behind its `?` on.
fn choice<G: Deeper>(
    grammar: &G,
    tokens: &mut Tokens<'_>,
    room: usize,
    line: u32,
    test: Expr,
) -> Result<Expr, Stop>
    requires nests { G.nests grammar.now }
    requires room { room < G.limit grammar.now }
    ensures { Reads (spec.choice line test (inner (room_of room)) tokens.old) result tokens.new }
{
    let asked = Boxed::new(grammar.alloc(), test)?;
    let read = grammar.inner(tokens, room, Part::Whole)?;
    let first = Boxed::new(grammar.alloc(), read)?;
    tokens.expect(Mark::Colon)?;
    let last = grammar.inner(tokens, room, Part::Cond)?;
    let second = Boxed::new(grammar.alloc(), last)?;
    Ok(Expr::Choice(line, asked, first, second))
}

/// An expression without a comma or an assignment outside brackets.
///
/// Syntax or TooDeep exactly at the first token that the production doesn't take, or that nests too deep.
#[tactic(auto, unfolding(parse_grammar::specs::Expressions::cond))]
#[inline(always)]
pub fn cond<G: Deeper>(grammar: &G, tokens: &mut Tokens<'_>, room: usize) -> Result<Expr, Stop>
    requires nests { G.nests grammar.now }
    requires room { room ≤ G.limit grammar.now }
    ensures { Reads (spec.cond (room_of room) tokens.old) result tokens.new }
{
    let test = climb(grammar, tokens, room, LEVELS)?;
    if !tokens.sees(Mark::Question) {
        return Ok(test);
    }
    let line = tokens.line();
    enter(tokens, room)?;
    choice(grammar, tokens, room - 1, line, test)
}

// Parses an assignment from its sign on, which may join an operator with `=`.
fn assigned<G: Deeper>(
    grammar: &G,
    tokens: &mut Tokens<'_>,
    room: usize,
    left: Expr,
    op: Option<ModifyOp>,
) -> Result<Expr, Stop>
    requires nests { G.nests grammar.now }
    requires room { room ≤ G.limit grammar.now }
    ensures { Reads (assigned_by (room_of room) left op tokens.old) result tokens.new }
{
    let line = tokens.line();
    enter(tokens, room)?;
    let right = grammar.inner(tokens, room - 1, Part::Assign)?;
    let pair = Boxed::new(grammar.alloc(), (left, right))?;
    match op {
        None => Ok(Expr::Assign(line, pair)),
        Some(op) => Ok(Expr::Modify(line, op, pair)),
    }
}

/// An expression without a comma outside brackets.
///
/// Syntax or TooDeep exactly at the first token that the production doesn't take, or that nests too deep.
#[tactic(auto, unfolding(parse_grammar::specs::Expressions::assign))]
#[inline(always)]
pub fn assign<G: Deeper>(grammar: &G, tokens: &mut Tokens<'_>, room: usize) -> Result<Expr, Stop>
    requires nests { G.nests grammar.now }
    requires room { room ≤ G.limit grammar.now }
    ensures { Reads (spec.assign (room_of room) tokens.old) result tokens.new }
{
    let left = cond(grammar, tokens, room)?;
    match tokens.peek() {
        Kind::Mark(Mark::Assign) => assigned(grammar, tokens, room, left, None),
        Kind::Modify(op) => assigned(grammar, tokens, room, left, Some(op)),
        _ => Ok(left),
    }
}

/// An expression.
///
/// Syntax or TooDeep exactly at the first token that the production doesn't take, or that nests too deep.
#[tactic(auto, unfolding(parse_grammar::specs::Expressions::expr), using(crate::proofs::Steps::comma_steps))]
#[inline(always)]
pub fn expr<G: Deeper>(grammar: &G, tokens: &mut Tokens<'_>, room: usize) -> Result<Expr, Stop>
    requires nests { G.nests grammar.now }
    requires room { room ≤ G.limit grammar.now }
    ensures { Reads (spec.expr (room_of room) tokens.old) result tokens.new }
{
    let mut left = assign(grammar, tokens, room)?;
    let mut room = room;
    while is_comma(tokens.peek()) {
        let line = tokens.line();
        enter(tokens, room)?;
        room -= 1;
        let right = assign(grammar, tokens, room)?;
        left = Expr::Comma(line, Boxed::new(grammar.alloc(), (left, right))?);
    }
    Ok(left)
}

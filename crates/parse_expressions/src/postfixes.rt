//! Operators behind and before their operand.

ghost use Rattle.std.specs.Prelude.{◌≡◌, ◌<◌, ◌≤◌};
ghost use Rattle.parse_grammar.specs.Input.{Reads};
ghost use Rattle.parse_grammar.specs.Expressions as spec;
ghost use Rattle.parse_grammar.specs.Statements.{inner, room_of};

use crate::operand_operators::{postfix_kind, unary_of};
use crate::primaries::{arguments, block, primary};
use crate::staged::{cast, size_of};
use parse_grammar::{Deeper, Kind, Mark, Part, Postfix, Stop, Tokens, ended, enter, is_base};
use sqlite_items::Boxed;
use tick_tree::{Expr, UnaryOp};

// Makes the expression of a postfix operator and what stands before it, from behind the operator on.
#[tactic(auto, unfolding(parse_grammar::specs::Expressions::indexed, parse_grammar::specs::Expressions::called))]
fn postfix_step<G: Deeper>(
    grammar: &G,
    tokens: &mut Tokens<'_>,
    room: usize,
    op: Postfix,
    line: u32,
    left: Expr,
) -> Result<Expr, Stop>
    requires nests { G.nests grammar.now }
    requires room { room < G.limit grammar.now }
    ensures { Reads (spec.postfix_step (inner (room_of room)) (room_of room) op line left tokens.old) result
        tokens.new }
{
    match op {
        Postfix::Index => {
            let at = grammar.inner(tokens, room, Part::Whole)?;
            let pair = Boxed::new(grammar.alloc(), (left, at))?;
            ended(tokens, Expr::Index(line, pair), Mark::BracketClose)
        }
        Postfix::Call => {
            let callee = Boxed::new(grammar.alloc(), left)?;
            Ok(Expr::Call(line, callee, arguments(grammar, tokens, room)?))
        }
        Postfix::Step(op) => Ok(Expr::Step(line, op, Boxed::new(grammar.alloc(), left)?)),
    }
}

#[tactic(auto, unfolding(parse_grammar::specs::Expressions::postfix), using(crate::proofs::Chains::postfix_steps))]
fn postfix<G: Deeper>(grammar: &G, tokens: &mut Tokens<'_>, room: usize) -> Result<Expr, Stop>
    requires nests { G.nests grammar.now }
    requires room { room ≤ G.limit grammar.now }
    ensures { Reads (spec.postfix (room_of room) tokens.old) result tokens.new }
{
    let mut left = primary(grammar, tokens, room)?;
    let mut room = room;
    while let Some(op) = postfix_kind(tokens.peek()) {
        let line = tokens.line();
        enter(tokens, room)?;
        room -= 1;
        left = postfix_step(grammar, tokens, room, op, line, left)?;
    }
    Ok(left)
}

// Parses a tick, from its backquote on.
#[tactic(auto, unfolding(parse_grammar::specs::Expressions::tick))]
fn tick<G: Deeper>(grammar: &G, tokens: &mut Tokens<'_>, room: usize) -> Result<Expr, Stop>
    requires nests { G.nests grammar.now }
    requires room { room ≤ G.limit grammar.now }
    ensures { Reads (spec.tick (room_of room) tokens.old) result tokens.new }
{
    let line = tokens.line();
    enter(tokens, room)?;
    if tokens.sees(Mark::BraceOpen) {
        return Ok(Expr::TickBlock(line, block(grammar, tokens, room - 1)?));
    }
    let operand = grammar.inner(tokens, room - 1, Part::Unary)?;
    Ok(Expr::Tick(line, Boxed::new(grammar.alloc(), operand)?))
}

// Parses an operator before its operand, and the operand.
fn prefixed<G: Deeper>(
    grammar: &G,
    tokens: &mut Tokens<'_>,
    room: usize,
    op: UnaryOp,
) -> Result<Expr, Stop>
    requires nests { G.nests grammar.now }
    requires room { room ≤ G.limit grammar.now }
    ensures { Reads (spec.prefixed (room_of room) (Some op) tokens.old) result tokens.new }
{
    let line = tokens.line();
    enter(tokens, room)?;
    let operand = grammar.inner(tokens, room - 1, Part::Unary)?;
    Ok(Expr::Unary(line, op, Boxed::new(grammar.alloc(), operand)?))
}

/// An operand: operators before it, a cast, a backquote, or a primary expression with operators behind it.
///
/// Syntax or TooDeep exactly at the first token that the production doesn't take, or that nests too deep.
#[tactic(auto, unfolding(parse_grammar::specs::Expressions::unary))]
#[inline(always)]
pub fn unary<G: Deeper>(grammar: &G, tokens: &mut Tokens<'_>, room: usize) -> Result<Expr, Stop>
    requires nests { G.nests grammar.now }
    requires room { room ≤ G.limit grammar.now }
    ensures { Reads (spec.unary (room_of room) tokens.old) result tokens.new }
{
    match tokens.peek() {
        Kind::Backquote => tick(grammar, tokens, room),
        Kind::Sizeof => size_of(grammar, tokens, room),
        Kind::Mark(Mark::ParenOpen) => {
            if is_base(tokens.peek_second()) {
                cast(grammar, tokens, room)
            } else {
                postfix(grammar, tokens, room)
            }
        }
        kind => match unary_of(kind) {
            Some(op) => prefixed(grammar, tokens, room, op),
            None => postfix(grammar, tokens, room),
        },
    }
}

//! Expressions with a type name: `compile`, `local`, `param`, `sizeof` and casts.

ghost use Rattle.std.specs.Prelude.{◌≡◌, ◌≤◌};
ghost use Rattle.parse_grammar.specs.Input.{Reads};
ghost use Rattle.parse_grammar.specs.Expressions as spec;
ghost use Rattle.parse_grammar.specs.Statements.{room_of};

use crate::parts::{expr_before, open};
use crate::typenames::typename_before;
use parse_grammar::{Deeper, Mark, Part, Stop, Tokens, enter};
use sqlite_items::Boxed;
use tick_tree::Expr;

/// `compile(..)`: an expression and a type name, from its word on.
///
/// Syntax or TooDeep exactly at the first token that the production doesn't take, or that nests too deep.
pub fn compile<G: Deeper>(grammar: &G, tokens: &mut Tokens<'_>, room: usize) -> Result<Expr, Stop>
    requires nests { G.nests grammar.now }
    requires room { room ≤ G.limit grammar.now }
    ensures { Reads (spec.worded spec.compile_inner (room_of room) tokens.old) result tokens.new }
{
    let line = open(tokens, room)?;
    let read = expr_before(grammar, tokens, room - 1, Part::Assign, Mark::Comma)?;
    let code = Boxed::new(grammar.alloc(), read)?;
    let ty = typename_before(grammar, tokens, room - 1, Mark::ParenClose)?;
    Ok(Expr::Compile(line, code, ty))
}

/// `local(..)`: a type name, from its word on.
///
/// Syntax or TooDeep exactly at the first token that the production doesn't take, or that nests too deep.
pub fn local<G: Deeper>(grammar: &G, tokens: &mut Tokens<'_>, room: usize) -> Result<Expr, Stop>
    requires nests { G.nests grammar.now }
    requires room { room ≤ G.limit grammar.now }
    ensures { Reads (spec.worded spec.local_inner (room_of room) tokens.old) result tokens.new }
{
    let line = open(tokens, room)?;
    let ty = typename_before(grammar, tokens, room - 1, Mark::ParenClose)?;
    Ok(Expr::Local(line, ty))
}

/// `param(..)`: a type name and an expression, from its word on.
///
/// Syntax or TooDeep exactly at the first token that the production doesn't take, or that nests too deep.
pub fn param<G: Deeper>(grammar: &G, tokens: &mut Tokens<'_>, room: usize) -> Result<Expr, Stop>
    requires nests { G.nests grammar.now }
    requires room { room ≤ G.limit grammar.now }
    ensures { Reads (spec.worded spec.param_inner (room_of room) tokens.old) result tokens.new }
{
    let line = open(tokens, room)?;
    let ty = typename_before(grammar, tokens, room - 1, Mark::Comma)?;
    let read = expr_before(grammar, tokens, room - 1, Part::Assign, Mark::ParenClose)?;
    let number = Boxed::new(grammar.alloc(), read)?;
    Ok(Expr::Param(line, ty, number))
}

/// `sizeof(..)`: a type name, from its word on.
///
/// Syntax or TooDeep exactly at the first token that the production doesn't take, or that nests too deep.
pub(crate) fn size_of<G: Deeper>(
    grammar: &G,
    tokens: &mut Tokens<'_>,
    room: usize,
) -> Result<Expr, Stop>
    requires nests { G.nests grammar.now }
    requires room { room ≤ G.limit grammar.now }
    ensures { Reads (spec.worded spec.sizeof_inner (room_of room) tokens.old) result tokens.new }
{
    let line = open(tokens, room)?;
    let ty = typename_before(grammar, tokens, room - 1, Mark::ParenClose)?;
    Ok(Expr::Sizeof(line, ty))
}

/// A cast: a type name in parentheses and its operand, from the `(` on.
///
/// Syntax or TooDeep exactly at the first token that the production doesn't take, or that nests too deep.
pub(crate) fn cast<G: Deeper>(
    grammar: &G,
    tokens: &mut Tokens<'_>,
    room: usize,
) -> Result<Expr, Stop>
    requires nests { G.nests grammar.now }
    requires room { room ≤ G.limit grammar.now }
    ensures { Reads (spec.cast (room_of room) tokens.old) result tokens.new }
{
    let line = tokens.line();
    enter(tokens, room)?;
    let ty = typename_before(grammar, tokens, room - 1, Mark::ParenClose)?;
    let read = grammar.inner(tokens, room - 1, Part::Unary)?;
    let operand = Boxed::new(grammar.alloc(), read)?;
    Ok(Expr::Cast(line, ty, operand))
}

//! The steps that several productions share.

ghost use Rattle.std.specs.Prelude.{◌≡◌, ◌<◌};
ghost use Rattle.parse_grammar.specs.Ends.{before};
ghost use Rattle.parse_grammar.specs.Input.{Reads};
ghost use Rattle.parse_grammar.specs.Expressions.{at};
ghost use Rattle.parse_grammar.specs.Statements.{room_of};
ghost use Rattle.parse_expressions.specs.Parts as spec;

use parse_grammar::{Deeper, Mark, Part, Stop, Tokens, ended, enter_paren};
use tick_tree::Expr;

/// Takes a word and the `(` behind it, which opens a level, and gives the line of the word.
pub fn open(tokens: &mut Tokens<'_>, room: usize) -> Result<u32, Stop>
    ensures { spec.Opened room tokens.old result tokens.new }
{
    let line = tokens.line();
    tokens.take();
    enter_paren(tokens, room)?;
    Ok(line)
}

/// An expression, and this mark behind it.
pub fn expr_before<G: Deeper>(
    grammar: &G,
    tokens: &mut Tokens<'_>,
    room: usize,
    part: Part,
    mark: Mark,
) -> Result<Expr, Stop>
    requires nests { G.nests grammar.now }
    requires room { room < G.limit grammar.now }
    ensures { Reads (before mark (at part (room_of room)) tokens.old) result tokens.new }
{
    let found = grammar.inner(tokens, room, part)?;
    ended(tokens, found, mark)
}

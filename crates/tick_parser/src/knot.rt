//! The functions that read what stands one level deeper.

ghost use Rattle.parse_grammar.specs.Input.{Reads};
ghost use Rattle.parse_grammar.specs.Declarators as declarators;
ghost use Rattle.parse_grammar.specs.Expressions as expressions;
ghost use Rattle.parse_grammar.specs.Statements as statements;
ghost use Rattle.parse_grammar.specs.Statements.{room_of};

use parse_declarators::declarator;
use parse_expressions::{assign, cond, expr, unary};
use parse_grammar::{Grammar, Mode, Part, Stop, Tokens};
use parse_statements::stmt;
use std::alloc::Global;
use tick_tree::{Declarator, Expr, Stmt};

/// The part of an expression, with room for this many levels.
#[cycle(knot)]
pub fn read(alloc: Global, tokens: &mut Tokens<'_>, room: usize, part: Part) -> Result<Expr, Stop>
    ensures { Reads (expressions.at part (room_of room) tokens.old) result tokens.new }
{
    let grammar = Grammar {
        alloc,
        limit: room,
        expr: read,
        stmt: read_stmt,
        declarator: read_declarator,
    };
    match part {
        Part::Whole => expr(&grammar, tokens, room),
        Part::Assign => assign(&grammar, tokens, room),
        Part::Cond => cond(&grammar, tokens, room),
        Part::Unary => unary(&grammar, tokens, room),
    }
}

/// An item of a block, with room for this many levels.
#[cycle(knot)]
pub fn read_stmt(alloc: Global, tokens: &mut Tokens<'_>, room: usize) -> Result<Stmt, Stop>
    ensures { Reads (statements.stmt (room_of room) tokens.old) result tokens.new }
{
    let grammar = Grammar {
        alloc,
        limit: room,
        expr: read,
        stmt: read_stmt,
        declarator: read_declarator,
    };
    stmt(&grammar, tokens, room)
}

/// A declarator, with room for this many levels.
#[cycle(knot)]
pub fn read_declarator(
    alloc: Global,
    tokens: &mut Tokens<'_>,
    room: usize,
    mode: Mode,
) -> Result<Declarator, Stop>
    ensures { Reads (declarators.declarator mode (room_of room) tokens.old) result tokens.new }
{
    let grammar = Grammar {
        alloc,
        limit: room,
        expr: read,
        stmt: read_stmt,
        declarator: read_declarator,
    };
    declarator(&grammar, tokens, room, mode)
}

//! The pieces of a whole body: what enters it, its own, and what leaves it.

ghost use Rattle.std.specs.Prelude.{◌≡◌, ◌<◌, ◌^◌, OnOk};
ghost use Rattle.staged_meaning.specs.Program.{OfExpression, OfStatement};
ghost use Rattle.staged_meaning.specs.Size.{variables_in};
ghost use Rattle.tick_lower_spec.specs.TickPieces.{tick_pieces};
ghost use Rattle.tick_lower.specs.Viewed.{addresses_view};
ghost use Rattle.typed_tree.specs.View.{expr_view, stmt_view};

use crate::addresses::Addresses;
use crate::expressions::expression;
use crate::statements::statement;
use crate::variables::variables;
use lowering_pieces::{Exits, Pieces, begin, end};
use std::alloc::AllocError;
use typed_tree::{Expr, Stmt};

/// The pieces of a body that is an expression. It fails as those of the expression do.
pub fn expression_body(
    addresses: &Addresses<'_>,
    e: &Expr,
    out: &mut Pieces,
) -> Result<(), AllocError>
    ensures { OnOk result (out.new.list ≡ tick_pieces (addresses_view addresses.now) (OfExpression (expr_view e.now))) }
{
    begin(0, out)?;
    expression(e, addresses, out)?;
    end(out)
}

/// The pieces of one that is a block. It fails as those of the block do.
pub fn statement_body(
    addresses: &Addresses<'_>,
    s: &Stmt,
    out: &mut Pieces,
) -> Result<(), AllocError>
    requires { variables_in (stmt_view s.now) < 2 ^ 32 }
    ensures { OnOk result (out.new.list ≡ tick_pieces (addresses_view addresses.now) (OfStatement (stmt_view s.now))) }
{
    let first = variables(s);
    begin(first, out)?;
    let nowhere = Exits {
        on_break: 0,
        on_continue: 0,
    };
    statement(s, nowhere, addresses, out)?;
    end(out)
}

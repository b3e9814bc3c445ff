//! Operators on two operands, each of which may be there at once.

ghost use Rattle.std.specs.Prelude.{◌≡◌, IfOk};
ghost use Rattle.typed_tree.specs.Nodes as node;
ghost use Rattle.typed_tree.specs.View.{expr_view};
ghost use Rattle.eval_state.specs.Pending as pending;
ghost use Rattle.eval_state.specs.Run.{run_of};
ghost use Rattle.eval_state.specs.Views.{now_view};
ghost use Rattle.eval_simple.specs.Stepped.{IsBegun, IsTaken};

use crate::next::wait;
use crate::operators::second;
use eval_simple::at_once;
use eval_state::{ExpressionFrame, Machine, Now};
use icode_ops::BinKind;
use std::alloc::AllocError;
use typed_tree::Expr;

/// An operator on two operands: the first.
pub(crate) fn binary<'a>(
    m: &mut Machine<'a>,
    kind: BinKind,
    a: &'a Expr,
    b: &'a Expr,
) -> Result<Now<'a>, AllocError>
    ensures { IfOk result (λ n. IsBegun (node.Bin kind (expr_view a.entry.now) (expr_view b.entry.now)) (now_view n)
        (run_of m.old) (run_of m.new)) }
{
    match at_once(m, a)? {
        Some(x) => first(m, kind, b, x),
        None => wait(m, ExpressionFrame::First(kind, b), a),
    }
}

/// The first operand is there.
pub(crate) fn first<'a>(
    m: &mut Machine<'a>,
    kind: BinKind,
    b: &'a Expr,
    v: u32,
) -> Result<Now<'a>, AllocError>
    ensures { IfOk result (λ n. IsTaken (pending.First kind (expr_view b.entry.now)) v (now_view n) (run_of m.old)
        (run_of m.new)) }
{
    match at_once(m, b)? {
        Some(y) => Ok(second(m, kind, v, y)),
        None => wait(m, ExpressionFrame::Second(kind, v), b),
    }
}

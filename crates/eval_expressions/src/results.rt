//! What a frame makes of a value within an expression.

ghost use Rattle.std.specs.Prelude.{◌≡◌, IfOk};
ghost use Rattle.typed_tree.specs.View.{expr_view};
ghost use Rattle.eval_state.specs.Pending as pending;
ghost use Rattle.eval_state.specs.Run.{run_of};
ghost use Rattle.eval_state.specs.Views.{now_view};
ghost use Rattle.eval_simple.specs.Stepped.{IsTaken};

use crate::next::{give, wait};
use eval_state::{ExpressionFrame, Machine, Now};
use host_edge::Ending;
use std::alloc::AllocError;
use typed_tree::{Expr, Library};

/// A register variable gets its value.
pub(crate) fn set_variable<'a>(m: &mut Machine<'a>, i: u32, v: u32) -> Result<Now<'a>, AllocError>
    ensures { IfOk result (λ n. IsTaken (pending.SetVar i) v (now_view n) (run_of m.old) (run_of m.new)) }
{
    m.set_variable(i, v)?;
    Ok(give(m, v))
}

/// A variable of generated code gets its value.
pub(crate) fn set_generated<'a>(m: &mut Machine<'a>, i: u32, v: u32) -> Result<Now<'a>, AllocError>
    ensures { IfOk result (λ n. IsTaken (pending.SetGenerated i) v (now_view n) (run_of m.old) (run_of m.new)) }
{
    m.set_generated(i, v)?;
    Ok(give(m, v))
}

/// The first operand of an `&&` is there.
pub(crate) fn both<'a>(m: &mut Machine<'a>, b: &'a Expr, v: u32) -> Result<Now<'a>, AllocError>
    ensures { IfOk result (λ n. IsTaken (pending.And (expr_view b.entry.now)) v (now_view n) (run_of m.old)
        (run_of m.new)) }
{
    if v == 0 {
        return Ok(give(m, 0));
    }
    wait(m, ExpressionFrame::Truth, b)
}

/// The first operand of an `||` is there.
pub(crate) fn either<'a>(m: &mut Machine<'a>, b: &'a Expr, v: u32) -> Result<Now<'a>, AllocError>
    ensures { IfOk result (λ n. IsTaken (pending.Or (expr_view b.entry.now)) v (now_view n) (run_of m.old)
        (run_of m.new)) }
{
    if v != 0 {
        return Ok(give(m, 1));
    }
    wait(m, ExpressionFrame::Truth, b)
}

/// The second operand of either is there.
pub(crate) fn truth<'a>(m: &mut Machine<'a>, v: u32) -> Now<'a>
    ensures { IsTaken pending.Truth v (now_view result) (run_of m.old) (run_of m.new) }
{
    if v == 0 {
        return give(m, 0);
    }
    give(m, 1)
}

/// The test of a `?:` is there.
pub(crate) fn choice<'a>(
    m: &mut Machine<'a>,
    a: &'a Expr,
    b: &'a Expr,
    v: u32,
) -> Result<Now<'a>, AllocError>
    ensures { IfOk result (λ n. IsTaken (pending.Cond (expr_view a.entry.now) (expr_view b.entry.now)) v (now_view n)
        (run_of m.old) (run_of m.new)) }
{
    if v == 0 {
        return wait(m, ExpressionFrame::Spend, b);
    }
    wait(m, ExpressionFrame::Spend, a)
}

/// The argument of a call of the library is there.
pub(crate) fn library<'a>(m: &mut Machine<'a>, kind: Library, v: u32) -> Result<Now<'a>, AllocError>
    ensures { IfOk result (λ n. IsTaken (pending.Lib kind) v (now_view n) (run_of m.old) (run_of m.new)) }
{
    match kind {
        Library::Putchar => {
            m.put_byte(v)?;
            Ok(give(m, v % 256))
        }
        Library::Putint => {
            m.put_number(v)?;
            Ok(give(m, 0))
        }
        Library::Exit => Ok(Now::Ended(Ending::Done((v % 256) as u8))),
        Library::Malloc => {
            let at = m.malloc(v);
            Ok(give(m, at))
        }
    }
}

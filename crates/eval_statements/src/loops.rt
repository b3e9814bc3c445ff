//! The turns of loops.

ghost use Rattle.std.specs.Prelude.{suc, IfOk};
ghost use Rattle.typed_tree.specs.View.{expr_view, stmt_view};
ghost use Rattle.staged_meaning.specs.World.{Continued, Normal};
ghost use Rattle.eval_state.specs.Pending as pending;
ghost use Rattle.eval_state.specs.Run.{run_of};
ghost use Rattle.eval_state.specs.Views.{now_view, step_view};
ghost use Rattle.eval_simple.specs.Stepped.{IsEnded, IsTaken};
ghost use Rattle.eval_statements.specs.Turned.{IsRounded, IsTurn, IsTurned};

use crate::next::wait;
use crate::started::going;
use eval_simple::at_once;
use eval_state::{EndFrame, Flow, Frame, Machine, Now, StatementFrame};
use std::alloc::AllocError;
use typed_tree::{Expr, Stmt};

/// Begins a turn of a loop, after which so many may follow.
pub(crate) fn turn<'a>(
    m: &mut Machine<'a>,
    more: u64,
    e: &'a Expr,
    step: Option<&'a Expr>,
    s: &'a Stmt,
) -> Result<Now<'a>, AllocError>
    ensures { IfOk result (λ n. IsTurn (suc more) (expr_view e.entry.now) (step_view step.entry)
        (stmt_view s.entry.now) (now_view n) (run_of m.old) (run_of m.new)) }
{
    match at_once(m, e)? {
        Some(v) => test(m, v, more, e, step, s),
        None => wait(m, StatementFrame::Test(more, e, step, s), e),
    }
}

/// The test of a loop's turn.
pub(crate) fn test<'a>(
    m: &mut Machine<'a>,
    v: u32,
    more: u64,
    e: &'a Expr,
    step: Option<&'a Expr>,
    s: &'a Stmt,
) -> Result<Now<'a>, AllocError>
    ensures { IfOk result (λ n. IsTaken
        (pending.Test more (expr_view e.entry.now) (step_view step.entry) (stmt_view s.entry.now)) v (now_view n)
        (run_of m.old) (run_of m.new)) }
{
    if v == 0 {
        return Ok(Now::Left(Flow::Normal));
    }
    let next = going(m, s)?;
    m.push(Frame::End(EndFrame::Turn(more, e, step, s)), next)
}

/// Behind the body of a loop that goes on: its step, or else the end of the turn.
pub(crate) fn step_on<'a>(
    m: &mut Machine<'a>,
    more: u64,
    e: &'a Expr,
    step: Option<&'a Expr>,
    s: &'a Stmt,
) -> Result<Now<'a>, AllocError>
    ensures { IfOk result (λ n. IsEnded
        (pending.Turn more (expr_view e.entry.now) (step_view step.entry) (stmt_view s.entry.now)) Normal (now_view n)
        (run_of m.old) (run_of m.new)) }
{
    match step {
        None => turned(m, more, e, None, s),
        Some(step) => match at_once(m, step)? {
            Some(_) => turned(m, more, e, Some(step), s),
            None => wait(m, StatementFrame::Step(more, e, step, s), step),
        },
    }
}

/// Ends a turn of a loop, which spends its unit; so many may follow.
pub(crate) fn turned<'a>(
    m: &mut Machine<'a>,
    many: u64,
    e: &'a Expr,
    step: Option<&'a Expr>,
    s: &'a Stmt,
) -> Result<Now<'a>, AllocError>
    ensures { IfOk result (λ n. IsTurned many (expr_view e.entry.now) (step_view step.entry) (stmt_view s.entry.now)
        (now_view n) (run_of m.old) (run_of m.new)) }
{
    if !m.spend_one() {
        return Ok(Now::Stopped);
    }
    if many == 0 {
        return Ok(Now::Stopped);
    }
    turn(m, many - 1, e, step, s)
}

/// Ends a turn of a `do` by its test, behind which the turn's unit is spent; so many may follow.
pub(crate) fn rounded<'a>(
    m: &mut Machine<'a>,
    v: u32,
    many: u64,
    s: &'a Stmt,
    e: &'a Expr,
) -> Result<Now<'a>, AllocError>
    ensures { IfOk result (λ n. IsRounded v many (stmt_view s.entry.now) (expr_view e.entry.now) (now_view n)
        (run_of m.old) (run_of m.new)) }
{
    if !m.spend_one() {
        return Ok(Now::Stopped);
    }
    again(m, v, many, s, e)
}

/// Ends a turn of a `do` by a continue, which spends the turn's unit; the test comes next.
pub(crate) fn continued<'a>(
    m: &mut Machine<'a>,
    many: u64,
    s: &'a Stmt,
    e: &'a Expr,
) -> Result<Now<'a>, AllocError>
    ensures { IfOk result (λ n. IsEnded (pending.Round many (stmt_view s.entry.now) (expr_view e.entry.now)) Continued
        (now_view n) (run_of m.old) (run_of m.new)) }
{
    if !m.spend_one() {
        return Ok(Now::Stopped);
    }
    m.push(
        Frame::Statement(StatementFrame::ContinuedTest(many, s, e)),
        Now::Eval(e),
    )
}

/// Behind the test of a `do`, where the turn's unit is spent: its body once more, or its end; so many turns may follow.
pub(crate) fn again<'a>(
    m: &mut Machine<'a>,
    v: u32,
    many: u64,
    s: &'a Stmt,
    e: &'a Expr,
) -> Result<Now<'a>, AllocError>
    ensures { IfOk result (λ n. IsTaken
        (pending.ContinuedTest many (stmt_view s.entry.now) (expr_view e.entry.now)) v (now_view n) (run_of m.old)
        (run_of m.new)) }
{
    if v == 0 {
        return Ok(Now::Left(Flow::Normal));
    }
    if many == 0 {
        return Ok(Now::Stopped);
    }
    m.push(Frame::End(EndFrame::Round(many - 1, s, e)), Now::Exec(s))
}

//! Begins statements.

ghost use Rattle.std.specs.Prelude.{◌≡◌, ◌+◌, ◌<◌, ◌≤◌, IfOk, IsTrue};
ghost use Rattle.typed_tree.specs.View.{stmt_view};
ghost use Rattle.staged_meaning.specs.World.{Normal};
ghost use Rattle.eval_state.specs.Pending as pending;
ghost use Rattle.eval_state.specs.Rest.{after, doing};
ghost use Rattle.eval_state.specs.Less.{heft, waiting};
ghost use Rattle.eval_state.specs.declared.parts.Now.TheVariants as now;
ghost use Rattle.eval_state.specs.Run.{here, leads, outcome, run_of, world};
ghost use Rattle.eval_state.specs.Views.{items_view, now_view};
ghost use Rattle.eval_simple.specs.Stepped.{IsExecuted};
ghost use Rattle.eval_statements.specs.Ran.{whole};

use crate::loops::turn;
use crate::next::wait;
use crate::parts::block;
use crate::started::going;
use eval_state::{EndFrame, Flow, Frame, Machine, Now, StatementFrame};
use std::alloc::AllocError;
use typed_tree::Stmt;

/// Begins a statement.
///
/// # Errors
/// Where memory is wanting.
pub fn exec<'a>(m: &mut Machine<'a>, s: &'a Stmt) -> Result<Now<'a>, AllocError>
    ensures same { IfOk result (λ n. outcome (now_view n) (run_of m.new)
        ≡ outcome (now_view (now.Exec s.entry)) (run_of m.old)) }
    ensures units { IfOk result (λ n. (run_of m.new).state.units ≤ (run_of m.old).state.units) }
    ensures less { IfOk result (λ n. (run_of m.new).state.units ≡ (run_of m.old).state.units
        → heft (now_view n) (run_of m.new) < heft (now_view (now.Exec s.entry)) (run_of m.old)) }
{
    let next = going(m, s)?;
    let begun = further(m, next)?;
    further(m, begun)
}

// Goes on where statements are left to do; a statement alone gets lighter by it.
fn further<'a>(m: &mut Machine<'a>, next: Now<'a>) -> Result<Now<'a>, AllocError>
    ensures same { IfOk result (λ n. outcome (now_view n) (run_of m.new)
        ≡ outcome (now_view next.entry) (run_of m.old)) }
    ensures units { IfOk result (λ n. (run_of m.new).state.units ≤ (run_of m.old).state.units) }
    ensures less { IfOk result (λ n. (run_of m.new).state.units ≡ (run_of m.old).state.units
        → heft (now_view n) (run_of m.new) + whole (now_view next.entry) ≤ heft (now_view next.entry) (run_of m.old)) }
{
    match next {
        Now::Exec(s) => begin(m, s),
        Now::Run(list) => run(m, list),
        Now::Eval(_) | Now::Value(_) | Now::Left(_) | Now::Returned(_) => Ok(next),
        Now::Ended(_) | Now::Stopped => Ok(next),
    }
}

// Begins a statement by its kind.
fn begin<'a>(m: &mut Machine<'a>, s: &'a Stmt) -> Result<Now<'a>, AllocError>
    ensures { IfOk result (λ n. IsExecuted (stmt_view s.entry.now) (now_view n) (run_of m.old) (run_of m.new)) }
{
    match s {
        Stmt::Eval(e) => wait(m, StatementFrame::Drop, e.get()),
        Stmt::Block(variables, items) => block(m, variables.as_slice(), items.as_slice()),
        Stmt::Variable(i) => {
            m.set_variable(*i, 0)?;
            Ok(m.spend(Now::Left(Flow::Normal)))
        }
        Stmt::Object(offset, words) => Ok(m.clear(*offset, *words)),
        Stmt::Parameter(k, width) => {
            let v = m.passed(*k, *width);
            m.set_variable(*k, v)?;
            Ok(Now::Left(Flow::Normal))
        }
        Stmt::ParameterObject(k, width, offset) => {
            let v = m.passed(*k, *width);
            let at = m.frame_address(*offset)?;
            match m.store(at, *width, v) {
                Ok(()) => Ok(Now::Left(Flow::Normal)),
                // no checked tree has a parameter where no object is
                Err(_) => Err(AllocError),
            }
        }
        Stmt::If(e, s) => wait(m, StatementFrame::If(s.get()), e.get()),
        Stmt::IfElse(e, s, t) => wait(m, StatementFrame::IfElse(s.get(), t.get()), e.get()),
        Stmt::While(e, s) => {
            let more = m.turns();
            turn(m, more, e.get(), None, s.get())
        }
        Stmt::Do(s, e) => {
            let more = m.turns();
            let s = s.get();
            m.push(Frame::End(EndFrame::Round(more, s, e.get())), Now::Exec(s))
        }
        Stmt::For(e, s) => {
            let more = m.turns();
            turn(m, more, e.get(), None, s.get())
        }
        Stmt::ForStep(e, step, s) => {
            let more = m.turns();
            turn(m, more, e.get(), Some(step.get()), s.get())
        }
        Stmt::Switch(e, variables, items) => wait(
            m,
            StatementFrame::Switch(variables.as_slice(), items.as_slice()),
            e.get(),
        ),
        Stmt::Case(_) => Ok(Now::Left(Flow::Normal)),
        Stmt::Default => Ok(Now::Left(Flow::Normal)),
        Stmt::Break => Ok(Now::Left(Flow::Broke)),
        Stmt::Continue => Ok(Now::Left(Flow::Continued)),
        Stmt::Return => Ok(Now::Returned(0)),
        Stmt::ReturnValue(e) => wait(m, StatementFrame::Return, e.get()),
    }
}

/// Begins items.
///
/// # Errors
/// Where memory is wanting.
pub fn run<'a>(m: &mut Machine<'a>, list: &'a [Stmt]) -> Result<Now<'a>, AllocError>
    ensures same { IfOk result (λ n. outcome (now_view n) (run_of m.new)
        ≡ outcome (now_view (now.Run list.entry)) (run_of m.old)) }
    ensures units { IfOk result (λ n. (run_of m.new).state.units ≤ (run_of m.old).state.units) }
    ensures less { IfOk result (λ n. (run_of m.new).state.units ≡ (run_of m.old).state.units
        → heft (now_view n) (run_of m.new) < heft (now_view (now.Run list.entry)) (run_of m.old)) }
{
    let mut rest = list;
    while let Some((s, more)) = rest.split_first() {
        let next = going(m, s)?;
        if !is_through(next) {
            return before_items(m, next, more);
        }
        rest = more;
    }
    Ok(Now::Left(Flow::Normal))
}

// Whether nothing is left to do of an item, so that the one behind it comes next.
fn is_through(next: Now<'_>) -> bool
    ensures { IsTrue result → now_view next.entry ≡ pending.Left Normal }
{
    match next {
        Now::Left(Flow::Normal) => true,
        Now::Left(_) | Now::Eval(_) | Now::Exec(_) | Now::Run(_) => false,
        Now::Value(_) | Now::Returned(_) | Now::Ended(_) | Now::Stopped => false,
    }
}

// What is left to do of an item, and then the items behind it, if there are any.
#[tactic(auto, using(crate::proofs::Starts::before))]
fn before_items<'a>(
    m: &mut Machine<'a>,
    next: Now<'a>,
    more: &'a [Stmt],
) -> Result<Now<'a>, AllocError>
    ensures same { IfOk result (λ n. outcome (now_view n) (run_of m.new)
        ≡ leads (run_of m.old) (after (here (run_of m.old)) (pending.Rest (items_view more.entry.now))
        (doing (here (run_of m.old)) (now_view next.entry) (world (run_of m.old))))) }
    ensures units { IfOk result (λ n. (run_of m.new).state.units ≤ (run_of m.old).state.units) }
    ensures less { IfOk result (λ n. (run_of m.new).state.units ≡ (run_of m.old).state.units
        → heft (now_view n) (run_of m.new) ≤ heft (now_view next.entry) (run_of m.old)
        + waiting (pending.Rest (items_view more.entry.now)) (run_of m.old)) }
{
    match next {
        Now::Returned(_) => Ok(next),
        Now::Exec(_) | Now::Run(_) if more.is_empty() => Ok(next),
        Now::Eval(_) | Now::Exec(_) | Now::Run(_) | Now::Value(_) | Now::Left(_) => {
            m.push(Frame::End(EndFrame::Rest(more)), next)
        }
        Now::Ended(_) | Now::Stopped => m.push(Frame::End(EndFrame::Rest(more)), next),
    }
}

//! Statements that begin at once: nothing becomes pending, and what is left to do of them is told.

ghost use Rattle.std.specs.Prelude.{IfOk};
ghost use Rattle.typed_tree.specs.View.{stmt_view};
ghost use Rattle.eval_state.specs.Run.{run_of};
ghost use Rattle.eval_state.specs.Views.{items_view, now_view};
ghost use Rattle.eval_statements.specs.Ran.{HasRun, IsGoing};

use crate::ran::ran;
use eval_simple::at_once;
use eval_state::{Flow, Machine, Now};
use std::alloc::AllocError;
use typed_tree::Stmt;

/// Runs items at once, one after another: those that are left, the first of which doesn't run so.
///
/// # Errors
/// Where memory is wanting.
#[tactic(auto, using(crate::proofs::Starts::items))]
pub(crate) fn ran_all<'a>(m: &mut Machine<'a>, list: &'a [Stmt]) -> Result<&'a [Stmt], AllocError>
    ensures { IfOk result (λ rest.
        HasRun (items_view list.entry.now) (items_view rest.now) (run_of m.old) (run_of m.new)) }
{
    let mut rest = list;
    while let Some((s, more)) = rest.split_first() {
        match ran(m, s)? {
            Some(()) => rest = more,
            None => return Ok(rest),
        }
    }
    Ok(rest)
}

/// Goes into a statement, as far as nothing becomes pending: what is left to do of it.
///
/// # Errors
/// Where memory is wanting.
#[cycle(going)]
#[tactic(auto, using(crate::proofs::Starts::goings, crate::proofs::Begins::views))]
pub(crate) fn going<'a>(m: &mut Machine<'a>, s: &'a Stmt) -> Result<Now<'a>, AllocError>
    ensures { IfOk result (λ n. IsGoing (stmt_view s.entry.now) (now_view n) (run_of m.old) (run_of m.new)) }
{
    match s {
        Stmt::Eval(_) | Stmt::Variable(_) | Stmt::Parameter(_, _) => match ran(m, s)? {
            Some(()) => Ok(Now::Left(Flow::Normal)),
            None => Ok(Now::Exec(s)),
        },
        Stmt::Block(variables, items) => {
            if !variables.as_slice().is_empty() {
                return Ok(Now::Exec(s));
            }
            let rest = ran_all(m, items.as_slice())?;
            if rest.is_empty() {
                return Ok(Now::Left(Flow::Normal));
            }
            Ok(Now::Run(rest))
        }
        Stmt::If(e, then) => match at_once(m, e.get())? {
            None => Ok(Now::Exec(s)),
            Some(v) => {
                if v == 0 {
                    return Ok(Now::Left(Flow::Normal));
                }
                going(m, then.get())
            }
        },
        Stmt::IfElse(e, then, other) => match at_once(m, e.get())? {
            None => Ok(Now::Exec(s)),
            Some(v) => {
                if v == 0 {
                    return going(m, other.get());
                }
                going(m, then.get())
            }
        },
        Stmt::ReturnValue(e) => match at_once(m, e.get())? {
            None => Ok(Now::Exec(s)),
            Some(v) => Ok(Now::Returned(v)),
        },
        Stmt::Return => Ok(Now::Returned(0)),
        Stmt::Break => Ok(Now::Left(Flow::Broke)),
        Stmt::Continue => Ok(Now::Left(Flow::Continued)),
        Stmt::Case(_) | Stmt::Default => Ok(Now::Left(Flow::Normal)),
        Stmt::Object(_, _) | Stmt::ParameterObject(_, _, _) => Ok(Now::Exec(s)),
        Stmt::While(_, _) | Stmt::Do(_, _) | Stmt::For(_, _) | Stmt::ForStep(_, _, _) => {
            Ok(Now::Exec(s))
        }
        Stmt::Switch(_, _, _) => Ok(Now::Exec(s)),
    }
}

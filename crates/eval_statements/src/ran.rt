//! Statements that run at once, with nothing pending.

ghost use Rattle.std.specs.Prelude.{◌≡◌, IfOk, MatchOption};
ghost use Rattle.typed_tree.specs.View.{stmt_view};
ghost use Rattle.eval_state.specs.Run.{run_of};
ghost use Rattle.eval_statements.specs.Ran.{IsRun};

use eval_simple::at_once;
use eval_state::Machine;
use std::alloc::AllocError;
use typed_tree::Stmt;

/// Runs a statement at once, where it has an end alone and its parts are simple; else nothing is done.
///
/// # Errors
/// Where memory is wanting.
#[tactic(auto, using(crate::proofs::AtOnce::ran, crate::proofs::Begins::views))]
pub(crate) fn ran(m: &mut Machine<'_>, s: &Stmt) -> Result<Option<()>, AllocError>
    ensures { IfOk result (λ found. MatchOption found (m.new ≡ m.old)
        (λ _. IsRun (stmt_view s.now) (run_of m.old) (run_of m.new))) }
{
    match s {
        Stmt::Eval(e) => match at_once(m, e.get())? {
            Some(_) => Ok(Some(())),
            None => Ok(None),
        },
        Stmt::Variable(i) => {
            if !m.spend_one() {
                return Ok(None);
            }
            m.set_variable(*i, 0)?;
            Ok(Some(()))
        }
        Stmt::Parameter(k, width) => {
            let v = m.passed(*k, *width);
            m.set_variable(*k, v)?;
            Ok(Some(()))
        }
        Stmt::Block(_, _) | Stmt::Object(_, _) | Stmt::ParameterObject(_, _, _) => Ok(None),
        Stmt::If(_, _) | Stmt::IfElse(_, _, _) | Stmt::While(_, _) | Stmt::Do(_, _) => Ok(None),
        Stmt::For(_, _) | Stmt::ForStep(_, _, _) | Stmt::Switch(_, _, _) => Ok(None),
        Stmt::Case(_) | Stmt::Default | Stmt::Break | Stmt::Continue => Ok(None),
        Stmt::Return | Stmt::ReturnValue(_) => Ok(None),
    }
}

//! What is done next: a part is evaluated, and a frame waits for its value.

ghost use Rattle.std.specs.Prelude.{IfOk};
ghost use Rattle.typed_tree.specs.View.{expr_view};
ghost use Rattle.eval_state.specs.Pending as pending;
ghost use Rattle.eval_state.specs.Run.{run_of};
ghost use Rattle.eval_state.specs.Views.{now_view, statement_frame};
ghost use Rattle.eval_simple.specs.Stepped.{IsPushed};

use eval_state::{Frame, Machine, Now, StatementFrame};
use std::alloc::AllocError;
use typed_tree::Expr;

/// An expression of a statement is evaluated, and a frame waits for its value.
///
/// # Errors
/// Where memory is wanting.
pub(crate) fn wait<'a>(
    m: &mut Machine<'a>,
    frame: StatementFrame<'a>,
    part: &'a Expr,
) -> Result<Now<'a>, AllocError>
    ensures { IfOk result (λ n. IsPushed (statement_frame frame.entry) (pending.Eval (expr_view part.entry.now))
        (now_view n) (run_of m.old) (run_of m.new)) }
{
    m.push(Frame::Statement(frame), Now::Eval(part))
}

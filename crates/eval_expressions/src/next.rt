//! What each step of an expression ends with: a frame that waits for a part, or a value.

ghost use Rattle.std.specs.Prelude.{◌≡◌, IfOk};
ghost use Rattle.typed_tree.specs.View.{expr_view};
ghost use Rattle.staged_meaning.specs.World.{spend};
ghost use Rattle.eval_state.specs.Pending as pending;
ghost use Rattle.eval_state.specs.Rest.{valued};
ghost use Rattle.eval_state.specs.Run.{leads, run_of, world};
ghost use Rattle.eval_state.specs.Views.{expression_frame, now_view};
ghost use Rattle.eval_simple.specs.Stepped.{IsPushed, IsStep};

use eval_state::{ExpressionFrame, Frame, Machine, Now};
use sqlite_items::Boxed;
use std::alloc::AllocError;
use typed_tree::Expr;

/// A part of an expression is evaluated, and a frame waits for its value.
///
/// # Errors
/// Where memory is wanting.
pub(crate) fn wait<'a>(
    m: &mut Machine<'a>,
    frame: ExpressionFrame<'a>,
    part: &'a Expr,
) -> Result<Now<'a>, AllocError>
    ensures { IfOk result (λ n. IsPushed (expression_frame frame.entry) (pending.Eval (expr_view part.entry.now))
        (now_view n) (run_of m.old) (run_of m.new)) }
{
    m.push(Frame::Expression(frame), Now::Eval(part))
}

/// The same of a part of a node, which the node holds in a box.
///
/// # Errors
/// Where memory is wanting.
pub(crate) fn open<'a>(
    m: &mut Machine<'a>,
    frame: ExpressionFrame<'a>,
    part: &'a Boxed<Expr>,
) -> Result<Now<'a>, AllocError>
    ensures { IfOk result (λ n. IsPushed (expression_frame frame.entry) (pending.Eval (expr_view part.entry.now))
        (now_view n) (run_of m.old) (run_of m.new)) }
{
    wait(m, frame, part.get())
}

/// A value is there, at a unit.
pub(crate) fn give<'a>(m: &mut Machine<'a>, v: u32) -> Now<'a>
    ensures { IsStep (leads (run_of m.old) (valued (spend v (world (run_of m.old))))) 1 (now_view result)
        (run_of m.old) (run_of m.new) }
{
    m.spend(Now::Value(v))
}

//! Arguments of calls, and the words of captures.

ghost use Rattle.std.specs.Prelude.{[], IfOk};
ghost use Rattle.eval_state.specs.Run.{run_of};
ghost use Rattle.eval_state.specs.Views.{args_view, now_view, target_view};
ghost use Rattle.eval_expressions.specs.Arguments.{IsComing};

use eval_simple::at_once;
use eval_stages::{call, call_number, specify_tick};
use eval_state::{ExpressionFrame, Frame, Machine, Now, Target};
use sqlite_items::Items;
use std::alloc::AllocError;
use typed_tree::Expr;

/// Begins with the first argument, or with what they are for.
pub(crate) fn first_argument<'a>(
    m: &mut Machine<'a>,
    target: Target<'a>,
    list: &'a [Expr],
) -> Result<Now<'a>, AllocError>
    ensures { IfOk result (λ n. IsComing (target_view target.entry) (args_view list.entry.now) [] (now_view n)
        (run_of m.old) (run_of m.new)) }
{
    let done = m.list();
    next_argument(m, target, list, done)
}

/// Goes on with the next argument, or with what they are for; `done` has those before.
pub(crate) fn next_argument<'a>(
    m: &mut Machine<'a>,
    target: Target<'a>,
    list: &'a [Expr],
    done: Items<u32>,
) -> Result<Now<'a>, AllocError>
    ensures { IfOk result (λ n. IsComing (target_view target.entry) (args_view list.entry.now) done (now_view n)
        (run_of m.old) (run_of m.new)) }
{
    let mut done = done;
    let mut rest = list;
    while let Some((e, more)) = rest.split_first() {
        match at_once(m, e)? {
            None => {
                let frame = ExpressionFrame::Argument(target, more, done);
                return m.push(Frame::Expression(frame), Now::Eval(e));
            }
            Some(v) => {
                done.push(v)?;
                rest = more;
            }
        }
    }
    match target {
        Target::Direct(answer, f) => call(m, answer, f, done),
        Target::Numbered(answer, f) => call_number(m, answer, f, done),
        Target::Specified(tick, list) => specify_tick(m, tick, list, done),
    }
}

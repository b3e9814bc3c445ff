//! Goes on with a value where something within an expression is pending on one.

ghost use Rattle.std.specs.Prelude.{◌≡◌, ◌+◌, ◌<◌, ◌≤◌, IfOk};
ghost use Rattle.staged_meaning.specs.World.{Gives};
ghost use Rattle.eval_state.specs.Rest.{Value, after};
ghost use Rattle.eval_state.specs.Less.{heft, held, waiting};
ghost use Rattle.eval_state.specs.Run.{here, leads, outcome, run_of, world};
ghost use Rattle.eval_state.specs.Views.{expression_frame, now_view};
ghost use Rattle.eval_simple.specs.Stepped.{IsTaken};

use crate::arguments::{first_argument, next_argument};
use crate::memory::{load, modified, modify, post, put};
use crate::next::{give, wait};
use crate::operands::first;
use crate::operators::second;
use crate::results::{both, choice, either, library, set_generated, set_variable, truth};
use eval_stages::{compile, specify_parameter};
use eval_state::{ExpressionFrame, Machine, Now, Target};
use meaning_operators::unary_value;
use std::alloc::AllocError;

/// Goes on with a value where a frame waits for one.
///
/// # Errors
/// Where memory is wanting.
pub fn value<'a>(
    m: &mut Machine<'a>,
    v: u32,
    frame: ExpressionFrame<'a>,
) -> Result<Now<'a>, AllocError>
    ensures same { IfOk result (λ n. outcome (now_view n) (run_of m.new) ≡ leads (run_of m.old)
        (after (here (run_of m.old)) (expression_frame frame.entry) (Gives (Value v) (world (run_of m.old))))) }
    ensures units { IfOk result (λ n. (run_of m.new).state.units ≤ (run_of m.old).state.units) }
    ensures less { IfOk result (λ n. (run_of m.new).state.units ≡ (run_of m.old).state.units
        → heft (now_view n) (run_of m.new) <
        waiting (expression_frame frame.entry) (run_of m.old) + held (run_of m.old)) }
{
    take(m, v, frame)
}

// Goes on by the kind of the frame.
fn take<'a>(m: &mut Machine<'a>, v: u32, frame: ExpressionFrame<'a>) -> Result<Now<'a>, AllocError>
    ensures { IfOk result (λ n. IsTaken (expression_frame frame.entry) v (now_view n) (run_of m.old) (run_of m.new)) }
{
    match frame {
        ExpressionFrame::SetVar(i) => set_variable(m, i, v),
        ExpressionFrame::SetGenerated(i) => set_generated(m, i, v),
        ExpressionFrame::Load(width) => Ok(load(m, width, v)),
        ExpressionFrame::StoreAddress(width, b) => {
            wait(m, ExpressionFrame::StoreValue(width, v), b)
        }
        ExpressionFrame::StoreValue(width, at) => Ok(put(m, width, at, v)),
        ExpressionFrame::ModifyAddress(width, kind, b) => modify(m, width, kind, b, v),
        ExpressionFrame::ModifyValue(place, kind, old) => Ok(modified(m, place, kind, old, v)),
        ExpressionFrame::Post(width, step) => Ok(post(m, width, step, v)),
        ExpressionFrame::First(kind, b) => first(m, kind, b, v),
        ExpressionFrame::Second(kind, x) => Ok(second(m, kind, x, v)),
        ExpressionFrame::Un(kind) => Ok(give(m, unary_value(kind, v))),
        ExpressionFrame::And(b) => both(m, b, v),
        ExpressionFrame::Or(b) => either(m, b, v),
        ExpressionFrame::Truth => Ok(truth(m, v)),
        ExpressionFrame::Cond(a, b) => choice(m, a, b, v),
        ExpressionFrame::Spend => Ok(give(m, v)),
        ExpressionFrame::Comma(b) => Ok(Now::Eval(b)),
        ExpressionFrame::Void => Ok(Now::Value(0)),
        ExpressionFrame::Lib(kind) => library(m, kind, v),
        ExpressionFrame::Compile => compile(m, v),
        ExpressionFrame::ParamOf => specify_parameter(m, v),
        ExpressionFrame::Function(answer, list) => {
            first_argument(m, Target::Numbered(answer, v), list)
        }
        ExpressionFrame::Argument(target, more, done) => {
            let mut done = done;
            done.push(v)?;
            next_argument(m, target, more, done)
        }
    }
}

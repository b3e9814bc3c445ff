//! Goes on with a value, or behind a statement, where something within a statement is pending on it.

ghost use Rattle.std.specs.Prelude.{◌≡◌, ◌+◌, ◌<◌, ◌≤◌, IfOk};
ghost use Rattle.staged_meaning.specs.World.{Gives};
ghost use Rattle.eval_state.specs.Rest.{Left, Value, after};
ghost use Rattle.eval_state.specs.Less.{heft, held, waiting};
ghost use Rattle.eval_state.specs.Run.{here, leads, outcome, run_of, world};
ghost use Rattle.eval_state.specs.Views.{end_frame, flow_view, now_view, statement_frame};
ghost use Rattle.eval_simple.specs.Stepped.{IsEnded, IsTaken};

use crate::loops::{again, continued, rounded, step_on, test, turned};
use crate::switches::choose;
use eval_state::{EndFrame, Flow, Frame, Machine, Now, StatementFrame};
use std::alloc::AllocError;

/// Goes on with a value where a frame waits for one.
///
/// # Errors
/// Where memory is wanting.
pub fn value<'a>(
    m: &mut Machine<'a>,
    v: u32,
    frame: StatementFrame<'a>,
) -> Result<Now<'a>, AllocError>
    ensures same { IfOk result (λ n. outcome (now_view n) (run_of m.new) ≡ leads (run_of m.old)
        (after (here (run_of m.old)) (statement_frame frame.entry) (Gives (Value v) (world (run_of m.old))))) }
    ensures units { IfOk result (λ n. (run_of m.new).state.units ≤ (run_of m.old).state.units) }
    ensures less { IfOk result (λ n. (run_of m.new).state.units ≡ (run_of m.old).state.units
        → heft (now_view n) (run_of m.new) <
        waiting (statement_frame frame.entry) (run_of m.old) + held (run_of m.old)) }
{
    take(m, v, frame)
}

// Goes on with a value by the kind of the frame.
fn take<'a>(m: &mut Machine<'a>, v: u32, frame: StatementFrame<'a>) -> Result<Now<'a>, AllocError>
    ensures { IfOk result (λ n. IsTaken (statement_frame frame.entry) v (now_view n) (run_of m.old) (run_of m.new)) }
{
    match frame {
        StatementFrame::Drop => Ok(Now::Left(Flow::Normal)),
        StatementFrame::If(s) => {
            if v == 0 {
                return Ok(Now::Left(Flow::Normal));
            }
            Ok(Now::Exec(s))
        }
        StatementFrame::IfElse(s, t) => {
            if v == 0 {
                return Ok(Now::Exec(t));
            }
            Ok(Now::Exec(s))
        }
        StatementFrame::Test(more, e, step, s) => test(m, v, more, e, step, s),
        StatementFrame::Step(more, e, step, s) => turned(m, more, e, Some(step), s),
        StatementFrame::RoundTest(more, s, e) => rounded(m, v, more, s, e),
        StatementFrame::ContinuedTest(more, s, e) => again(m, v, more, s, e),
        StatementFrame::Switch(variables, items) => {
            m.push(Frame::End(EndFrame::Chosen(v, items)), Now::Run(variables))
        }
        StatementFrame::Return => Ok(Now::Returned(v)),
    }
}

/// Goes on behind a statement where a frame waits for its end.
///
/// # Errors
/// Where memory is wanting.
pub fn flow<'a>(m: &mut Machine<'a>, left: Flow, frame: EndFrame<'a>) -> Result<Now<'a>, AllocError>
    ensures same { IfOk result (λ n. outcome (now_view n) (run_of m.new) ≡ leads (run_of m.old)
        (after (here (run_of m.old)) (end_frame frame.entry) (Gives (Left (flow_view left)) (world (run_of m.old))))) }
    ensures units { IfOk result (λ n. (run_of m.new).state.units ≤ (run_of m.old).state.units) }
    ensures less { IfOk result (λ n. (run_of m.new).state.units ≡ (run_of m.old).state.units
        → heft (now_view n) (run_of m.new) <
        waiting (end_frame frame.entry) (run_of m.old) + held (run_of m.old)) }
{
    pass(m, left, frame)
}

// Goes on behind a statement by the kind of the frame: a break ends a loop or a switch, and a continue a turn.
fn pass<'a>(m: &mut Machine<'a>, left: Flow, frame: EndFrame<'a>) -> Result<Now<'a>, AllocError>
    ensures { IfOk result (λ n. IsEnded (end_frame frame.entry) (flow_view left) (now_view n) (run_of m.old)
        (run_of m.new)) }
{
    match frame {
        EndFrame::Rest(list) => match left {
            Flow::Normal => Ok(Now::Run(list)),
            Flow::Broke => Ok(Now::Left(Flow::Broke)),
            Flow::Continued => Ok(Now::Left(Flow::Continued)),
        },
        EndFrame::Turn(more, e, step, s) => match left {
            Flow::Normal => step_on(m, more, e, step, s),
            Flow::Broke => Ok(m.spend(Now::Left(Flow::Normal))),
            Flow::Continued => step_on(m, more, e, step, s),
        },
        EndFrame::Round(more, s, e) => match left {
            Flow::Normal => m.push(
                Frame::Statement(StatementFrame::RoundTest(more, s, e)),
                Now::Eval(e),
            ),
            Flow::Broke => Ok(m.spend(Now::Left(Flow::Normal))),
            Flow::Continued => continued(m, more, s, e),
        },
        EndFrame::Chosen(v, items) => match left {
            Flow::Normal => choose(m, v, items),
            Flow::Broke => Ok(Now::Left(Flow::Broke)),
            Flow::Continued => Ok(Now::Left(Flow::Continued)),
        },
        EndFrame::SwitchEnd => match left {
            Flow::Normal => Ok(Now::Left(Flow::Normal)),
            Flow::Broke => Ok(Now::Left(Flow::Normal)),
            Flow::Continued => Ok(Now::Left(Flow::Continued)),
        },
    }
}

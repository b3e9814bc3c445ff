//! The steps of an evaluation: what is done now is begun, or goes on with what was pending.

ghost use Rattle.std.specs.Prelude.{◌≡◌, ◌≤◌, ◌<◌, ◌+◌, IfOk};
ghost use Rattle.staged_meaning.specs.Expressions.{left_by};
ghost use Rattle.staged_meaning.specs.World.{Gives};
ghost use Rattle.eval_state.specs.Rest.{Left, Value, after};
ghost use Rattle.eval_state.specs.Less.{heft, held, waiting};
ghost use Rattle.eval_state.specs.Run.{Run, here, leads, outcome, run_of, world};
ghost use Rattle.eval_state.specs.declared.parts.Now.TheVariants as now;
ghost use Rattle.eval_state.specs.Views.{expression_frame, flow_view, frame_view, now_view, statement_frame};
ghost use Rattle.evaluate.specs.Arrives.{arrives, returned, taken};
ghost use Rattle.evaluate.specs.Seen.{IsOver};

use eval_direct::direct;
use eval_expressions::eval;
use eval_simple::at_once;
use eval_state::{ExpressionFrame, Flow, Frame, Machine, Now, Popped, StatementFrame};
use eval_statements::{exec, run};
use std::alloc::AllocError;
use typed_tree::{Answer, Expr};

// What a call leaves: of a function without a value, 0.
fn left_by(answer: Answer, v: u32) -> u32
    ensures { result ≡ left_by answer v }
{
    match answer {
        Answer::Value => v,
        Answer::Void => 0,
    }
}

// A value arrives where a frame within a body waits for one, or lets it pass.
#[tactic(auto, using(crate::proofs::Passing::passing))]
fn value<'a>(m: &mut Machine<'a>, v: u32, frame: Frame<'a>) -> Result<Now<'a>, AllocError>
    ensures same { IfOk result (λ n. outcome (now_view n) (run_of m.new) ≡ leads (run_of m.old)
        (after (here (run_of m.old)) (frame_view frame.entry) (Gives (Value v) (world (run_of m.old))))) }
    ensures units { IfOk result (λ n. (run_of m.new).state.units ≤ (run_of m.old).state.units) }
    ensures less { IfOk result (λ n. (run_of m.new).state.units ≡ (run_of m.old).state.units
        → heft (now_view n) (run_of m.new) < waiting (frame_view frame.entry) (run_of m.old) + held (run_of m.old)) }
{
    match frame {
        Frame::Expression(frame) => eval_expressions::value(m, v, frame),
        Frame::Statement(frame) => eval_statements::value(m, v, frame),
        Frame::End(_) => Ok(Now::Value(v)),
    }
}

// A statement was left where a part of an expression was waited for.
#[tactic(auto, using(crate::proofs::Passing::passing))]
fn past_expression<'a>(left: Flow, frame: ExpressionFrame<'a>) -> Now<'a>
    ensures same { (r : Run) → outcome (now_view result) r
        ≡ leads r (after (here r) (expression_frame frame.entry) (Gives (Left (flow_view left)) (world r))) }
    ensures less { (r : Run) → heft (now_view result) r < waiting (expression_frame frame.entry) r + held r }
{
    drop(frame);
    Now::Left(left)
}

// A statement was left where the value of an expression was waited for.
#[tactic(auto, using(crate::proofs::Passing::passing))]
fn past_statement<'a>(left: Flow, frame: StatementFrame<'a>) -> Now<'a>
    ensures same { (r : Run) → outcome (now_view result) r
        ≡ leads r (after (here r) (statement_frame frame.entry) (Gives (Left (flow_view left)) (world r))) }
    ensures less { (r : Run) → heft (now_view result) r < waiting (statement_frame frame.entry) r + held r }
{
    drop(frame);
    Now::Left(left)
}

// A statement was left where a frame within a body waits for its end, or lets it pass.
#[tactic(auto, using(crate::proofs::Passing::passing))]
fn flow<'a>(m: &mut Machine<'a>, left: Flow, frame: Frame<'a>) -> Result<Now<'a>, AllocError>
    ensures same { IfOk result (λ n. outcome (now_view n) (run_of m.new) ≡ leads (run_of m.old)
        (after (here (run_of m.old)) (frame_view frame.entry)
        (Gives (Left (flow_view left)) (world (run_of m.old))))) }
    ensures units { IfOk result (λ n. (run_of m.new).state.units ≤ (run_of m.old).state.units) }
    ensures less { IfOk result (λ n. (run_of m.new).state.units ≡ (run_of m.old).state.units
        → heft (now_view n) (run_of m.new) < waiting (frame_view frame.entry) (run_of m.old) + held (run_of m.old)) }
{
    match frame {
        Frame::End(frame) => eval_statements::flow(m, left, frame),
        Frame::Expression(frame) => Ok(past_expression(left, frame)),
        Frame::Statement(frame) => Ok(past_statement(left, frame)),
    }
}

// A value arrives where it was waited for.
#[tactic(auto, using(crate::proofs::Steps::arriving))]
fn value_arrives<'a>(m: &mut Machine<'a>, v: u32, popped: Popped<'a>) -> Result<Now<'a>, AllocError>
    ensures same { IfOk result (λ n. outcome (now_view n) (run_of m.new)
        ≡ leads (run_of m.old) (arrives popped.entry (Value v) (run_of m.old))) }
    ensures units { IfOk result (λ n. (run_of m.new).state.units ≤ (run_of m.old).state.units) }
    ensures less { IfOk result (λ n. (run_of m.new).state.units ≡ (run_of m.old).state.units
        → heft (now_view n) (run_of m.new) < taken popped.entry (run_of m.old) + held (run_of m.old)) }
{
    match popped {
        Popped::Inside(frame) => value(m, v, frame),
        Popped::Called(answer) => Ok(m.spend(Now::Value(left_by(answer, v)))),
        Popped::Spliced(answer) => Ok(Now::Value(left_by(answer, v))),
    }
}

// A statement was left where its end was waited for; a body that runs off its end answers 0.
#[tactic(auto, using(crate::proofs::Steps::arriving))]
fn flow_arrives<'a>(
    m: &mut Machine<'a>,
    left: Flow,
    popped: Popped<'a>,
) -> Result<Now<'a>, AllocError>
    ensures same { IfOk result (λ n. outcome (now_view n) (run_of m.new)
        ≡ leads (run_of m.old) (arrives popped.entry (Left (flow_view left)) (run_of m.old))) }
    ensures units { IfOk result (λ n. (run_of m.new).state.units ≤ (run_of m.old).state.units) }
    ensures less { IfOk result (λ n. (run_of m.new).state.units ≡ (run_of m.old).state.units
        → heft (now_view n) (run_of m.new) < taken popped.entry (run_of m.old) + held (run_of m.old)) }
{
    match popped {
        Popped::Inside(frame) => flow(m, left, frame),
        Popped::Called(answer) => Ok(m.spend(Now::Value(left_by(answer, 0)))),
        Popped::Spliced(answer) => Ok(Now::Value(left_by(answer, 0))),
    }
}

// A function is left with a value: what is pending in it goes, up to its call.
#[tactic(auto, using(crate::proofs::Steps::arriving))]
fn return_passes<'a>(m: &mut Machine<'a>, v: u32, popped: Popped<'a>) -> Now<'a>
    ensures same { outcome (now_view result) (run_of m.new)
        ≡ leads (run_of m.old) (returned popped.entry v (run_of m.old)) }
    ensures units { (run_of m.new).state.units ≤ (run_of m.old).state.units }
    ensures less { (run_of m.new).state.units ≡ (run_of m.old).state.units
        → heft (now_view result) (run_of m.new) ≤ held (run_of m.old) }
{
    match popped {
        Popped::Inside(_) | Popped::Spliced(_) => Now::Returned(v),
        Popped::Called(answer) => m.spend(Now::Value(left_by(answer, v))),
    }
}

// An expression is evaluated: at once where it is simple, and else its first part.
fn begin<'a>(m: &mut Machine<'a>, e: &'a Expr) -> Result<Now<'a>, AllocError>
    ensures same { IfOk result (λ n. outcome (now_view n) (run_of m.new)
        ≡ outcome (now_view (now.Eval e.entry)) (run_of m.old)) }
    ensures units { IfOk result (λ n. (run_of m.new).state.units ≤ (run_of m.old).state.units) }
    ensures less { IfOk result (λ n. (run_of m.new).state.units ≡ (run_of m.old).state.units
        → heft (now_view n) (run_of m.new) < heft (now_view (now.Eval e.entry)) (run_of m.old)) }
{
    match at_once(m, e)? {
        Some(v) => Ok(Now::Value(v)),
        None => goes(m, e),
    }
}

// Does what is done next, once.
#[tactic(auto, using(crate::proofs::Steps::steps))]
fn once<'a>(m: &mut Machine<'a>, now: Now<'a>) -> Result<Now<'a>, AllocError>
    ensures same { IfOk result (λ n. outcome (now_view n) (run_of m.new)
        ≡ outcome (now_view now.entry) (run_of m.old)) }
    ensures units { IfOk result (λ n. (run_of m.new).state.units ≤ (run_of m.old).state.units) }
    ensures less { (IsOver now.entry (run_of m.old) → ⊥) → IfOk result (λ n.
        (run_of m.new).state.units ≡ (run_of m.old).state.units
        → heft (now_view n) (run_of m.new) < heft (now_view now.entry) (run_of m.old)) }
{
    match now {
        Now::Eval(e) => begin(m, e),
        Now::Exec(s) => exec(m, s),
        Now::Run(list) => run(m, list),
        Now::Ended(_) | Now::Stopped => Ok(now),
        Now::Value(v) => match m.pop() {
            None => Ok(now),
            Some(popped) => value_arrives(m, v, popped),
        },
        Now::Left(left) => match m.pop() {
            None => Ok(now),
            Some(popped) => flow_arrives(m, left, popped),
        },
        Now::Returned(v) => match m.leave() {
            None => Ok(now),
            Some(popped) => Ok(return_passes(m, v, popped)),
        },
    }
}

// Evaluates an expression that isn't evaluated at once: on the host's stack as far as that goes, and then a step more.
fn goes<'a>(m: &mut Machine<'a>, e: &'a Expr) -> Result<Now<'a>, AllocError>
    ensures same { IfOk result (λ n. outcome (now_view n) (run_of m.new)
        ≡ outcome (now_view (now.Eval e.entry)) (run_of m.old)) }
    ensures units { IfOk result (λ n. (run_of m.new).state.units ≤ (run_of m.old).state.units) }
    ensures less { IfOk result (λ n. (run_of m.new).state.units ≡ (run_of m.old).state.units
        → heft (now_view n) (run_of m.new) < heft (now_view (now.Eval e.entry)) (run_of m.old)) }
{
    let next = direct(m, e)?;
    match next {
        Now::Eval(e) => eval(m, e),
        Now::Exec(s) => exec(m, s),
        Now::Run(list) => run(m, list),
        Now::Value(_) | Now::Left(_) | Now::Returned(_) => Ok(next),
        Now::Ended(_) | Now::Stopped => Ok(next),
    }
}

// Goes on where a part of an expression is evaluated, of which it is known that it isn't at once.
fn further<'a>(m: &mut Machine<'a>, next: Now<'a>) -> Result<Now<'a>, AllocError>
    ensures same { IfOk result (λ n. outcome (now_view n) (run_of m.new)
        ≡ outcome (now_view next.entry) (run_of m.old)) }
    ensures units { IfOk result (λ n. (run_of m.new).state.units ≤ (run_of m.old).state.units) }
    ensures less { IfOk result (λ n. (run_of m.new).state.units ≡ (run_of m.old).state.units
        → heft (now_view n) (run_of m.new) ≤ heft (now_view next.entry) (run_of m.old)) }
{
    match next {
        Now::Eval(e) => goes(m, e),
        Now::Exec(_) | Now::Run(_) | Now::Value(_) | Now::Left(_) | Now::Returned(_) => Ok(next),
        Now::Ended(_) | Now::Stopped => Ok(next),
    }
}

/// Does what is done next, and goes on into the expression that it begins with.
pub(crate) fn step<'a>(m: &mut Machine<'a>, now: Now<'a>) -> Result<Now<'a>, AllocError>
    ensures same { IfOk result (λ n. outcome (now_view n) (run_of m.new)
        ≡ outcome (now_view now.entry) (run_of m.old)) }
    ensures units { IfOk result (λ n. (run_of m.new).state.units ≤ (run_of m.old).state.units) }
    ensures less { (IsOver now.entry (run_of m.old) → ⊥) → IfOk result (λ n.
        (run_of m.new).state.units ≡ (run_of m.old).state.units
        → heft (now_view n) (run_of m.new) < heft (now_view now.entry) (run_of m.old)) }
{
    let first = once(m, now)?;
    let next = further(m, first)?;
    further(m, next)
}

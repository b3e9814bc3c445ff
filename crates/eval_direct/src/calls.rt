//! Calls.

ghost use Rattle.std.specs.Prelude.{◌≡◌, ◌+◌, ◌^◌, ◌<◌, ◌≤◌, []};
ghost use Rattle.limits.specs.declared.program.TheConstants.{SIZE_LIMIT};
ghost use Rattle.typed_tree.specs.Nodes as node;
ghost use Rattle.typed_tree.specs.View.{expr_view, stmt_view};
ghost use Rattle.staged_meaning.specs.Expressions.{left_by};
ghost use Rattle.staged_meaning.specs.Meaning.{eval};
ghost use Rattle.staged_meaning.specs.Size.{charge_of};
ghost use Rattle.staged_meaning.specs.World.{spend};
ghost use Rattle.eval_state.specs.Kept.{body_view};
ghost use Rattle.eval_state.specs.Late.{IsCallee, out_of};
ghost use Rattle.eval_state.specs.Less.{loaded};
ghost use Rattle.eval_state.specs.Pending as pending;
ghost use Rattle.eval_state.specs.Rest.{after, resumed, spent, targeted, valued};
ghost use Rattle.eval_state.specs.Run.{here, run_of, world};
ghost use Rattle.eval_state.specs.Sound.{calls};
ghost use Rattle.eval_state.specs.Views.{args_view};
ghost use Rattle.eval_state.specs.declared.parts.ExpressionFrame.TheVariants as expression;
ghost use Rattle.eval_state.specs.declared.parts.Frame.TheVariants as frame;
ghost use Rattle.eval_state.specs.declared.parts.Target.TheVariants as target;
ghost use Rattle.eval_state.specs.declared.state.Entry.TheVariants as entry;
ghost use Rattle.eval_direct.specs.Came.{HasMore, IsCame};
ghost use Rattle.eval_direct.specs.declared.came.Came.TheVariants.{NoMemory};

use crate::came::{Came, Late, Went, later, waits};
use crate::expressions::{came, part};
use crate::statements::statement;
use eval_state::{Body, Entry, ExpressionFrame, Frame, Machine, Now, Target, charge_of};
use sqlite_items::Items;
use typed_tree::{Answer, Expr, Function};

// What a call leaves: of a function without a value, 0.
fn left_by(answer: Answer, v: u32) -> u32
    ensures { result ≡ left_by answer v }
{
    match answer {
        Answer::Value => v,
        Answer::Void => 0,
    }
}

/// Calls the function of a number.
#[cycle(direct)]
pub(crate) fn call<'a>(
    m: &mut Machine<'a>,
    late: &mut Late<'a>,
    e: &'a Expr,
    answer: Answer,
    f: u32,
    list: &'a [Expr],
    depth: u32,
) -> Came
    requires { (late.old.entries ≡ []) × (expr_view e.now ≡ node.Call answer f (args_view list.now)) }
    ensures { IsCame result late.new (run_of m.old) (run_of m.new)
        (valued (eval (here (run_of m.old)) (expr_view e.now) (world (run_of m.old))))
        (loaded (pending.Eval (expr_view e.now)) (run_of m.old)) }
{
    let mut done = m.list();
    let mut rest = list;
    while let Some((a, more)) = rest.split_first() {
        match part(m, late, a, depth) {
            Came::Value(v) => {
                match done.push(v) {
                    Ok(()) => {}
                    Err(_) => return Came::NoMemory,
                }
                rest = more;
            }
            Came::Later => return argument_waits(late, answer, f, more, done),
            Came::NoMemory => return Came::NoMemory,
        }
    }
    called(m, late, e, answer, f, rest, done, depth)
}

// An argument waits, with those before it.
fn argument_waits<'a>(
    late: &mut Late<'a>,
    answer: Answer,
    f: u32,
    more: &'a [Expr],
    done: Items<u32>,
) -> Came
    ensures { HasMore result
        (entry.Inside (frame.Expression (expression.Argument (target.Direct answer f) more.entry done)))
        late.old late.new }
{
    let target = Target::Direct(answer, f);
    waits(
        late,
        Entry::Inside(Frame::Expression(ExpressionFrame::Argument(target, more, done))),
    )
}

// Its arguments are there.
#[cycle(direct)]
fn called<'a>(
    m: &mut Machine<'a>,
    late: &mut Late<'a>,
    e: &'a Expr,
    answer: Answer,
    f: u32,
    rest: &'a [Expr],
    done: Items<u32>,
    depth: u32,
) -> Came
    requires { (late.old.entries ≡ []) × (rest.now ≡ [])
        × (4 ≤ loaded (pending.Eval (expr_view e.now)) (run_of m.old))
        × (done ≡ [] → valued (targeted (here (run_of m.old)) (pending.Direct answer f) done (world (run_of m.old)))
        ≡ valued (eval (here (run_of m.old)) (expr_view e.now) (world (run_of m.old)))) }
    ensures { IsCame result late.new (run_of m.old) (run_of m.new)
        (valued (targeted (here (run_of m.old)) (pending.Direct answer f) done (world (run_of m.old))))
        (loaded (pending.Eval (expr_view e.now)) (run_of m.old)) }
{
    match m.callee(f) {
        None => other(m, late, e, answer, f, rest, done),
        Some(function) => entered(m, late, answer, f, function, done, depth),
    }
}

// Another call, which goes step by step: its last argument arrives.
#[inline(never)]
fn other<'a>(
    m: &mut Machine<'a>,
    late: &mut Late<'a>,
    e: &'a Expr,
    answer: Answer,
    f: u32,
    rest: &'a [Expr],
    done: Items<u32>,
) -> Came
    requires { (late.old.entries ≡ []) × (rest.now ≡ [])
        × (4 ≤ loaded (pending.Eval (expr_view e.now)) (run_of m.old))
        × (done ≡ [] → valued (targeted (here (run_of m.old)) (pending.Direct answer f) done (world (run_of m.old)))
        ≡ valued (eval (here (run_of m.old)) (expr_view e.now) (world (run_of m.old)))) }
    ensures { IsCame result late.new (run_of m.old) (run_of m.new)
        (valued (targeted (here (run_of m.old)) (pending.Direct answer f) done (world (run_of m.old))))
        (loaded (pending.Eval (expr_view e.now)) (run_of m.old)) }
{
    let mut before = done;
    match before.pop() {
        None => later(late, Now::Eval(e)),
        Some(last) => {
            later(late, Now::Value(last));
            argument_waits(late, answer, f, rest, before)
        }
    }
}

// The function is entered.
#[cycle(direct)]
fn entered<'a>(
    m: &mut Machine<'a>,
    late: &mut Late<'a>,
    answer: Answer,
    f: u32,
    function: &'a Function,
    done: Items<u32>,
    depth: u32,
) -> Came
    requires { (late.old.entries ≡ []) × IsCallee f function.now m.old }
    ensures { IsCame result late.new (run_of m.old) (run_of m.new)
        (valued (targeted (here (run_of m.old)) (pending.Direct answer f) done (world (run_of m.old)))) 4 }
{
    m.keeps_law();
    match m.enter_body(function, done) {
        Err(_) => Came::NoMemory,
        Ok(caller) => body(m, late, answer, function, caller, depth),
    }
}

// Its body is active.
#[cycle(direct)]
fn body<'a>(
    m: &mut Machine<'a>,
    late: &mut Late<'a>,
    answer: Answer,
    function: &'a Function,
    caller: Body,
    depth: u32,
) -> Came
    requires { (late.old.entries ≡ []) × (caller.row ≡ 0) × (m.old.depth + calls m.old.entries + 1 < 2 ^ 64)
        × (function.now.size ≤ SIZE_LIMIT) }
    ensures { IsCame result late.new (out_of (body_view [] caller) (run_of m.old)) (run_of m.new)
        (after (here (run_of m.old))
        (pending.Called answer (charge_of function.entry.now.size) (body_view [] caller))
        (spent (here (run_of m.old)) (world (run_of m.old)).units (pending.Exec (stmt_view function.entry.now.body))
        (world (run_of m.old)))) 4 }
{
    if !m.spend_one() {
        later(late, Now::Stopped);
        return waits(
            late,
            Entry::Called(answer, charge_of(function.size), caller),
        );
    }
    match statement(m, late, function.body.get(), depth) {
        Went::Through => left(
            m,
            late,
            left_by(answer, 0),
            charge_of(function.size),
            caller,
        ),
        Went::Returned(v) => left(
            m,
            late,
            left_by(answer, v),
            charge_of(function.size),
            caller,
        ),
        Went::Later => waits(
            late,
            Entry::Called(answer, charge_of(function.size), caller),
        ),
        Went::NoMemory => lost(caller),
    }
}

// Memory is wanting, and its caller is let go.
fn lost(caller: Body) -> Came
    ensures { result ≡ NoMemory }
{
    drop(caller);
    Came::NoMemory
}

// Its body was left, with a value.
#[inline(always)]
fn left<'a>(m: &mut Machine<'a>, late: &mut Late<'a>, v: u32, charge: u32, caller: Body) -> Came
    requires { (late.old.entries ≡ []) × (caller.row ≡ 0) × (m.old.depth + calls m.old.entries + 1 < 2 ^ 64) }
    ensures { IsCame result late.new (out_of (body_view [] caller) (run_of m.old)) (run_of m.new)
        (valued (spend v (resumed (body_view [] caller) charge (run_of m.old).state.body.object
        (world (run_of m.old))))) 1 }
{
    m.back(charge, caller);
    came(m, late, v)
}

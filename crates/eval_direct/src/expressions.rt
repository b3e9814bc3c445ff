//! Expressions with calls in them.

ghost use Rattle.std.specs.Prelude.{◌≡◌, ◌+◌, ◌^◌, ◌<◌, ◌≤◌, [], IfOk};
ghost use Rattle.typed_tree.specs.Nodes as node;
ghost use Rattle.typed_tree.specs.View.{expr_view};
ghost use Rattle.staged_meaning.specs.Meaning.{eval, exec};
ghost use Rattle.staged_meaning.specs.World.{Gives, spend};
ghost use Rattle.eval_state.specs.Late.{AreLocal, frames_of, with_frames};
ghost use Rattle.eval_state.specs.Less.{heft, loaded};
ghost use Rattle.eval_state.specs.Pending as pending;
ghost use Rattle.eval_state.specs.Rest.{Value, after, left, operated, valued};
ghost use Rattle.eval_state.specs.Run.{here, outcome, run_of, world};
ghost use Rattle.eval_state.specs.Sound.{calls};
ghost use Rattle.eval_state.specs.Views.{now_view};
ghost use Rattle.eval_state.specs.declared.parts.Now.TheVariants as now;
ghost use Rattle.eval_direct.specs.Came.{IsCame, IsWent, ready};

use crate::calls::call;
use crate::came::{Came, Late, Went, later, rests, waits};
use eval_simple::simple;
use eval_state::{Entry, ExpressionFrame, Frame, Machine, Now, StatementFrame};
use icode_ops::BinKind;
use meaning_operators::binary_value;
use std::alloc::AllocError;
use typed_tree::Expr;

// How deep calls may be on the host's stack: so deep is the stack that they take.
const DEPTH: u32 = 4096;

/// Evaluates an expression that isn't evaluated at once, on the host's stack as far as its depth allows: what is done
/// next.
///
/// # Errors
/// Where memory is wanting.
pub fn direct<'a>(m: &mut Machine<'a>, e: &'a Expr) -> Result<Now<'a>, AllocError>
    ensures same { IfOk result (λ n. outcome (now_view n) (run_of m.new)
        ≡ outcome (now_view (now.Eval e.entry)) (run_of m.old)) }
    ensures units { IfOk result (λ n. (run_of m.new).state.units ≤ (run_of m.old).state.units) }
    ensures less { IfOk result (λ n. (run_of m.new).state.units ≡ (run_of m.old).state.units
        → heft (now_view n) (run_of m.new) + ready (now_view n) ≤ heft (now_view (now.Eval e.entry)) (run_of m.old)) }
{
    if !sets_call(e) {
        return Ok(Now::Eval(e));
    }
    let mut late = Late {
        next: Now::Stopped,
        entries: m.nothing_waits(),
    };
    m.keeps_law();
    match compound(m, &mut late, e, DEPTH) {
        Came::Value(v) => Ok(value_of(late, v)),
        Came::Later => settled(m, late),
        Came::NoMemory => Err(lost(late)),
    }
}

// A value is there, and nothing waits for it.
fn value_of<'a>(late: Late<'a>, v: u32) -> Now<'a>
    ensures { result ≡ now.Value v }
{
    drop(late);
    Now::Value(v)
}

// Memory is wanting.
fn lost(late: Late<'_>) -> AllocError {
    drop(late);
    AllocError
}

// What waits is pending from now on: what is done next.
fn settled<'a>(m: &mut Machine<'a>, late: Late<'a>) -> Result<Now<'a>, AllocError>
    requires { AreLocal late.entries × (m.old.depth + calls m.old.entries + calls late.entries < 2 ^ 64) }
    ensures { IfOk result (λ n. (n ≡ late.entry.next)
        × (run_of m.new ≡ with_frames (frames_of late.entry.entries) (run_of m.old))) }
{
    let Late { next, entries } = late;
    m.settle(entries)?;
    Ok(next)
}

// Evaluates an expression by its kind.
#[cycle(direct)]
pub(crate) fn compound<'a>(
    m: &mut Machine<'a>,
    late: &mut Late<'a>,
    e: &'a Expr,
    depth: u32,
) -> Came
    requires { late.old.entries ≡ [] }
    ensures { IsCame result late.new (run_of m.old) (run_of m.new)
        (valued (eval (here (run_of m.old)) (expr_view e.now) (world (run_of m.old))))
        (loaded (pending.Eval (expr_view e.now)) (run_of m.old)) }
{
    match e {
        Expr::Bin(kind, a, b) if depth != 0 => binary(m, late, *kind, a.get(), b.get(), depth - 1),
        Expr::Call(answer, f, list) if depth != 0 => {
            call(m, late, e, *answer, *f, list.as_slice(), depth - 1)
        }
        Expr::SetVar(i, a) if depth != 0 => set_variable(m, late, *i, a.get(), depth - 1),
        _ => later(late, Now::Eval(e)),
    }
}

// Whether it is seen right away that an expression isn't evaluated at once.
#[inline(always)]
fn is_call(e: &Expr) -> bool {
    match e {
        Expr::Call(_, _, _) => true,
        _ => false,
    }
}

// Whether it is seen at its operands.
#[inline(always)]
fn has_call(e: &Expr) -> bool {
    match e {
        Expr::Bin(_, a, b) => is_call(a.get()) || is_call(b.get()),
        _ => is_call(e),
    }
}

// Whether it is seen at its operands, or at those of what it sets.
fn sets_call(e: &Expr) -> bool {
    match e {
        Expr::SetVar(_, a) => has_call(a.get()),
        _ => has_call(e),
    }
}

/// A part.
#[cycle(direct)]
#[inline(always)]
pub(crate) fn part<'a>(m: &mut Machine<'a>, late: &mut Late<'a>, e: &'a Expr, depth: u32) -> Came
    requires { late.old.entries ≡ [] }
    ensures { IsCame result late.new (run_of m.old) (run_of m.new)
        (valued (eval (here (run_of m.old)) (expr_view e.now) (world (run_of m.old))))
        (loaded (pending.Eval (expr_view e.now)) (run_of m.old)) }
{
    if has_call(e) {
        return compound(m, late, e, depth);
    }
    match simple(m, e) {
        Some(v) => Came::Value(v),
        None => compound(m, late, e, depth),
    }
}

// An operator on two operands.
#[cycle(direct)]
fn binary<'a>(
    m: &mut Machine<'a>,
    late: &mut Late<'a>,
    kind: BinKind,
    a: &'a Expr,
    b: &'a Expr,
    depth: u32,
) -> Came
    requires { late.old.entries ≡ [] }
    ensures { IsCame result late.new (run_of m.old) (run_of m.new)
        (valued (eval (here (run_of m.old)) (node.Bin kind (expr_view a.now) (expr_view b.now)) (world (run_of m.old))))
        (loaded (pending.Eval (node.Bin kind (expr_view a.now) (expr_view b.now))) (run_of m.old)) }
{
    match part(m, late, a, depth) {
        Came::Value(x) => second(m, late, kind, x, b, depth),
        Came::Later => waits(
            late,
            Entry::Inside(Frame::Expression(ExpressionFrame::First(kind, b))),
        ),
        Came::NoMemory => Came::NoMemory,
    }
}

// The first operand is there.
#[cycle(direct)]
fn second<'a>(
    m: &mut Machine<'a>,
    late: &mut Late<'a>,
    kind: BinKind,
    x: u32,
    b: &'a Expr,
    depth: u32,
) -> Came
    requires { late.old.entries ≡ [] }
    ensures { IsCame result late.new (run_of m.old) (run_of m.new)
        (after (here (run_of m.old)) (pending.First kind (expr_view b.now)) (Gives (Value x) (world (run_of m.old))))
        (loaded (pending.Eval (expr_view b.now)) (run_of m.old) + 2) }
{
    match part(m, late, b, depth) {
        Came::Value(y) => operated(m, late, kind, x, y),
        Came::Later => waits(
            late,
            Entry::Inside(Frame::Expression(ExpressionFrame::Second(kind, x))),
        ),
        Came::NoMemory => Came::NoMemory,
    }
}

// Both operands are there: a division that has no value traps step by step.
fn operated<'a>(m: &mut Machine<'a>, late: &mut Late<'a>, kind: BinKind, x: u32, y: u32) -> Came
    requires { late.old.entries ≡ [] }
    ensures { IsCame result late.new (run_of m.old) (run_of m.new)
        (valued (operated kind x y (world (run_of m.old)))) 3 }
{
    match binary_value(kind, x, y) {
        None => {
            later(late, Now::Value(y));
            waits(
                late,
                Entry::Inside(Frame::Expression(ExpressionFrame::Second(kind, x))),
            )
        }
        Some(v) => came(m, late, v),
    }
}

// A value is there, whose unit is spent.
#[inline(always)]
pub(crate) fn came<'a>(m: &mut Machine<'a>, late: &mut Late<'a>, v: u32) -> Came
    requires { late.old.entries ≡ [] }
    ensures { IsCame result late.new (run_of m.old) (run_of m.new) (valued (spend v (world (run_of m.old)))) 1 }
{
    if !m.spend_one() {
        return later(late, Now::Stopped);
    }
    Came::Value(v)
}

// Sets a register variable.
#[cycle(direct)]
fn set_variable<'a>(
    m: &mut Machine<'a>,
    late: &mut Late<'a>,
    i: u32,
    a: &'a Expr,
    depth: u32,
) -> Came
    requires { late.old.entries ≡ [] }
    ensures { IsCame result late.new (run_of m.old) (run_of m.new)
        (valued (eval (here (run_of m.old)) (node.SetVar i (expr_view a.now)) (world (run_of m.old))))
        (loaded (pending.Eval (node.SetVar i (expr_view a.now))) (run_of m.old)) }
{
    match part(m, late, a, depth) {
        Came::Value(v) => match m.set_variable(i, v) {
            Ok(()) => came(m, late, v),
            Err(_) => Came::NoMemory,
        },
        Came::Later => waits(
            late,
            Entry::Inside(Frame::Expression(ExpressionFrame::SetVar(i))),
        ),
        Came::NoMemory => Came::NoMemory,
    }
}

/// Returns a value.
#[cycle(direct)]
pub(crate) fn returned<'a>(
    m: &mut Machine<'a>,
    late: &mut Late<'a>,
    e: &'a Expr,
    depth: u32,
) -> Went
    requires { late.old.entries ≡ [] }
    ensures { IsWent result late.new (run_of m.old) (run_of m.new)
        (left (exec (here (run_of m.old)) (node.ReturnValue (expr_view e.now)) (world (run_of m.old))))
        (loaded (pending.Exec (node.ReturnValue (expr_view e.now))) (run_of m.old)) }
{
    match part(m, late, e, depth) {
        Came::Value(v) => Went::Returned(v),
        Came::Later => rests(
            late,
            Entry::Inside(Frame::Statement(StatementFrame::Return)),
        ),
        Came::NoMemory => Went::NoMemory,
    }
}

//! Statements of a function that was called.

ghost use Rattle.std.specs.Prelude.{◌≡◌, []};
ghost use Rattle.typed_tree.specs.Nodes as node;
ghost use Rattle.typed_tree.specs.View.{expr_view, stmt_view};
ghost use Rattle.staged_meaning.specs.Meaning.{exec, exec_items};
ghost use Rattle.eval_state.specs.Less.{loaded};
ghost use Rattle.eval_state.specs.Pending as pending;
ghost use Rattle.eval_state.specs.Rest.{left};
ghost use Rattle.eval_state.specs.Run.{here, run_of, world};
ghost use Rattle.eval_state.specs.Views.{items_view};
ghost use Rattle.eval_direct.specs.Came.{HasMoreItems, IsAtOnce, IsItem, IsWent, with_next};
ghost use Rattle.eval_state.specs.declared.parts.Now.TheVariants as now;
ghost use Rattle.eval_direct.specs.declared.came.Went.TheVariants.{Later};
ghost use Rattle.eval_state.specs.declared.parts.EndFrame.TheVariants as end;
ghost use Rattle.eval_state.specs.declared.parts.Frame.TheVariants as frame;
ghost use Rattle.eval_state.specs.declared.state.Entry.TheVariants as entry;

use crate::came::{Came, Late, Went, rests};
use crate::expressions::{compound, returned};
use eval_simple::{at_once, simple};
use eval_state::{EndFrame, Entry, Frame, Machine, Now, StatementFrame};
use typed_tree::{Expr, Stmt};

/// Runs a statement by its kind.
#[cycle(direct)]
pub(crate) fn statement<'a>(
    m: &mut Machine<'a>,
    late: &mut Late<'a>,
    s: &'a Stmt,
    depth: u32,
) -> Went
    requires { late.old.entries ≡ [] }
    ensures { IsWent result late.new (run_of m.old) (run_of m.new)
        (left (exec (here (run_of m.old)) (stmt_view s.now) (world (run_of m.old))))
        (loaded (pending.Exec (stmt_view s.now)) (run_of m.old)) }
{
    match s {
        Stmt::Block(variables, list) if depth != 0 => {
            block(m, late, variables.as_slice(), list.as_slice(), depth - 1)
        }
        Stmt::Eval(e) => expression(m, late, e.get(), depth),
        _ => later(late, Now::Exec(s)),
    }
}

// This is done next.
#[inline(always)]
fn later<'a>(late: &mut Late<'a>, next: Now<'a>) -> Went
    ensures went { result ≡ Later }
    ensures told { late.new.next ≡ next.entry }
    ensures still { late.new.entries ≡ late.old.entries }
{
    late.next = next;
    Went::Later
}

// Items wait.
fn items_wait<'a>(late: &mut Late<'a>, more: &'a [Stmt]) -> Went
    ensures { HasMoreItems result (entry.Inside (frame.End (end.Rest more.entry))) late.old late.new }
{
    rests(late, Entry::Inside(Frame::End(EndFrame::Rest(more))))
}

// A block: its variables, and then its items.
#[cycle(direct)]
fn block<'a>(
    m: &mut Machine<'a>,
    late: &mut Late<'a>,
    variables: &'a [Stmt],
    list: &'a [Stmt],
    depth: u32,
) -> Went
    requires { late.old.entries ≡ [] }
    ensures { IsWent result late.new (run_of m.old) (run_of m.new)
        (left (exec (here (run_of m.old)) (node.Block (items_view variables.now) (items_view list.now))
        (world (run_of m.old))))
        (loaded (pending.Exec (node.Block (items_view variables.now) (items_view list.now))) (run_of m.old)) }
{
    let mut rest = variables;
    while let Some((s, more)) = rest.split_first() {
        match variable(m, s) {
            Went::Through => rest = more,
            Went::NoMemory => return Went::NoMemory,
            _ => {
                later(late, Now::Run(rest));
                return items_wait(late, list);
            }
        }
    }
    items(m, late, list, depth)
}

// A variable of a block.
#[inline(always)]
#[tactic(auto, using(crate::proofs::Running::at_once, typed_tree::proofs::Views::statements))]
fn variable(m: &mut Machine<'_>, s: &Stmt) -> Went
    ensures { IsAtOnce result (stmt_view s.now) (run_of m.old) (run_of m.new) }
{
    match s {
        Stmt::Parameter(k, width) => {
            let v = m.passed(*k, *width);
            match m.set_variable(*k, v) {
                Ok(()) => Went::Through,
                Err(_) => Went::NoMemory,
            }
        }
        _ => whole(m, s),
    }
}

// A statement that runs at once.
#[inline(never)]
#[tactic(auto, using(crate::proofs::Running::at_once, typed_tree::proofs::Views::statements))]
fn whole(m: &mut Machine<'_>, s: &Stmt) -> Went
    ensures { IsAtOnce result (stmt_view s.now) (run_of m.old) (run_of m.new) }
{
    match s {
        Stmt::Eval(e) => match at_once(m, e.get()) {
            Ok(Some(_)) => Went::Through,
            Ok(None) => Went::Later,
            Err(_) => Went::NoMemory,
        },
        Stmt::Variable(i) => {
            if !m.spend_one() {
                return Went::Later;
            }
            match m.set_variable(*i, 0) {
                Ok(()) => Went::Through,
                Err(_) => Went::NoMemory,
            }
        }
        _ => Went::Later,
    }
}

// Runs items, one after another.
#[cycle(direct)]
fn items<'a>(m: &mut Machine<'a>, late: &mut Late<'a>, list: &'a [Stmt], depth: u32) -> Went
    requires { late.old.entries ≡ [] }
    ensures { IsWent result late.new (run_of m.old) (run_of m.new)
        (left (exec_items (here (run_of m.old)) (items_view list.now) (world (run_of m.old))))
        (loaded (pending.Run (items_view list.now)) (run_of m.old)) }
{
    let mut rest = list;
    while let Some((s, more)) = rest.split_first() {
        match item(m, late, s, more, depth) {
            Went::Through => rest = more,
            it => return it,
        }
    }
    Went::Through
}

// Runs an item: where it can't go on, those that follow wait.
#[cycle(direct)]
fn item<'a>(
    m: &mut Machine<'a>,
    late: &mut Late<'a>,
    s: &'a Stmt,
    more: &'a [Stmt],
    depth: u32,
) -> Went
    requires { late.old.entries ≡ [] }
    ensures { IsItem result late.new (run_of m.old) (run_of m.new) (stmt_view s.now) (items_view more.now) }
{
    match s {
        Stmt::If(e, t) if depth != 0 => match simple(m, e.get()) {
            Some(0) => Went::Through,
            Some(_) => item(m, late, t.get(), more, depth - 1),
            None => item_later(late, s, more),
        },
        Stmt::IfElse(e, t, u) if depth != 0 => match simple(m, e.get()) {
            Some(0) => item(m, late, u.get(), more, depth - 1),
            Some(_) => item(m, late, t.get(), more, depth - 1),
            None => item_later(late, s, more),
        },
        Stmt::Return => Went::Returned(0),
        Stmt::ReturnValue(e) => returned(m, late, e.get(), depth),
        _ => plain(m, late, s, more, depth),
    }
}

// An item that goes step by step, and those that follow wait.
#[inline(never)]
fn item_later<'a>(late: &mut Late<'a>, s: &'a Stmt, more: &'a [Stmt]) -> Went
    ensures { HasMoreItems result (entry.Inside (frame.End (end.Rest more.entry)))
        (with_next (now.Exec s.entry) late.old) late.new }
{
    later(late, Now::Exec(s));
    items_wait(late, more)
}

// Another item.
#[cycle(direct)]
fn plain<'a>(
    m: &mut Machine<'a>,
    late: &mut Late<'a>,
    s: &'a Stmt,
    more: &'a [Stmt],
    depth: u32,
) -> Went
    requires { late.old.entries ≡ [] }
    ensures { IsItem result late.new (run_of m.old) (run_of m.new) (stmt_view s.now) (items_view more.now) }
{
    match whole(m, s) {
        Went::Later => match statement(m, late, s, depth) {
            Went::Later => items_wait(late, more),
            it => it,
        },
        it => it,
    }
}

// Evaluates an expression, and drops its value.
#[cycle(direct)]
fn expression<'a>(m: &mut Machine<'a>, late: &mut Late<'a>, e: &'a Expr, depth: u32) -> Went
    requires { late.old.entries ≡ [] }
    ensures { IsWent result late.new (run_of m.old) (run_of m.new)
        (left (exec (here (run_of m.old)) (node.Eval (expr_view e.now)) (world (run_of m.old))))
        (loaded (pending.Exec (node.Eval (expr_view e.now))) (run_of m.old)) }
{
    match compound(m, late, e, depth) {
        Came::Value(_) => Went::Through,
        Came::Later => rests(late, Entry::Inside(Frame::Statement(StatementFrame::Drop))),
        Came::NoMemory => Went::NoMemory,
    }
}

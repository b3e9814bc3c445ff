//! Switches: where a value goes on among the items of a block.

ghost use Rattle.std.specs.Prelude.{◌≡◌, ◌+◌, ◌<◌, ◌≤◌, IfOk, IsFalse, IsTrue};
ghost use Rattle.typed_tree.specs.Nodes as node;
ghost use Rattle.typed_tree.specs.View.{stmt_view};
ghost use Rattle.staged_meaning.specs.Statements.{case_of, exec_default, switch_end};
ghost use Rattle.staged_meaning.specs.World.{then_do};
ghost use Rattle.eval_state.specs.Rest.{left, switched};
ghost use Rattle.eval_state.specs.Pending as pending;
ghost use Rattle.eval_state.specs.Less.{heft, held, waiting};
ghost use Rattle.eval_state.specs.Run.{here, leads, outcome, run_of, world};
ghost use Rattle.eval_state.specs.Views.{items_view, now_view};
ghost use Rattle.eval_statements.specs.Switches.{IsDefault, IsPassed, IsWithin};

use eval_state::{EndFrame, Flow, Frame, Machine, Now};
use std::alloc::AllocError;
use typed_tree::Stmt;

/// Chooses the items behind the first label that matches, at a unit each; else those behind the default.
#[tactic(auto, using(crate::proofs::Labels::choices))]
pub(crate) fn choose<'a>(
    m: &mut Machine<'a>,
    v: u32,
    items: &'a [Stmt],
) -> Result<Now<'a>, AllocError>
    ensures same { IfOk result (λ n. outcome (now_view n) (run_of m.new)
        ≡ leads (run_of m.old) (left (switched (here (run_of m.old)) v (items_view items.entry.now) (world
        (run_of m.old))))) }
    ensures units { IfOk result (λ n. (run_of m.new).state.units ≤ (run_of m.old).state.units) }
    ensures less { IfOk result (λ n. (run_of m.new).state.units ≡ (run_of m.old).state.units
        → heft (now_view n) (run_of m.new) <
        waiting (pending.Chosen v (items_view items.entry.now)) (run_of m.old) + held (run_of m.old)) }
{
    let mut rest = items;
    while let Some((s, more)) = rest.split_first() {
        if let Some(value) = label_of(s) {
            if !m.spend_one() {
                return Ok(Now::Stopped);
            }
            if value == v {
                return m.push(Frame::End(EndFrame::SwitchEnd), Now::Run(more));
            }
        }
        rest = more;
    }
    otherwise(m, items)
}

// The value of a label.
#[tactic(auto, using(crate::proofs::Labels::views))]
fn label_of(s: &Stmt) -> Option<u32>
    ensures { result ≡ case_of (stmt_view s.now) }
{
    match s {
        Stmt::Case(value) => Some(*value),
        Stmt::Eval(_)
        | Stmt::Block(_, _)
        | Stmt::Variable(_)
        | Stmt::Object(_, _)
        | Stmt::Parameter(_, _)
        | Stmt::ParameterObject(_, _, _)
        | Stmt::If(_, _)
        | Stmt::IfElse(_, _, _)
        | Stmt::While(_, _)
        | Stmt::Do(_, _)
        | Stmt::For(_, _)
        | Stmt::ForStep(_, _, _)
        | Stmt::Switch(_, _, _)
        | Stmt::Default
        | Stmt::Break
        | Stmt::Continue
        | Stmt::Return
        | Stmt::ReturnValue(_) => None,
    }
}

// Goes on where no label matches.
#[tactic(auto, using(crate::proofs::Labels::choices))]
fn otherwise<'a>(m: &mut Machine<'a>, items: &'a [Stmt]) -> Result<Now<'a>, AllocError>
    ensures same { IfOk result (λ n. outcome (now_view n) (run_of m.new)
        ≡ leads (run_of m.old) (left (then_do
        (exec_default (here (run_of m.old)) (items_view items.entry.now) (world (run_of m.old))) switch_end))) }
    ensures units { IfOk result (λ n. (run_of m.new).state.units ≤ (run_of m.old).state.units) }
    ensures less { IfOk result (λ n. (run_of m.new).state.units ≡ (run_of m.old).state.units
        → heft (now_view n) (run_of m.new) <
        waiting (pending.Chosen 0 (items_view items.entry.now)) (run_of m.old) + held (run_of m.old)) }
{
    match default_of(items) {
        None => Ok(Now::Left(Flow::Normal)),
        Some(more) => m.push(Frame::End(EndFrame::SwitchEnd), Now::Run(more)),
    }
}

// The items behind the default, if there is one.
#[tactic(auto, using(crate::proofs::Labels::defaults))]
fn default_of(items: &[Stmt]) -> Option<&[Stmt]>
    ensures items { IsDefault result items.now }
    ensures tail { IsWithin result items.now }
{
    let mut rest = items;
    while let Some((s, more)) = rest.split_first() {
        if is_default(s) {
            return Some(more);
        }
        rest = more;
    }
    None
}

// Whether a statement is the default's label.
#[tactic(auto, using(crate::proofs::Labels::views))]
fn is_default(s: &Stmt) -> bool
    ensures it { IsTrue result → stmt_view s.now ≡ node.Default }
    ensures another { IsFalse result → IsPassed (stmt_view s.now) }
{
    match s {
        Stmt::Default => true,
        Stmt::Eval(_)
        | Stmt::Block(_, _)
        | Stmt::Variable(_)
        | Stmt::Object(_, _)
        | Stmt::Parameter(_, _)
        | Stmt::ParameterObject(_, _, _)
        | Stmt::If(_, _)
        | Stmt::IfElse(_, _, _)
        | Stmt::While(_, _)
        | Stmt::Do(_, _)
        | Stmt::For(_, _)
        | Stmt::ForStep(_, _, _)
        | Stmt::Switch(_, _, _)
        | Stmt::Case(_)
        | Stmt::Break
        | Stmt::Continue
        | Stmt::Return
        | Stmt::ReturnValue(_) => false,
    }
}

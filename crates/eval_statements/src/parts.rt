//! How a block begins.

ghost use Rattle.std.specs.Prelude.{◌≡◌, ◌<◌, ◌≤◌, IfOk};
ghost use Rattle.typed_tree.specs.Nodes as node;
ghost use Rattle.eval_state.specs.Pending as pending;
ghost use Rattle.eval_state.specs.Less.{heft};
ghost use Rattle.eval_state.specs.Run.{outcome, run_of};
ghost use Rattle.eval_state.specs.Steps.{executed};
ghost use Rattle.eval_state.specs.Views.{items_view, now_view};

use crate::begin::run;
use crate::started::ran_all;
use eval_state::{EndFrame, Frame, Machine, Now};
use std::alloc::AllocError;
use typed_tree::Stmt;

/// A block: its variables.
#[tactic(auto, using(crate::proofs::Starts::blocks_on))]
pub(crate) fn block<'a>(
    m: &mut Machine<'a>,
    variables: &'a [Stmt],
    items: &'a [Stmt],
) -> Result<Now<'a>, AllocError>
    ensures same { IfOk result (λ n. outcome (now_view n) (run_of m.new)
        ≡ executed (node.Block (items_view variables.entry.now) (items_view items.entry.now)) (run_of m.old)) }
    ensures units { IfOk result (λ n. (run_of m.new).state.units ≤ (run_of m.old).state.units) }
    ensures less { IfOk result (λ n. (run_of m.new).state.units ≡ (run_of m.old).state.units
        → heft (now_view n) (run_of m.new)
        < heft (pending.Exec (node.Block (items_view variables.entry.now) (items_view items.entry.now)))
        (run_of m.old)) }
{
    let rest = ran_all(m, variables)?;
    match rest.is_empty() {
        true => run(m, items),
        false => m.push(Frame::End(EndFrame::Rest(items)), Now::Run(rest)),
    }
}

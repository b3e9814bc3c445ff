//! The steps of a run, one after another, to its end.

ghost use Rattle.std.specs.Prelude.{◌≡◌, ◌≤◌, ◌↔◌, IfOk, IsTrue};
ghost use Rattle.eval_state.specs.Run.{outcome, run_of};
ghost use Rattle.eval_state.specs.Views.{now_view};
ghost use Rattle.evaluate.specs.Seen.{IsOver};

use crate::step::step;
use eval_state::{Machine, Now};
use std::alloc::AllocError;

// Whether nothing more is done.
fn is_over(m: &Machine<'_>, now: Now<'_>) -> bool
    ensures { IsTrue result ↔ IsOver now.entry (run_of m.now) }
{
    match now {
        Now::Eval(_) | Now::Exec(_) | Now::Run(_) => false,
        Now::Ended(_) | Now::Stopped => true,
        Now::Value(_) | Now::Left(_) | Now::Returned(_) => !m.is_pending(),
    }
}

// Goes on until a unit is spent, or nothing more is done.
fn until_spent<'a>(m: &mut Machine<'a>, first: Now<'a>) -> Result<Now<'a>, AllocError>
    ensures same { IfOk result (λ n. outcome (now_view n) (run_of m.new)
        ≡ outcome (now_view first.entry) (run_of m.old)) }
    ensures units { IfOk result (λ n. (run_of m.new).state.units ≤ (run_of m.old).state.units) }
    ensures ends { IfOk result (λ n. (run_of m.new).state.units ≡ (run_of m.old).state.units
        → IsOver n (run_of m.new)) }
{
    let before = m.units();
    let mut now = first;
    while m.units() == before {
        if is_over(m, now) {
            return Ok(now);
        }
        now = step(m, now)?;
    }
    Ok(now)
}

/// Does all there is to do.
pub(crate) fn finish<'a>(m: &mut Machine<'a>, first: Now<'a>) -> Result<Now<'a>, AllocError>
    ensures same { IfOk result (λ n. outcome (now_view n) (run_of m.new)
        ≡ outcome (now_view first.entry) (run_of m.old)) }
    ensures over { IfOk result (λ n. IsOver n (run_of m.new)) }
{
    let mut now = first;
    let mut over = false;
    while !over {
        now = until_spent(m, now)?;
        over = is_over(m, now);
    }
    Ok(now)
}

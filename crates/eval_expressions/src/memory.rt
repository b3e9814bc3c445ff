//! Accesses.

ghost use Rattle.std.specs.Prelude.{◌≡◌, suc, IfOk};
ghost use Rattle.staged_meaning.specs.Expressions.{store_at};
ghost use Rattle.typed_tree.specs.View.{expr_view};
ghost use Rattle.eval_state.specs.Pending as pending;
ghost use Rattle.eval_state.specs.Rest.{valued};
ghost use Rattle.eval_state.specs.Less.{held};
ghost use Rattle.eval_state.specs.Run.{leads, run_of, world};
ghost use Rattle.eval_state.specs.Views.{now_view};
ghost use Rattle.eval_simple.specs.Stepped.{IsStep, IsTaken};

use crate::next::{give, wait};
use crate::operators::{division_trap, narrowed, trap};
use eval_state::{ExpressionFrame, Machine, Now, Place};
use icode_ops::BinKind;
use meaning_operators::binary_value;
use std::alloc::AllocError;
use typed_tree::Expr;
use word32::Width;

/// The address of a load is there.
pub(crate) fn load<'a>(m: &mut Machine<'a>, width: Width, at: u32) -> Now<'a>
    ensures { IsTaken (pending.Load width) at (now_view result) (run_of m.old) (run_of m.new) }
{
    match m.load(at, width) {
        Err(kind) => trap(kind),
        Ok(value) => give(m, value),
    }
}

/// Stores a value, and leaves it.
pub(crate) fn put<'a>(m: &mut Machine<'a>, width: Width, at: u32, v: u32) -> Now<'a>
    ensures { IsStep (leads (run_of m.old) (valued (store_at width at v (world (run_of m.old)))))
        (suc (held (run_of m.old))) (now_view result) (run_of m.old) (run_of m.new) }
{
    match m.store(at, width, v) {
        Err(kind) => trap(kind),
        Ok(()) => give(m, v),
    }
}

/// The address of a change is there: it is tested, and the old value is read, before the second operand.
pub(crate) fn modify<'a>(
    m: &mut Machine<'a>,
    width: Width,
    kind: BinKind,
    b: &'a Expr,
    at: u32,
) -> Result<Now<'a>, AllocError>
    ensures { IfOk result (λ n. IsTaken (pending.ModifyAddress width kind (expr_view b.entry.now)) at (now_view n)
        (run_of m.old) (run_of m.new)) }
{
    match m.load(at, width) {
        Err(kind) => Ok(trap(kind)),
        Ok(old) => {
            let place = Place { at, width };
            wait(m, ExpressionFrame::ModifyValue(place, kind, old), b)
        }
    }
}

/// The second operand of a change is there: stores what the operator makes of the old value. The place was tested as
/// the frame was made.
pub(crate) fn modified<'a>(
    m: &mut Machine<'a>,
    place: Place,
    kind: BinKind,
    old: u32,
    v: u32,
) -> Now<'a>
    ensures { IsTaken (pending.ModifyValue place.width kind place.at old) v (now_view result) (run_of m.old)
        (run_of m.new) }
{
    match binary_value(kind, old, v) {
        None => trap(division_trap(kind, old, v)),
        Some(new) => put(m, place.width, place.at, narrowed(place.width, new)),
    }
}

/// The address is there: adds a step to the value at it, and leaves the old value.
pub(crate) fn post<'a>(m: &mut Machine<'a>, width: Width, step: u32, at: u32) -> Now<'a>
    ensures { IsTaken (pending.Post width step) at (now_view result) (run_of m.old) (run_of m.new) }
{
    match m.load(at, width) {
        Err(kind) => trap(kind),
        Ok(old) => match m.store(at, width, narrowed(width, old.wrapping_add(step))) {
            Err(kind) => trap(kind),
            Ok(()) => give(m, old),
        },
    }
}

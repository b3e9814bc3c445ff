//! Operators on words.

ghost use Rattle.std.specs.Prelude.{◌≡◌, None, Some};
ghost use Rattle.word32.specs.Parts as parts;
ghost use Rattle.meaning_operators.specs.Values as spec;
ghost use Rattle.meaning_state.specs.Operators.{bin_trap};
ghost use Rattle.eval_state.specs.Pending as pending;
ghost use Rattle.eval_state.specs.Run.{run_of};
ghost use Rattle.eval_state.specs.Views.{now_view};
ghost use Rattle.eval_simple.specs.Stepped.{IsTaken};
ghost use Rattle.eval_expressions.specs.Values.{trap_at};

use crate::next::give;
use eval_state::{Machine, Now};
use host_edge::{Ending, TrapKind};
use icode_ops::{BinKind, UnKind};
use meaning_operators::{binary_value, unary_value};
use word32::Width;

/// A trap.
pub(crate) fn trap<'a>(kind: TrapKind) -> Now<'a>
    ensures { now_view result ≡ trap_at kind }
{
    Now::Ended(Ending::Trap(kind))
}

/// The trap of a division that has no value.
pub(crate) fn division_trap(kind: BinKind, a: u32, b: u32) -> TrapKind
    requires { spec.binary kind a b ≡ None }
    ensures { bin_trap kind a b ≡ Some result }
{
    if b == 0 {
        TrapKind::DivideByZero
    } else {
        TrapKind::DivideOverflow
    }
}

/// A word converted to a width.
pub(crate) fn narrowed(width: Width, w: u32) -> u32
    ensures { result ≡ parts.narrowed width w }
{
    match width {
        Width::SignedByte => unary_value(UnKind::SignedByte, w),
        Width::Byte => unary_value(UnKind::Byte, w),
        Width::SignedHalf => unary_value(UnKind::SignedHalf, w),
        Width::Half => unary_value(UnKind::Half, w),
        Width::Word => w,
    }
}

/// The second operand is there.
pub(crate) fn second<'a>(m: &mut Machine<'a>, kind: BinKind, x: u32, y: u32) -> Now<'a>
    ensures { IsTaken (pending.Second kind x) y (now_view result) (run_of m.old) (run_of m.new) }
{
    match binary_value(kind, x, y) {
        None => trap(division_trap(kind, x, y)),
        Some(v) => give(m, v),
    }
}

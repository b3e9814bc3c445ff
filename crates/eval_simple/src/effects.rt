//! Expressions that set what they name, at once.

ghost use Rattle.std.specs.Prelude.{◌≡◌, IfOk, MatchOption};
ghost use Rattle.typed_tree.specs.Nodes as node;
ghost use Rattle.typed_tree.specs.View.{expr_view};
ghost use Rattle.word32.specs.Parts as parts;
ghost use Rattle.eval_state.specs.Run.{run_of};
ghost use Rattle.eval_simple.specs.Simple.{IsDone};

use crate::values::{last_part, leave, part, simple};
use eval_state::Machine;
use icode_ops::UnKind;
use meaning_operators::unary_value;
use std::alloc::AllocError;
use typed_tree::Expr;
use word32::Width;

// A word converted to a width.
fn narrowed(width: Width, w: u32) -> u32
    ensures { result ≡ parts.narrowed width w }
{
    match width {
        Width::SignedByte => unary_value(UnKind::SignedByte, w),
        Width::Byte => unary_value(UnKind::Byte, w),
        Width::SignedHalf => unary_value(UnKind::SignedHalf, w),
        Width::Half => unary_value(UnKind::Half, w),
        Width::Word => w,
    }
}

// A register variable is set.
#[tactic(auto, using(crate::proofs::Done::units))]
fn set_variable(m: &mut Machine<'_>, i: u32, a: &Expr) -> Result<Option<u32>, AllocError>
    ensures { IfOk result (λ found. MatchOption found (m.new ≡ m.old)
        (λ v. IsDone (node.SetVar i (expr_view a.now)) v (run_of m.old) (run_of m.new))) }
{
    let mut left = m.units();
    match last_part(m, a, &mut left) {
        None => Ok(None),
        Some(v) => {
            leave(m, left);
            m.set_variable(i, v)?;
            Ok(Some(v))
        }
    }
}

// A variable of generated code is set.
#[tactic(auto, using(crate::proofs::Done::units))]
fn set_generated(m: &mut Machine<'_>, i: u32, a: &Expr) -> Result<Option<u32>, AllocError>
    ensures { IfOk result (λ found. MatchOption found (m.new ≡ m.old)
        (λ v. IsDone (node.VSet i (expr_view a.now)) v (run_of m.old) (run_of m.new))) }
{
    let mut left = m.units();
    match last_part(m, a, &mut left) {
        None => Ok(None),
        Some(v) => {
            leave(m, left);
            m.set_generated(i, v)?;
            Ok(Some(v))
        }
    }
}

// A step is added to a register variable.
#[tactic(auto, using(crate::proofs::Done::units))]
fn post_variable(
    m: &mut Machine<'_>,
    i: u32,
    width: Width,
    step: u32,
) -> Result<Option<u32>, AllocError>
    ensures { IfOk result (λ found. MatchOption found (m.new ≡ m.old)
        (λ v. IsDone (node.PostVar i width step) v (run_of m.old) (run_of m.new))) }
{
    let old = m.variable(i);
    if !m.spend_one() {
        return Ok(None);
    }
    let new = narrowed(width, old.wrapping_add(step));
    m.set_variable(i, new)?;
    Ok(Some(old))
}

// A value is stored.
#[tactic(auto, using(crate::proofs::Done::units))]
fn store(m: &mut Machine<'_>, width: Width, a: &Expr, b: &Expr) -> Option<u32>
    ensures { MatchOption result (m.new ≡ m.old)
        (λ v. IsDone (node.Store width (expr_view a.now) (expr_view b.now)) v (run_of m.old) (run_of m.new)) }
{
    let mut left = m.units();
    let at = part(m, a, &mut left)?;
    let v = last_part(m, b, &mut left)?;
    match m.store(at, width, v) {
        Err(_) => None,
        Ok(()) => {
            leave(m, left);
            Some(v)
        }
    }
}

/// Evaluates an expression at once, where its parts are simple, nothing in it traps, and the units suffice; else
/// nothing is done.
///
/// # Errors
/// Where memory is wanting.
#[tactic(auto, using(typed_tree::proofs::Views::expressions))]
pub fn at_once(m: &mut Machine<'_>, e: &Expr) -> Result<Option<u32>, AllocError>
    ensures { IfOk result (λ found. MatchOption found (m.new ≡ m.old)
        (λ v. IsDone (expr_view e.now) v (run_of m.old) (run_of m.new))) }
{
    match e {
        Expr::SetVar(i, a) => set_variable(m, *i, a.get()),
        Expr::VSet(i, a) => set_generated(m, *i, a.get()),
        Expr::PostVar(i, width, step) => post_variable(m, *i, *width, *step),
        Expr::Store(width, a, b) => Ok(store(m, *width, a.get(), b.get())),
        Expr::Const(_) | Expr::Captured(_, _) | Expr::Var(_) | Expr::VGet(_) | Expr::VPost(_, _) =>
            Ok(simple(m, e)),
        Expr::Frame(_) | Expr::Load(_, _) | Expr::Modify(_, _, _, _) | Expr::Post(_, _, _) => Ok(
            simple(m, e),
        ),
        Expr::Bin(_, _, _)
        | Expr::Un(_, _)
        | Expr::And(_, _)
        | Expr::Or(_, _)
        | Expr::Cond(_, _, _) => { Ok(simple(m, e)) }
        Expr::Comma(_, _) | Expr::Void(_) | Expr::Call(_, _, _) | Expr::CallNumber(_, _, _) => Ok(
            None,
        ),
        Expr::Getchar | Expr::Lib(_, _) | Expr::Tick(_, _) | Expr::Capture(_, _) => Ok(None),
        Expr::Splice(_, _) | Expr::Compile(_) | Expr::Local | Expr::ParamOf(_) => Ok(None),
    }
}

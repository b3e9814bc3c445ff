//! The values of expressions that change nothing but the units that are left.

ghost use Rattle.std.specs.Prelude.{◌≡◌, ◌<◌, ◌≤◌, suc, IfSome, MatchOption};
ghost use Rattle.typed_tree.specs.View.{expr_view};
ghost use Rattle.eval_state.specs.Run.{run_of, with_units, world};
ghost use Rattle.eval_simple.specs.Simple.{Came, Comes, IsDone};

use eval_state::Machine;
use meaning_operators::{binary_value, unary_value};
use typed_tree::Expr;

// How deep an expression may be that is evaluated at once: so deep is the host's stack that it takes.
pub(crate) const DEPTH: u32 = 8;

// Spends one of the units that are left; none, where none is.
#[inline(always)]
pub(crate) fn spend(left: &mut u64) -> Option<()>
    ensures one { IfSome result (λ _. left.old ≡ suc left.new) }
    ensures less { left.new ≤ left.old }
{
    if *left == 0 {
        return None;
    }
    *left -= 1;
    Some(())
}

// Spends all units but so many, which are no more than there are.
#[tactic(auto, using(crate::proofs::Laws::leaves, crate::proofs::Laws::done))]
pub(crate) fn leave(m: &mut Machine<'_>, left: u64)
    requires { left ≤ (world (run_of m.old)).units }
    ensures { run_of m.new ≡ with_units left (run_of m.old) }
{
    let many = m.units() - left;
    let _ = m.spend_many(many);
}

/// The value of an expression, where it is simple and at most so deep, and doesn't trap, and the units suffice up to
/// its own, which is not spent yet. The units that are left are counted down on the way.
#[cycle(value)]
#[tactic(auto, using(crate::proofs::Laws::values))]
pub(crate) fn value(m: &Machine<'_>, e: &Expr, depth: u32, left: &mut u64) -> Option<u32>
    ensures value { IfSome result (λ v. Comes (run_of m.now) (expr_view e.now) left.old v left.new) }
    ensures less { left.new ≤ left.old }
{
    match e {
        Expr::Const(word) => Some(*word),
        Expr::Captured(_, i) => Some(m.captured(*i)),
        Expr::Var(i) => Some(m.variable(*i)),
        Expr::VGet(i) => Some(m.generated(*i)),
        Expr::Frame(offset) => match m.frame_address(*offset) {
            Ok(at) => Some(at),
            Err(_) => None,
        },
        Expr::Load(width, a) if depth != 0 => {
            let at = operand(m, a.get(), depth - 1, left)?;
            match m.load(at, *width) {
                Ok(v) => Some(v),
                Err(_) => None,
            }
        }
        Expr::Bin(kind, a, b) if depth != 0 => {
            let x = operand(m, a.get(), depth - 1, left)?;
            let y = operand(m, b.get(), depth - 1, left)?;
            binary_value(*kind, x, y)
        }
        Expr::Un(kind, a) if depth != 0 => {
            let x = operand(m, a.get(), depth - 1, left)?;
            Some(unary_value(*kind, x))
        }
        Expr::And(a, b) if depth != 0 => {
            let x = operand(m, a.get(), depth - 1, left)?;
            if x == 0 {
                return Some(0);
            }
            let y = operand(m, b.get(), depth - 1, left)?;
            if y == 0 {
                return Some(0);
            }
            Some(1)
        }
        Expr::Or(a, b) if depth != 0 => {
            let x = operand(m, a.get(), depth - 1, left)?;
            if x != 0 {
                return Some(1);
            }
            let y = operand(m, b.get(), depth - 1, left)?;
            if y == 0 {
                return Some(0);
            }
            Some(1)
        }
        Expr::Cond(test, a, b) if depth != 0 => {
            let x = operand(m, test.get(), depth - 1, left)?;
            if x == 0 {
                operand(m, b.get(), depth - 1, left)
            } else {
                operand(m, a.get(), depth - 1, left)
            }
        }
        Expr::Load(_, _) | Expr::Bin(_, _, _) | Expr::Un(_, _) => None,
        Expr::SetVar(_, _) | Expr::PostVar(_, _, _) | Expr::VSet(_, _) | Expr::VPost(_, _) => None,
        Expr::Store(_, _, _) | Expr::Modify(_, _, _, _) | Expr::Post(_, _, _) => None,
        Expr::And(_, _) | Expr::Or(_, _) | Expr::Cond(_, _, _) => None,
        Expr::Comma(_, _) | Expr::Void(_) | Expr::Call(_, _, _) | Expr::CallNumber(_, _, _) => None,
        Expr::Getchar | Expr::Lib(_, _) | Expr::Tick(_, _) | Expr::Capture(_, _) => None,
        Expr::Splice(_, _) | Expr::Compile(_) | Expr::Local | Expr::ParamOf(_) => None,
    }
}

// The value of an operand that is at most so deep, whose own unit is spent.
#[cycle(value)]
#[tactic(auto, using(crate::proofs::Laws::operands))]
#[inline(always)]
fn operand(m: &Machine<'_>, e: &Expr, depth: u32, left: &mut u64) -> Option<u32>
    ensures value { IfSome result (λ v. Came (run_of m.now) (expr_view e.now) left.old v left.new) }
    ensures less { IfSome result (λ v. left.new < left.old) }
    ensures most { left.new ≤ left.old }
{
    match e {
        Expr::Const(word) => {
            spend(left)?;
            Some(*word)
        }
        Expr::Var(i) => {
            spend(left)?;
            Some(m.variable(*i))
        }
        _ => {
            let v = value(m, e, depth, left)?;
            spend(left)?;
            Some(v)
        }
    }
}

// The value of such an expression, whose own unit is spent.
#[tactic(auto, using(crate::proofs::Laws::parts))]
pub(crate) fn part(m: &Machine<'_>, e: &Expr, left: &mut u64) -> Option<u32>
    ensures value { IfSome result (λ v. Came (run_of m.now) (expr_view e.now) left.old v left.new) }
    ensures less { IfSome result (λ v. left.new < left.old) }
    ensures most { left.new ≤ left.old }
{
    operand(m, e, DEPTH, left)
}

// The value of such an expression behind which a unit more is spent.
#[tactic(auto, using(crate::proofs::Laws::parts))]
pub(crate) fn last_part(m: &Machine<'_>, e: &Expr, left: &mut u64) -> Option<u32>
    ensures value { IfSome result (λ v. Came (run_of m.now) (expr_view e.now) left.old v (suc left.new)) }
    ensures less { IfSome result (λ v. suc left.new < left.old) }
{
    let v = part(m, e, left)?;
    spend(left)?;
    Some(v)
}

/// Evaluates an expression at once, where it is simple, doesn't trap, and the units suffice; else nothing is done.
#[tactic(auto, using(crate::proofs::Laws::done))]
pub fn simple(m: &mut Machine<'_>, e: &Expr) -> Option<u32>
    ensures { MatchOption result (m.new ≡ m.old)
        (λ v. IsDone (expr_view e.now) v (run_of m.old) (run_of m.new)) }
{
    let mut left = m.units();
    let v = part(m, e, &mut left)?;
    leave(m, left);
    Some(v)
}

//! The values of constant expressions, in their typed form.

ghost use Rattle.std.specs.Prelude.{◌≡◌};
ghost use Rattle.meaning_operators.specs.Constants as spec;

use crate::{binary_value, unary_value};
use icode_ops::{BinKind, UnKind};
use typed_tree::Expr;

fn on_both(kind: BinKind, a: Option<u32>, b: Option<u32>) -> Option<u32>
    ensures { result ≡ spec.on_both kind a b }
{
    match a {
        Some(a) => match b {
            Some(b) => binary_value(kind, a, b),
            None => None,
        },
        None => None,
    }
}

fn on_one(kind: UnKind, a: Option<u32>) -> Option<u32>
    ensures { result ≡ spec.on_one kind a }
{
    match a {
        None => None,
        Some(a) => Some(unary_value(kind, a)),
    }
}

/// The value of an expression that is made of numbers and operators on words, as a run would have it. None for every
/// other expression, and where a division would trap. That a text's expression has the form of a constant is a rule of
/// its own.
#[tactic(auto, using(crate::proofs::Nodes::constants))]
pub fn constant_value(e: &Expr) -> Option<u32>
    ensures { result ≡ spec.constant e.now }
{
    match e {
        Expr::Const(w) => Some(*w),
        Expr::Bin(kind, a, b) => on_both(*kind, constant_value(a.get()), constant_value(b.get())),
        Expr::Un(kind, a) => on_one(*kind, constant_value(a.get())),
        Expr::Captured(_, _) | Expr::Frame(_) | Expr::Getchar | Expr::Local => None,
        Expr::Var(_) | Expr::SetVar(_, _) | Expr::PostVar(_, _, _) => None,
        Expr::VGet(_) | Expr::VSet(_, _) | Expr::VPost(_, _) => None,
        Expr::Load(_, _) | Expr::Store(_, _, _) | Expr::Modify(_, _, _, _) => None,
        Expr::Post(_, _, _) | Expr::And(_, _) | Expr::Or(_, _) | Expr::Cond(_, _, _) => None,
        Expr::Comma(_, _) | Expr::Void(_) | Expr::Call(_, _, _) => None,
        Expr::CallNumber(_, _, _) | Expr::Lib(_, _) | Expr::Tick(_, _) => None,
        Expr::Capture(_, _) | Expr::Splice(_, _) | Expr::Compile(_) | Expr::ParamOf(_) => None,
    }
}

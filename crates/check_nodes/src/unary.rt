//! Nodes over one value: tests, unary operators and casts; and the comma.

ghost use Rattle.std.specs.Prelude.{◌≡◌, IfOk};
ghost use Rattle.tick_tree.specs.Faults.{Checks};
ghost use Rattle.check_operands.specs.Operands as spec;

use c_type_refs::TypeRef;
use c_types::Integer;
use check_operands::{
    Operand, Value, at_address, converted, made, test_breaks, unless_kind, unless_void,
};
use check_types::{
    inner, integer, is_integer, is_pointer, is_scalar, is_void, points_to_void, promoted_type,
};
use icode_ops::UnKind;
use sqlite_items::Boxed;
use std::alloc::{AllocError, Global};
use tick_tree::{Deny, FaultKind, refused};
use typed_tree::Expr;

fn integer_breaks(v: &Value) -> Option<FaultKind>
    ensures { result ≡ spec.integer_breaks v.now }
{
    unless_void(v, unless_kind(is_integer(&v.ctype), FaultKind::BadOperand))
}

/// The node of a test. Refused: VoidValue, or BadOperand where it is neither an integer nor a pointer.
#[tactic(auto, unfolding(check_operands::specs::Operands::condition))]
pub fn condition(line: u32, v: Value) -> Result<Boxed<Expr>, Deny>
    ensures { Checks result (spec.condition line v) }
{
    match test_breaks(&v) {
        Some(kind) => refused(kind, line),
        None => Ok(v.code),
    }
}

/// The node of the value of a switch. Refused: VoidValue, or BadOperand where it is no integer.
#[tactic(auto, unfolding(check_operands::specs::Operands::switched))]
pub fn switched(line: u32, v: Value) -> Result<Boxed<Expr>, Deny>
    ensures { Checks result (spec.switched line v) }
{
    match integer_breaks(&v) {
        Some(kind) => refused(kind, line),
        None => Ok(v.code),
    }
}

/// `+v`, which is no node. Refused: VoidValue, or BadOperand where v is no integer.
#[tactic(auto, unfolding(check_operands::specs::Operands::plus))]
pub fn plus(alloc: Global, line: u32, v: Value) -> Result<Operand, Deny>
    ensures { Checks result (spec.plus line v) }
{
    match integer_breaks(&v) {
        Some(kind) => refused(kind, line),
        None => {
            let Value { code, ctype, .. } = v;
            Ok(made(code, promoted_type(alloc, ctype)))
        }
    }
}

/// `-v` or `~v`. Refused as [`plus`].
#[tactic(auto, unfolding(check_operands::specs::Operands::on_integer))]
pub fn on_integer(alloc: Global, line: u32, kind: UnKind, v: Value) -> Result<Operand, Deny>
    ensures { Checks result (spec.on_integer line kind v) }
{
    match integer_breaks(&v) {
        Some(broken) => refused(broken, line),
        None => {
            let Value { code, ctype, .. } = v;
            let e = typed_tree::unary(alloc, kind, code)?;
            Ok(made(e, promoted_type(alloc, ctype)))
        }
    }
}

fn pointer_breaks(v: &Value) -> Option<FaultKind>
    ensures { result ≡ spec.pointer_breaks v.now }
{
    let ok = is_pointer(&v.ctype) && !points_to_void(&v.ctype);
    unless_void(v, unless_kind(ok, FaultKind::BadOperand))
}

/// `*v`. Refused: VoidValue, or BadOperand where v is no pointer or one to void.
#[tactic(auto, unfolding(check_operands::specs::Operands::dereferenced))]
pub fn dereferenced(line: u32, v: Value) -> Result<Operand, Deny>
    ensures { Checks result (spec.dereferenced line v) }
{
    match pointer_breaks(&v) {
        Some(kind) => refused(kind, line),
        None => {
            let Value { code, ctype, .. } = v;
            Ok(at_address(code, inner(ctype)))
        }
    }
}

/// `!v`. Refused as [`condition`].
#[tactic(auto, unfolding(check_operands::specs::Operands::negated))]
pub fn negated(alloc: Global, line: u32, v: Value) -> Result<Operand, Deny>
    ensures { Checks result (spec.negated line v) }
{
    match test_breaks(&v) {
        Some(kind) => refused(kind, line),
        None => {
            let e = typed_tree::unary(alloc, UnKind::IsZero, v.code)?;
            Ok(made(e, integer(alloc, Integer::Int)))
        }
    }
}

fn cast_breaks(t: &TypeRef, v: &Value) -> Option<FaultKind>
    ensures { result ≡ spec.cast_breaks t.now v.now }
{
    let ok = is_scalar(t) && is_scalar(&v.ctype);
    unless_void(v, unless_kind(ok, FaultKind::BadOperand))
}

/// A cast to this type: of integers and pointers to integers and pointers, and of anything to void. Refused: VoidValue,
/// or BadOperand.
#[tactic(auto, unfolding(check_operands::specs::Operands::cast))]
pub fn cast(alloc: Global, line: u32, t: TypeRef, v: Value) -> Result<Operand, Deny>
    ensures { Checks result (spec.cast line t v) }
{
    if is_void(&t) {
        return Ok(made(typed_tree::void(alloc, v.code)?, t));
    }
    match cast_breaks(&t, &v) {
        Some(kind) => refused(kind, line),
        None => {
            let e = converted(alloc, v, &t)?;
            Ok(made(e, t))
        }
    }
}

/// `a, b`: the type and the value of b.
#[tactic(auto, unfolding(check_operands::specs::Operands::comma))]
pub fn comma(alloc: Global, a: Value, b: Value) -> Result<Operand, AllocError>
    ensures { IfOk result (λ o. o ≡ spec.comma a b) }
{
    let Value { code, ctype, .. } = b;
    let e = typed_tree::comma(alloc, a.code, code)?;
    Ok(made(e, ctype))
}

//! Specifications.

ghost use Rattle.std.specs.Prelude.{◌≡◌, IfOk};
ghost use Rattle.tick_tree.specs.Faults.{Checks};
ghost use Rattle.check_operands.specs.Stages as spec;

use c_type_refs::TypeRef;
use c_types::Layer;
use check_operands::{Operand, Value, made, plain, unless_kind, unless_void};
use check_types::{is_cspec, is_integer, is_scalar, is_void, is_word, over, promoted_type};
use sqlite_items::Boxed;
use std::alloc::{AllocError, Global};
use tick_tree::{Deny, FaultKind, refused};
use typed_tree::Expr;

/// The type of a specification of an expression of this type.
pub fn specification(alloc: Global, t: TypeRef) -> Result<TypeRef, AllocError>
    ensures { IfOk result (λ found. found ≡ spec.specification t) }
{
    over(Layer::Cspec, promoted_type(alloc, t))
}

/// The value of `$v`. Refused: VoidValue, or BadOperand where v has no word type once it is promoted.
#[tactic(auto, unfolding(check_operands::specs::Stages::dollar))]
pub fn dollar(alloc: Global, line: u32, v: Value) -> Result<Value, Deny>
    ensures { Checks result (spec.dollar line v) }
{
    if is_void(&v.ctype) {
        return refused(FaultKind::VoidValue, line);
    }
    let Value { code, ctype, .. } = v;
    let t = promoted_type(alloc, ctype);
    if !is_word(&t) {
        return refused(FaultKind::BadOperand, line);
    }
    Ok(plain(code, t))
}

fn compiles_to(t: &TypeRef) -> bool
    ensures { result ≡ spec.compiles_to t.now }
{
    is_void(t) || is_scalar(t)
}

fn compile_breaks(t: &TypeRef, v: &Value) -> Option<FaultKind>
    ensures { result ≡ spec.compile_breaks t.now v.now }
{
    if !compiles_to(t) {
        return Some(FaultKind::TypeMismatch);
    }
    let kind = unless_kind(is_cspec(&v.ctype), FaultKind::TypeMismatch);
    unless_void(v, kind)
}

fn compiled_type(t: TypeRef) -> Result<TypeRef, AllocError>
    ensures { IfOk result (λ found. found ≡ spec.compiled_type t) }
{
    let function = over(Layer::Unlisted, t)?;
    over(Layer::Pointer, function)
}

fn compiling(alloc: Global, t: TypeRef, e: Boxed<Expr>) -> Result<Operand, AllocError>
    ensures { IfOk result (λ o. o ≡ spec.compiling t e) }
{
    let e = typed_tree::compile(alloc, e)?;
    Ok(made(e, compiled_type(t)?))
}

/// `compile(v, T)`. Refused: TypeMismatch where T is neither void nor an integer nor a pointer, or v no specification;
/// VoidValue.
#[tactic(auto, unfolding(check_operands::specs::Stages::compile))]
pub fn compile(alloc: Global, line: u32, t: TypeRef, v: Value) -> Result<Operand, Deny>
    ensures { Checks result (spec.compile line t v) }
{
    match compile_breaks(&t, &v) {
        Some(kind) => refused(kind, line),
        None => Ok(compiling(alloc, t, v.code)?),
    }
}

/// `local(T)`. Refused: TypeMismatch where T is no word type.
#[tactic(auto, unfolding(check_operands::specs::Stages::local))]
pub fn local(alloc: Global, line: u32, t: TypeRef) -> Result<Operand, Deny>
    ensures { Checks result (spec.local line t) }
{
    if !is_word(&t) {
        return refused(FaultKind::TypeMismatch, line);
    }
    let t = over(Layer::Vspec, t)?;
    Ok(made(Boxed::new(alloc, Expr::Local)?, t))
}

fn parameter_breaks(t: &TypeRef, v: &Value) -> Option<FaultKind>
    ensures { result ≡ spec.parameter_breaks t.now v.now }
{
    if !is_word(t) {
        return Some(FaultKind::TypeMismatch);
    }
    let kind = unless_kind(is_integer(&v.ctype), FaultKind::BadOperand);
    unless_void(v, kind)
}

fn making_parameter(alloc: Global, t: TypeRef, e: Boxed<Expr>) -> Result<Operand, AllocError>
    ensures { IfOk result (λ o. o ≡ spec.making_parameter t e) }
{
    let e = typed_tree::parameter(alloc, e)?;
    Ok(made(e, over(Layer::Vspec, t)?))
}

/// `param(T, v)`. Refused: TypeMismatch where T is no word type; VoidValue, or BadOperand where v is no integer.
#[tactic(auto, unfolding(check_operands::specs::Stages::parameter))]
pub fn parameter(alloc: Global, line: u32, t: TypeRef, v: Value) -> Result<Operand, Deny>
    ensures { Checks result (spec.parameter line t v) }
{
    match parameter_breaks(&t, &v) {
        Some(kind) => refused(kind, line),
        None => Ok(making_parameter(alloc, t, v.code)?),
    }
}

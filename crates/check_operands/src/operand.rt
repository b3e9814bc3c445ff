//! Operands and their values.

ghost use Rattle.std.specs.Prelude.{◌≡◌, IfOk};
ghost use Rattle.check_operands.specs.Operands as spec;
ghost use Rattle.check_operands.specs.Places as places;

use crate::decay::decayed;
use c_conversions::converts;
use c_type_refs::TypeRef;
use check_types::{conversion, decays, integer_of, is_scalar, is_void, narrowing, width_of};
use icode_ops::UnKind;
use sqlite_items::Boxed;
use std::alloc::{AllocError, Global};
use tick_tree::FaultKind;
use typed_tree::Expr;

/// What an expression names.
#[derive(Drop)]
pub enum Place {
    /// Nothing that can be set: a value, by its node.
    Value(Boxed<Expr>),
    /// The register variable of this number.
    Register(u32),
    /// In a tick: the variable of generated code that this capture names.
    Generated(u32),
    /// What stands at the address that this node gives.
    Memory(Boxed<Expr>),
    /// The function of this number.
    Function(u32),
}

/// What an expression is.
#[derive(Drop)]
pub struct Operand {
    /// What it names.
    pub place: Place,
    /// Its type.
    pub ctype: TypeRef,
    /// Whether it is the literal 0.
    pub zero: bool,
}

/// The value of an operand. Where its type is void, no rule takes it.
#[derive(Drop)]
pub struct Value {
    /// Its node.
    pub code: Boxed<Expr>,
    /// Its type, which is neither an array nor a function.
    pub ctype: TypeRef,
    /// Whether it is the literal 0.
    pub zero: bool,
}

#[inline(always)]
fn code_of(alloc: Global, place: Place, t: &TypeRef) -> Result<Boxed<Expr>, AllocError>
    ensures { IfOk result (λ e. e ≡ spec.code_of place t.now) }
{
    match place {
        Place::Value(e) => Ok(e),
        Place::Register(i) => Boxed::new(alloc, Expr::Var(i)),
        Place::Generated(i) => Boxed::new(alloc, Expr::VGet(i)),
        Place::Memory(address) => {
            if decays(t) {
                Ok(address)
            } else {
                typed_tree::load(alloc, width_of(t), address)
            }
        }
        Place::Function(f) => Boxed::new(alloc, Expr::Const(f)),
    }
}

/// The value of an operand: an array or a function gives a pointer.
#[inline(always)]
#[tactic(auto, unfolding(crate::specs::Operands::value_of))]
pub fn value_of(alloc: Global, o: Operand) -> Result<Value, AllocError>
    ensures { IfOk result (λ v. v ≡ spec.value_of o) }
{
    let Operand { place, ctype, zero } = o;
    let code = code_of(alloc, place, &ctype)?;
    if decays(&ctype) {
        let ctype = decayed(ctype)?;
        Ok(Value { code, ctype, zero })
    } else {
        Ok(Value { code, ctype, zero })
    }
}

/// The values of two operands.
#[inline(always)]
#[tactic(auto, unfolding(crate::specs::Operands::values))]
pub fn values(alloc: Global, a: Operand, b: Operand) -> Result<(Value, Value), AllocError>
    ensures { IfOk result (λ found. found ≡ spec.values a b) }
{
    let x = value_of(alloc, a)?;
    let y = value_of(alloc, b)?;
    Ok((x, y))
}

/// A value of this node and type that is not the literal 0.
pub fn plain(code: Boxed<Expr>, ctype: TypeRef) -> Value
    ensures { result ≡ spec.plain code ctype }
{
    Value {
        code,
        ctype,
        zero: false,
    }
}

/// A value as an operand.
pub fn as_operand(v: Value) -> Operand
    ensures { result ≡ spec.as_operand v }
{
    let Value { code, ctype, zero } = v;
    Operand {
        place: Place::Value(code),
        ctype,
        zero,
    }
}

/// An expression of this node and type that is no place.
pub fn made(code: Boxed<Expr>, ctype: TypeRef) -> Operand
    ensures { result ≡ spec.made code ctype }
{
    as_operand(plain(code, ctype))
}

/// What stands at this address.
pub fn at_address(address: Boxed<Expr>, ctype: TypeRef) -> Operand
    ensures { result ≡ spec.at_address address ctype }
{
    Operand {
        place: Place::Memory(address),
        ctype,
        zero: false,
    }
}

/// An operand outside `&`: an array or a function has become a pointer, which is no place.
#[inline(always)]
#[tactic(auto, unfolding(crate::specs::Operands::settled))]
pub fn settled(alloc: Global, o: Operand) -> Result<Operand, AllocError>
    ensures { IfOk result (λ found. found ≡ spec.settled o) }
{
    if decays(&o.ctype) {
        Ok(as_operand(value_of(alloc, o)?))
    } else {
        Ok(o)
    }
}

/// The node of an operand whose value is let go.
#[inline(always)]
pub fn effect(alloc: Global, o: Operand) -> Result<Boxed<Expr>, AllocError>
    ensures { IfOk result (λ e. e ≡ spec.effect o) }
{
    let v = value_of(alloc, o)?;
    Ok(v.code)
}

/// The node of a word after this conversion, or as it is.
pub fn converted_by(
    alloc: Global,
    kind: Option<UnKind>,
    e: Boxed<Expr>,
) -> Result<Boxed<Expr>, AllocError>
    ensures { IfOk result (λ found. found ≡ spec.converted_by kind e) }
{
    match kind {
        None => Ok(e),
        Some(kind) => typed_tree::unary(alloc, kind, e),
    }
}

/// The node of a value as a value of a type that it converts to.
#[tactic(auto, unfolding(crate::specs::Operands::converted))]
pub fn converted(alloc: Global, v: Value, to: &TypeRef) -> Result<Boxed<Expr>, AllocError>
    ensures { IfOk result (λ e. e ≡ spec.converted v to.now) }
{
    let kind = conversion(&v.ctype, to);
    converted_by(alloc, kind, v.code)
}

/// A word as a value of a type.
pub fn narrowed(alloc: Global, t: &TypeRef, e: Boxed<Expr>) -> Result<Boxed<Expr>, AllocError>
    ensures { IfOk result (λ found. found ≡ places.narrowed t.now e) }
{
    match integer_of(t) {
        None => Ok(e),
        Some(kind) => converted_by(alloc, narrowing(kind), e),
    }
}

/// VoidValue where a value is void, or else this broken rule.
pub fn unless_void(v: &Value, other: Option<FaultKind>) -> Option<FaultKind>
    ensures { result ≡ spec.unless_void v.now other }
{
    if is_void(&v.ctype) {
        Some(FaultKind::VoidValue)
    } else {
        other
    }
}

/// This broken rule unless all is well.
pub fn unless_kind(ok: bool, kind: FaultKind) -> Option<FaultKind>
    ensures { result ≡ spec.unless_kind ok kind }
{
    if ok { None } else { Some(kind) }
}

/// What a test breaks: VoidValue, or BadOperand where it is neither an integer nor a pointer.
pub fn test_breaks(v: &Value) -> Option<FaultKind>
    ensures { result ≡ spec.test_breaks v.now }
{
    unless_void(v, unless_kind(is_scalar(&v.ctype), FaultKind::BadOperand))
}

//! Operators between two values.

// What is owned is dropped by hand before an error goes on. Over a `?` its drop would be written out at each exit,
// variant by variant (CONTRIBUTING.md, "How to keep proofs cheap", 3). The order of the drops means nothing.

ghost use Rattle.std.specs.Prelude.{◌≡◌, ◌==◌, if◌then◌else◌, IfOk, Ok};
ghost use Rattle.c_types.specs.declared.ctype.Integer.TheVariants.{Int};
ghost use Rattle.check_operands.specs.Operands.{by, made};
ghost use Rattle.typed_tree.specs.declared.expression.Expr.TheVariants.{And, Bin, Const, Or};
ghost use Rattle.tick_tree.specs.Faults.{Checks};
ghost use Rattle.check_operands.specs.Operators as spec;
ghost use Rattle.check_types.specs.Shapes as shapes;

use c_conversions::{common, converts, same};
use c_type_refs::{TypeRef, pointed_size};
use c_types::{Integer, promoted};
use check_operands::{
    Combined, Joined, Operand, Value, at_address, made, test_breaks, unless_kind,
};
use check_types::{
    inner, integer, integer_of, is_integer, is_pointer, is_scalar, is_void, points_to_void, void,
};
use icode_ops::BinKind;
use sqlite_items::Boxed;
use std::alloc::{AllocError, Global};
use tick_tree::{BinaryOp, Deny, FaultKind, refused};
use typed_tree::Expr;

fn is_unsigned(kind: Integer) -> bool
    ensures { result ≡ spec.is_unsigned kind }
{
    matches!(kind, Integer::Unsigned)
}

fn by_sign(unsigned: bool, a: BinKind, b: BinKind) -> BinKind
    ensures { result ≡ spec.by_sign unsigned a b }
{
    if unsigned { a } else { b }
}

fn kind_of(op: BinaryOp, unsigned: bool) -> BinKind
    ensures { result ≡ spec.kind_of op unsigned }
{
    match op {
        BinaryOp::Mul => BinKind::Multiply,
        BinaryOp::Div => by_sign(unsigned, BinKind::DivideUnsigned, BinKind::DivideSigned),
        BinaryOp::Rem => by_sign(
            unsigned,
            BinKind::RemainderUnsigned,
            BinKind::RemainderSigned,
        ),
        BinaryOp::Add => BinKind::Add,
        BinaryOp::Sub => BinKind::Subtract,
        BinaryOp::ShiftLeft => BinKind::ShiftLeft,
        BinaryOp::ShiftRight => {
            by_sign(
                unsigned,
                BinKind::ShiftRightUnsigned,
                BinKind::ShiftRightSigned,
            )
        }
        BinaryOp::Less => by_sign(unsigned, BinKind::LessUnsigned, BinKind::LessSigned),
        BinaryOp::Greater => by_sign(unsigned, BinKind::GreaterUnsigned, BinKind::GreaterSigned),
        BinaryOp::AtMost => {
            by_sign(
                unsigned,
                BinKind::LessOrEqualUnsigned,
                BinKind::LessOrEqualSigned,
            )
        }
        BinaryOp::AtLeast => {
            by_sign(
                unsigned,
                BinKind::GreaterOrEqualUnsigned,
                BinKind::GreaterOrEqualSigned,
            )
        }
        BinaryOp::Equal => BinKind::Equal,
        BinaryOp::NotEqual => BinKind::NotEqual,
        BinaryOp::BitAnd | BinaryOp::And => BinKind::And,
        BinaryOp::BitXor => BinKind::Xor,
        BinaryOp::BitOr | BinaryOp::Or => BinKind::Or,
    }
}

fn is_comparison(op: BinaryOp) -> bool
    ensures { result ≡ spec.is_comparison op }
{
    matches!(
        op,
        BinaryOp::Less
            | BinaryOp::Greater
            | BinaryOp::AtMost
            | BinaryOp::AtLeast
            | BinaryOp::Equal
            | BinaryOp::NotEqual
    )
}

fn is_shift(op: BinaryOp) -> bool
    ensures { result ≡ spec.is_shift op }
{
    matches!(op, BinaryOp::ShiftLeft | BinaryOp::ShiftRight)
}

fn is_sum(op: BinaryOp) -> bool
    ensures { result ≡ spec.is_sum op }
{
    matches!(op, BinaryOp::Add)
}

fn is_difference(op: BinaryOp) -> bool
    ensures { result ≡ spec.is_difference op }
{
    matches!(op, BinaryOp::Sub)
}

#[tactic(auto, unfolding(check_operands::specs::Operators::operation))]
fn operation(op: BinaryOp, x: Integer, y: Integer) -> Integer
    ensures { result ≡ spec.operation op x y }
{
    if is_shift(op) {
        promoted(x)
    } else {
        common(x, y)
    }
}

#[tactic(auto, unfolding(check_operands::specs::Operators::integers))]
fn integers(op: BinaryOp, x: Integer, y: Integer) -> Combined
    ensures { result ≡ spec.integers op x y }
{
    let by = operation(op, x, y);
    let kind = kind_of(op, is_unsigned(by));
    if is_comparison(op) {
        Combined::Words(kind, Integer::Int)
    } else {
        Combined::Words(kind, by)
    }
}

fn comparing(op: BinaryOp, allowed: bool) -> Option<Combined>
    ensures { result ≡ spec.comparing op allowed }
{
    if is_comparison(op) && allowed {
        Some(Combined::Words(kind_of(op, true), Integer::Int))
    } else {
        None
    }
}

fn with_pointer(op: BinaryOp, zero: bool, b: &TypeRef) -> Option<Combined>
    ensures { result ≡ spec.with_pointer op zero b.now }
{
    if is_sum(op) {
        match pointed_size(b) {
            None => None,
            Some(size) => Some(Combined::ScaledLeft(size)),
        }
    } else {
        comparing(op, zero && is_pointer(b))
    }
}

fn with_integer(op: BinaryOp, a: &TypeRef, zero: bool) -> Option<Combined>
    ensures { result ≡ spec.with_integer op a.now zero }
{
    if is_sum(op) || is_difference(op) {
        match pointed_size(a) {
            None => None,
            Some(size) => Some(Combined::ScaledRight(kind_of(op, true), size)),
        }
    } else {
        comparing(op, zero && is_pointer(a))
    }
}

fn comparable(a: &TypeRef, b: &TypeRef) -> bool
    ensures { result ≡ spec.comparable a.now b.now }
{
    is_pointer(a) && is_pointer(b) && (same(a, b) || points_to_void(a) || points_to_void(b))
}

fn difference(a: &TypeRef, b: &TypeRef) -> Option<Combined>
    ensures { result ≡ spec.difference a.now b.now }
{
    if same(a, b) {
        match pointed_size(a) {
            None => None,
            Some(size) => Some(Combined::Divided(size)),
        }
    } else {
        None
    }
}

fn with_pointers(op: BinaryOp, a: &TypeRef, b: &TypeRef) -> Option<Combined>
    ensures { result ≡ spec.with_pointers op a.now b.now }
{
    if is_difference(op) {
        difference(a, b)
    } else {
        comparing(op, comparable(a, b))
    }
}

/// How an operator other than `&&` and `||` takes two values of these types, which are the literal 0 or not; none where
/// its rule hasn't these types.
#[tactic(auto, unfolding(check_operands::specs::Operators::combine))]
pub fn combine(
    op: BinaryOp,
    a: &TypeRef,
    a_zero: bool,
    b: &TypeRef,
    b_zero: bool,
) -> Option<Combined>
    ensures { result ≡ spec.combine op a.now a_zero b.now b_zero }
{
    match integer_of(a) {
        Some(x) => match integer_of(b) {
            Some(y) => Some(integers(op, x, y)),
            None => with_pointer(op, a_zero, b),
        },
        None => match integer_of(b) {
            Some(_) => with_integer(op, a, b_zero),
            None => with_pointers(op, a, b),
        },
    }
}

// Makes the node of an integer times a size in bytes, or divided by it.
fn by_size(
    alloc: Global,
    kind: BinKind,
    e: Boxed<Expr>,
    size: u32,
) -> Result<Boxed<Expr>, AllocError>
    ensures { IfOk result (λ found. found ≡ if size == 1 then e else Bin kind e (Const size)) }
{
    if size == 1 {
        return Ok(e);
    }
    let size = Boxed::new(alloc, Expr::Const(size))?;
    typed_tree::binary(alloc, kind, e, size)
}

/// An integer scaled by a size in bytes.
pub fn scaled(alloc: Global, e: Boxed<Expr>, size: u32) -> Result<Boxed<Expr>, AllocError>
    ensures { IfOk result (λ found. found ≡ spec.scaled e size) }
{
    by_size(alloc, BinKind::Multiply, e, size)
}

/// The node of an operator on these two words.
pub fn built(
    alloc: Global,
    by: Combined,
    x: Boxed<Expr>,
    y: Boxed<Expr>,
) -> Result<Boxed<Expr>, AllocError>
    ensures { IfOk result (λ found. found ≡ spec.built by x y) }
{
    match by {
        Combined::Words(kind, _) => typed_tree::binary(alloc, kind, x, y),
        Combined::ScaledRight(kind, size) => {
            let step = scaled(alloc, y, size)?;
            typed_tree::binary(alloc, kind, x, step)
        }
        Combined::ScaledLeft(size) => {
            let step = scaled(alloc, x, size)?;
            typed_tree::binary(alloc, BinKind::Add, step, y)
        }
        Combined::Divided(size) => {
            let bytes = typed_tree::binary(alloc, BinKind::Subtract, x, y)?;
            by_size(alloc, BinKind::DivideSigned, bytes, size)
        }
    }
}

fn type_of(alloc: Global, by: Combined, a: TypeRef, b: TypeRef) -> TypeRef
    ensures { result ≡ spec.type_of by a b }
{
    match by {
        Combined::Words(_, kind) => integer(alloc, kind),
        Combined::ScaledRight(_, _) => a,
        Combined::ScaledLeft(_) => b,
        Combined::Divided(_) => integer(alloc, Integer::Int),
    }
}

fn combination(alloc: Global, by: Combined, a: Value, b: Value) -> Result<Operand, Deny>
    ensures { Checks result (Ok (spec.combination by a b)) }
{
    let Value { code, ctype, .. } = a;
    let Value {
        code: right,
        ctype: other,
        ..
    } = b;
    let e = built(alloc, by, code, right)?;
    Ok(made(e, type_of(alloc, by, ctype, other)))
}

#[tactic(auto, unfolding(check_operands::specs::Operators::arithmetic))]
fn arithmetic(alloc: Global, line: u32, op: BinaryOp, a: Value, b: Value) -> Result<Operand, Deny>
    ensures { Checks result (spec.arithmetic line op a b) }
{
    if is_void(&a.ctype) || is_void(&b.ctype) {
        drop(a);
        drop(b);
        return refused(FaultKind::VoidValue, line);
    }
    match combine(op, &a.ctype, a.zero, &b.ctype, b.zero) {
        None => {
            drop(a);
            drop(b);
            refused(FaultKind::BadOperand, line)
        }
        Some(by) => combination(alloc, by, a, b),
    }
}

fn logic_breaks(a: &Value, b: &Value) -> Option<FaultKind>
    ensures { result ≡ spec.logic_breaks a.now b.now }
{
    if is_void(&a.ctype) || is_void(&b.ctype) {
        return Some(FaultKind::VoidValue);
    }
    let ok = is_scalar(&a.ctype) && is_scalar(&b.ctype);
    unless_kind(ok, FaultKind::BadOperand)
}

// Makes the node of `a && b`, or of `a || b`.
fn logic(alloc: Global, line: u32, is_and: bool, a: Value, b: Value) -> Result<Operand, Deny>
    ensures { Checks result (by line (spec.logic_breaks a b)
        (made (if is_and then And a.code b.code else Or a.code b.code) (shapes.integer Int))) }
{
    if let Some(kind) = logic_breaks(&a, &b) {
        drop(a);
        drop(b);
        return refused(kind, line);
    }
    let e = if is_and {
        typed_tree::both(alloc, a.code, b.code)?
    } else {
        typed_tree::either(alloc, a.code, b.code)?
    };
    Ok(made(e, integer(alloc, Integer::Int)))
}

/// An operator between two values. Refused: VoidValue, or BadOperand where the operator's rule hasn't their types.
#[tactic(auto, unfolding(check_operands::specs::Operators::both, check_operands::specs::Operators::either))]
pub fn binary(alloc: Global, line: u32, op: BinaryOp, a: Value, b: Value) -> Result<Operand, Deny>
    ensures { Checks result (spec.binary line op a b) }
{
    match op {
        BinaryOp::And => logic(alloc, line, true, a, b),
        BinaryOp::Or => logic(alloc, line, false, a, b),
        _ => arithmetic(alloc, line, op, a, b),
    }
}

fn element(alloc: Global, a: Value, b: Value, size: u32) -> Result<Operand, Deny>
    ensures { Checks result (Ok (spec.element a b size)) }
{
    let Value { code, ctype, .. } = a;
    let step = scaled(alloc, b.code, size)?;
    let e = typed_tree::binary(alloc, BinKind::Add, code, step)?;
    Ok(at_address(e, inner(ctype)))
}

/// `a[b]`. Refused: VoidValue, or BadOperand where a is no pointer to what has a size, or b no integer.
#[tactic(auto, unfolding(check_operands::specs::Operators::index))]
pub fn index(alloc: Global, line: u32, a: Value, b: Value) -> Result<Operand, Deny>
    ensures { Checks result (spec.index line a b) }
{
    let size = if is_void(&a.ctype) || is_void(&b.ctype) {
        Err(FaultKind::VoidValue)
    } else if is_integer(&b.ctype) {
        pointed_size(&a.ctype).ok_or(FaultKind::BadOperand)
    } else {
        Err(FaultKind::BadOperand)
    };
    match size {
        Err(kind) => {
            drop(a);
            drop(b);
            refused(kind, line)
        }
        Ok(size) => element(alloc, a, b, size),
    }
}

fn joined_values(a: &Value, b: &Value) -> Option<Joined>
    ensures { result ≡ spec.joined_values a.now b.now }
{
    if converts(&b.ctype, &a.ctype, b.zero) {
        return Some(Joined::First);
    }
    if converts(&a.ctype, &b.ctype, a.zero) {
        Some(Joined::Second)
    } else {
        None
    }
}

fn joined_by(a: &Value, b: &Value) -> Option<Joined>
    ensures { result ≡ spec.joined_by a.now b.now (shapes.integer_of a.now.ctype) (shapes.integer_of b.now.ctype) }
{
    match integer_of(&a.ctype) {
        Some(x) => match integer_of(&b.ctype) {
            Some(y) => Some(Joined::Common(common(x, y))),
            None => joined_values(a, b),
        },
        None => joined_values(a, b),
    }
}

#[tactic(auto, unfolding(check_operands::specs::Operators::joined_type))]
fn joined_type(a: &Value, b: &Value) -> Option<Joined>
    ensures { result ≡ spec.joined_type a.now b.now }
{
    if is_void(&a.ctype) && is_void(&b.ctype) {
        return Some(Joined::Void);
    }
    if is_void(&a.ctype) || is_void(&b.ctype) {
        return None;
    }
    joined_by(a, b)
}

fn type_joined(alloc: Global, by: Joined, a: TypeRef, b: TypeRef) -> TypeRef
    ensures { result ≡ spec.type_joined by a b }
{
    match by {
        Joined::Void => void(alloc),
        Joined::Common(kind) => integer(alloc, kind),
        Joined::First => a,
        Joined::Second => b,
    }
}

fn joining(
    alloc: Global,
    test: Boxed<Expr>,
    by: Joined,
    a: Value,
    b: Value,
) -> Result<Operand, Deny>
    ensures { Checks result (Ok (spec.joining test by a b)) }
{
    let Value { code, ctype, .. } = a;
    let Value {
        code: right,
        ctype: other,
        ..
    } = b;
    let e = typed_tree::choice(alloc, test, code, right)?;
    Ok(made(e, type_joined(alloc, by, ctype, other)))
}

/// `c ? a : b`. Refused: TypeMismatch where a and b have no type together; VoidValue or BadOperand where c is no test.
#[tactic(auto, unfolding(check_operands::specs::Operators::choice))]
pub fn choice(alloc: Global, line: u32, c: Value, a: Value, b: Value) -> Result<Operand, Deny>
    ensures { Checks result (spec.choice line c a b) }
{
    let Some(by) = joined_type(&a, &b) else {
        drop(c);
        drop(a);
        drop(b);
        return refused(FaultKind::TypeMismatch, line);
    };
    match test_breaks(&c) {
        Some(kind) => {
            drop(c);
            drop(a);
            drop(b);
            refused(kind, line)
        }
        None => joining(alloc, c.code, by, a, b),
    }
}

//! What changes a place, and what takes its address.

// What is owned is dropped by hand before an error goes on. Over a `?` its drop would be written out at each exit,
// variant by variant (CONTRIBUTING.md, "How to keep proofs cheap", 3). The order of the drops means nothing.

ghost use Rattle.std.specs.Prelude.{◌≡◌, IfOk, Ok};
ghost use Rattle.tick_tree.specs.Faults.{Checks};
ghost use Rattle.check_operands.specs.Places as spec;
ghost use Rattle.check_types.specs.Shapes as shapes;

use crate::operators::{built, combine, scaled};
use c_conversions::converts;
use c_type_refs::{TypeRef, pointed_size};
use c_types::{Integer, Layer};
use check_operands::{Combined, Operand, Place, Value, converted, converted_by, made, narrowed};
use check_types::{integer_of, is_void, narrowing, over, width_of};
use icode_ops::BinKind;
use sqlite_items::Boxed;
use std::alloc::{AllocError, Global};
use tick_tree::{BinaryOp, Deny, FaultKind, ModifyOp, StepOp, refused};
use typed_tree::Expr;

fn is_place(place: &Place) -> bool
    ensures { result ≡ spec.is_place place.now }
{
    match place {
        Place::Register(_) | Place::Generated(_) | Place::Memory(_) => true,
        Place::Value(_) | Place::Function(_) => false,
    }
}

fn mismatches(t: &TypeRef, v: &Value) -> bool
    ensures { result ≡ spec.mismatches t.now v.now }
{
    !is_void(t) && !is_void(&v.ctype) && !converts(&v.ctype, t, v.zero)
}

fn place_breaks(o: &Operand, other: Option<FaultKind>) -> Option<FaultKind>
    ensures { result ≡ spec.place_breaks o.now other }
{
    if is_place(&o.place) {
        other
    } else {
        Some(FaultKind::NotPlace)
    }
}

fn void_breaks(v: &Value) -> Option<FaultKind>
    ensures { result ≡ spec.void_breaks v.now }
{
    if is_void(&v.ctype) {
        Some(FaultKind::VoidValue)
    } else {
        None
    }
}

fn assign_breaks(o: &Operand, v: &Value) -> Option<FaultKind>
    ensures { result ≡ spec.assign_breaks o.now v.now }
{
    if mismatches(&o.ctype, v) {
        Some(FaultKind::TypeMismatch)
    } else {
        place_breaks(o, void_breaks(v))
    }
}

fn stored(
    alloc: Global,
    place: Place,
    t: &TypeRef,
    e: Boxed<Expr>,
) -> Result<Boxed<Expr>, AllocError>
    ensures { IfOk result (λ found. found ≡ spec.stored place t.now e) }
{
    match place {
        Place::Value(_) | Place::Function(_) => Ok(e),
        Place::Register(i) => typed_tree::set_variable(alloc, i, e),
        Place::Generated(i) => typed_tree::set_generated(alloc, i, e),
        Place::Memory(address) => typed_tree::store(alloc, width_of(t), address, e),
    }
}

fn assigned(alloc: Global, o: Operand, v: Value) -> Result<Operand, Deny>
    ensures { Checks result (Ok (spec.assigned o v)) }
{
    let Operand { place, ctype, .. } = o;
    let e = converted(alloc, v, &ctype)?;
    let e = stored(alloc, place, &ctype, e)?;
    Ok(made(e, ctype))
}

/// `o = v`, with o settled. Refused: TypeMismatch, NotPlace or VoidValue.
#[tactic(auto, unfolding(check_operands::specs::Places::assign))]
pub fn assign(alloc: Global, line: u32, o: Operand, v: Value) -> Result<Operand, Deny>
    ensures { Checks result (spec.assign line o v) }
{
    match assign_breaks(&o, &v) {
        Some(kind) => {
            drop(o);
            drop(v);
            refused(kind, line)
        }
        None => assigned(alloc, o, v),
    }
}

fn operator_of(op: ModifyOp) -> BinaryOp
    ensures { result ≡ spec.operator_of op }
{
    match op {
        ModifyOp::Mul => BinaryOp::Mul,
        ModifyOp::Div => BinaryOp::Div,
        ModifyOp::Rem => BinaryOp::Rem,
        ModifyOp::Add => BinaryOp::Add,
        ModifyOp::Sub => BinaryOp::Sub,
        ModifyOp::ShiftLeft => BinaryOp::ShiftLeft,
        ModifyOp::ShiftRight => BinaryOp::ShiftRight,
        ModifyOp::BitAnd => BinaryOp::BitAnd,
        ModifyOp::BitXor => BinaryOp::BitXor,
        ModifyOp::BitOr => BinaryOp::BitOr,
    }
}

fn comes_back(by: Combined) -> bool
    ensures { result ≡ spec.comes_back by }
{
    matches!(by, Combined::Words(_, _) | Combined::ScaledRight(_, _))
}

fn modify_fault(o: &Operand, v: &Value) -> FaultKind
    ensures { result ≡ spec.modify_fault o.now v.now }
{
    if !is_place(&o.place) {
        return FaultKind::NotPlace;
    }
    if is_void(&v.ctype) {
        FaultKind::VoidValue
    } else {
        FaultKind::BadOperand
    }
}

fn combined_breaks(o: &Operand, by: Combined) -> Option<FaultKind>
    ensures { result ≡ spec.combined_breaks o.now by }
{
    if comes_back(by) {
        place_breaks(o, None)
    } else {
        Some(FaultKind::TypeMismatch)
    }
}

fn kind_in(by: Combined) -> BinKind
    ensures { result ≡ spec.kind_in by }
{
    match by {
        Combined::Words(kind, _) | Combined::ScaledRight(kind, _) => kind,
        Combined::ScaledLeft(_) => BinKind::Add,
        Combined::Divided(_) => BinKind::Subtract,
    }
}

fn right_in(alloc: Global, by: Combined, e: Boxed<Expr>) -> Result<Boxed<Expr>, AllocError>
    ensures { IfOk result (λ found. found ≡ spec.right_in by e) }
{
    match by {
        Combined::ScaledRight(_, size) => scaled(alloc, e, size),
        Combined::Words(_, _) | Combined::ScaledLeft(_) | Combined::Divided(_) => Ok(e),
    }
}

fn changed_register(
    alloc: Global,
    by: Combined,
    i: u32,
    t: &TypeRef,
    e: Boxed<Expr>,
) -> Result<Boxed<Expr>, AllocError>
    ensures { IfOk result (λ found. found ≡ spec.changed_register by i t.now e) }
{
    let old = Boxed::new(alloc, Expr::Var(i))?;
    let sum = built(alloc, by, old, e)?;
    let sum = narrowed(alloc, t, sum)?;
    typed_tree::set_variable(alloc, i, sum)
}

fn changed_generated(
    alloc: Global,
    by: Combined,
    i: u32,
    e: Boxed<Expr>,
) -> Result<Boxed<Expr>, AllocError>
    ensures { IfOk result (λ found. found ≡ spec.changed_generated by i e) }
{
    let old = Boxed::new(alloc, Expr::VGet(i))?;
    let sum = built(alloc, by, old, e)?;
    typed_tree::set_generated(alloc, i, sum)
}

fn changed_memory(
    alloc: Global,
    by: Combined,
    address: Boxed<Expr>,
    t: &TypeRef,
    e: Boxed<Expr>,
) -> Result<Boxed<Expr>, AllocError>
    ensures { IfOk result (λ found. found ≡ spec.changed_memory by address t.now e) }
{
    let right = right_in(alloc, by, e)?;
    typed_tree::modify(alloc, width_of(t), kind_in(by), address, right)
}

fn changed(
    alloc: Global,
    by: Combined,
    place: Place,
    t: &TypeRef,
    e: Boxed<Expr>,
) -> Result<Boxed<Expr>, AllocError>
    ensures { IfOk result (λ found. found ≡ spec.changed by place t.now e) }
{
    match place {
        Place::Value(_) | Place::Function(_) => Ok(e),
        Place::Register(i) => changed_register(alloc, by, i, t, e),
        Place::Generated(i) => changed_generated(alloc, by, i, e),
        Place::Memory(address) => changed_memory(alloc, by, address, t, e),
    }
}

fn modified(
    alloc: Global,
    line: u32,
    by: Combined,
    o: Operand,
    e: Boxed<Expr>,
) -> Result<Operand, Deny>
    ensures { Checks result (spec.modified line by o e) }
{
    match combined_breaks(&o, by) {
        Some(kind) => {
            drop(o);
            drop(e);
            refused(kind, line)
        }
        None => {
            let Operand { place, ctype, .. } = o;
            let e = changed(alloc, by, place, &ctype, e)?;
            Ok(made(e, ctype))
        }
    }
}

/// `o op= v`, with o settled. Refused: TypeMismatch, NotPlace, BadOperand or VoidValue.
#[tactic(auto, unfolding(check_operands::specs::Places::modify))]
pub fn modify(alloc: Global, line: u32, op: ModifyOp, o: Operand, v: Value) -> Result<Operand, Deny>
    ensures { Checks result (spec.modify line op o v) }
{
    match combine(operator_of(op), &o.ctype, false, &v.ctype, v.zero) {
        None => {
            let kind = modify_fault(&o, &v);
            drop(o);
            drop(v);
            refused(kind, line)
        }
        Some(by) => modified(alloc, line, by, o, v.code),
    }
}

fn step_of(t: &TypeRef) -> Option<u32>
    ensures { result ≡ spec.step_of t.now }
{
    match integer_of(t) {
        Some(_) => Some(1),
        None => pointed_size(t),
    }
}

fn step_kind(op: StepOp) -> BinKind
    ensures { result ≡ spec.step_kind op }
{
    match op {
        StepOp::Increment => BinKind::Add,
        StepOp::Decrement => BinKind::Subtract,
    }
}

fn step_fault(o: &Operand) -> FaultKind
    ensures { result ≡ spec.step_fault o.now }
{
    if is_place(&o.place) {
        FaultKind::BadOperand
    } else {
        FaultKind::NotPlace
    }
}

/// `++o` and `--o`, with o settled. Refused: NotPlace, or BadOperand where o is neither an integer nor a pointer to
/// what has a size.
#[tactic(auto, unfolding(check_operands::specs::Places::stepped))]
pub fn stepped(alloc: Global, line: u32, op: StepOp, o: Operand) -> Result<Operand, Deny>
    ensures { Checks result (spec.stepped line op o) }
{
    match step_of(&o.ctype) {
        None => {
            let kind = step_fault(&o);
            drop(o);
            refused(kind, line)
        }
        Some(size) => {
            let by = Combined::Words(step_kind(op), Integer::Int);
            let step = Boxed::new(alloc, Expr::Const(size))?;
            modified(alloc, line, by, o, step)
        }
    }
}

fn amount(op: StepOp, size: u32) -> u32
    ensures { result ≡ spec.amount op size }
{
    match op {
        StepOp::Increment => size,
        StepOp::Decrement => { if size == 0 { 0 } else { u32::MAX - (size - 1) } }
    }
}

fn posted(alloc: Global, place: Place, t: &TypeRef, n: u32) -> Result<Boxed<Expr>, AllocError>
    ensures { IfOk result (λ found. found ≡ spec.posted place t.now n) }
{
    match place {
        Place::Value(e) => Ok(e),
        Place::Register(i) => Boxed::new(alloc, Expr::PostVar(i, width_of(t), n)),
        Place::Generated(i) => Boxed::new(alloc, Expr::VPost(i, n)),
        Place::Memory(address) => typed_tree::post(alloc, width_of(t), n, address),
        Place::Function(f) => Boxed::new(alloc, Expr::Const(f)),
    }
}

fn posting(alloc: Global, o: Operand, n: u32) -> Result<Operand, Deny>
    ensures { Checks result (Ok (spec.posting o n)) }
{
    let Operand { place, ctype, .. } = o;
    let e = posted(alloc, place, &ctype, n)?;
    Ok(made(e, ctype))
}

/// `o++` and `o--`, with o settled. Refused as [`stepped`].
#[tactic(auto, unfolding(check_operands::specs::Places::post))]
pub fn post(alloc: Global, line: u32, op: StepOp, o: Operand) -> Result<Operand, Deny>
    ensures { Checks result (spec.post line op o) }
{
    let Some(size) = step_of(&o.ctype) else {
        let kind = step_fault(&o);
        drop(o);
        return refused(kind, line);
    };
    match place_breaks(&o, None) {
        Some(kind) => {
            drop(o);
            refused(kind, line)
        }
        None => posting(alloc, o, amount(op, size)),
    }
}

/// `&o`, with o as it is: an array or a function is a place here. Refused: NotPlace, or AddressOfRegister for a
/// variable of generated code.
#[tactic(auto, unfolding(check_operands::specs::Places::address))]
pub fn address(line: u32, o: Operand) -> Result<Operand, Deny>
    ensures { Checks result (spec.address line o) }
{
    let Operand { place, ctype, .. } = o;
    match place {
        Place::Value(_) | Place::Function(_) => refused(FaultKind::NotPlace, line),
        Place::Register(_) | Place::Generated(_) => refused(FaultKind::AddressOfRegister, line),
        Place::Memory(a) => Ok(made(a, over(Layer::Pointer, ctype)?)),
    }
}

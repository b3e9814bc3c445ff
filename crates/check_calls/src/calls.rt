//! Calls and returns.

ghost use Rattle.std.specs.Prelude.{◌≡◌, IfOk, slice_get};
ghost use Rattle.tick_tree.specs.Faults.{Checks};
ghost use Rattle.check_operands.specs.Calls as spec;
ghost use Rattle.c_types.specs.Types as types;

use c_conversions::{converts, converts_to};
use c_type_refs::{Layers, Parameter, Parameters, TypeRef};
use c_types::Layer;
use check_operands::{
    Argument, Arguments, Callee, Operand, Place, Value, converted, made, narrowed, value_of,
};
use check_types::{inner, is_pointer, is_void};
use limits::program::MOST_ARGUMENTS;
use sqlite_items::{Boxed, Items};
use std::alloc::{AllocError, Global};
use tick_tree::{Deny, FaultKind, refused};
use typed_tree::{Answer, Expr, Library};

fn mismatches(a: &Argument, t: &Parameter<'_>) -> bool
    ensures { result ≡ spec.mismatches a.now t.now }
{
    !is_void(&a.ctype) && !converts_to(&a.ctype, t, a.zero)
}

fn any_mismatches(list: &[Argument], types: &Parameters<'_>) -> bool
    ensures { result ≡ spec.any_mismatches list.now types.now }
{
    for i in 0..list.len() {
        match types.get(i) {
            Some(t) => {
                if mismatches(&list[i], &t) {
                    return true;
                }
            }
            None => return false,
        }
    }
    false
}

fn any_void(list: &[Argument]) -> bool
    ensures { result ≡ spec.any_void list.now }
{
    list.iter().any(|a| is_void(&a.ctype))
}

fn arguments_break(list: &[Argument]) -> Option<FaultKind>
    ensures { result ≡ spec.arguments_break list.now }
{
    if any_void(list) {
        return Some(FaultKind::VoidValue);
    }
    if list.len() <= MOST_ARGUMENTS as usize {
        None
    } else {
        Some(FaultKind::TooManyParameters)
    }
}

fn listed_breaks(list: &[Argument], types: &Parameters<'_>) -> Option<FaultKind>
    ensures { result ≡ spec.listed_breaks list.now types.now }
{
    if list.len() != types.len() {
        return Some(FaultKind::ArgumentCount);
    }
    if any_mismatches(list, types) {
        Some(FaultKind::TypeMismatch)
    } else {
        arguments_break(list)
    }
}

fn called_breaks_by(list: &[Argument], layers: &Layers<'_>) -> Option<FaultKind>
    ensures { result ≡ spec.called_breaks_by list.now (types.outermost layers.now) }
{
    match layers.last() {
        Some(Layer::Function(_)) => listed_breaks(list, &layers.parameters()),
        Some(Layer::Unlisted) => arguments_break(list),
        _ => Some(FaultKind::NotFunction),
    }
}

fn called_breaks(t: &TypeRef, list: &[Argument]) -> Option<FaultKind>
    ensures { result ≡ spec.called_breaks t.now list.now }
{
    called_breaks_by(list, &t.layers())
}

fn answer_of(t: &TypeRef) -> Answer
    ensures { result ≡ spec.answer_of t.now }
{
    if is_void(t) {
        Answer::Void
    } else {
        Answer::Value
    }
}

fn call_node(
    alloc: Global,
    f: Callee,
    t: &TypeRef,
    codes: Items<Expr>,
) -> Result<Boxed<Expr>, AllocError>
    ensures { IfOk result (λ e. e ≡ spec.call_node f t.now codes) }
{
    match f {
        Callee::Static(number) => Boxed::new(alloc, Expr::Call(answer_of(t), number, codes)),
        Callee::Number(e) => {
            let called = typed_tree::call_number(alloc, answer_of(t), e, codes)?;
            narrowed(alloc, t, called)
        }
    }
}

/// A call of what has this function type. Refused: NotFunction, ArgumentCount, TypeMismatch, VoidValue or
/// TooManyParameters.
#[tactic(auto, unfolding(check_operands::specs::Calls::called))]
pub fn called(
    alloc: Global,
    line: u32,
    f: Callee,
    t: TypeRef,
    list: Arguments,
) -> Result<Operand, Deny>
    ensures { Checks result (spec.called line f t list) }
{
    let Arguments { codes, types } = list;
    match called_breaks(&t, types.as_slice()) {
        Some(kind) => refused(kind, line),
        None => {
            let answer = inner(t);
            let e = call_node(alloc, f, &answer, codes)?;
            Ok(made(e, answer))
        }
    }
}

fn through(alloc: Global, line: u32, v: Value, list: Arguments) -> Result<Operand, Deny>
    ensures { Checks result (spec.through line v list) }
{
    if !is_pointer(&v.ctype) {
        return refused(FaultKind::NotFunction, line);
    }
    let Value { code, ctype, .. } = v;
    called(alloc, line, Callee::Number(code), inner(ctype), list)
}

fn static_number(place: &Place) -> Option<u32>
    ensures { result ≡ spec.static_number place.now }
{
    match place {
        Place::Function(f) => Some(*f),
        Place::Value(_) | Place::Register(_) | Place::Generated(_) | Place::Memory(_) => None,
    }
}

fn call_by(
    alloc: Global,
    line: u32,
    o: Operand,
    list: Arguments,
    number: Option<u32>,
) -> Result<Operand, Deny>
    ensures { Checks result (spec.call_by line o list number) }
{
    match number {
        Some(f) => called(alloc, line, Callee::Static(f), o.ctype, list),
        None => {
            let v = value_of(alloc, o)?;
            through(alloc, line, v, list)
        }
    }
}

/// `o(..)`, with o as it is. Refused as [`called`], and NotFunction where o is neither a function nor a pointer to one.
#[tactic(auto, unfolding(check_operands::specs::Calls::call))]
pub fn call(alloc: Global, line: u32, o: Operand, list: Arguments) -> Result<Operand, Deny>
    ensures { Checks result (spec.call line o list) }
{
    let number = static_number(&o.place);
    call_by(alloc, line, o, list, number)
}

fn library_kind(number: u32) -> Option<Library>
    ensures { result ≡ spec.library_kind number }
{
    match number {
        0 => None,
        1 => Some(Library::Putchar),
        2 => Some(Library::Putint),
        3 => Some(Library::Malloc),
        _ => Some(Library::Exit),
    }
}

fn first_argument(alloc: Global, codes: Items<Expr>) -> Result<Option<Boxed<Expr>>, AllocError>
    ensures { IfOk result (λ e. e ≡ slice_get codes 0) }
{
    let mut codes = codes;
    if codes.len() == 0 {
        Ok(None)
    } else {
        Ok(Some(Boxed::new(alloc, codes.remove(0))?))
    }
}

fn library_node(
    alloc: Global,
    kind: Option<Library>,
    argument: Option<Boxed<Expr>>,
) -> Result<Boxed<Expr>, AllocError>
    ensures { IfOk result (λ e. e ≡ spec.library_node kind argument) }
{
    match kind {
        None => Boxed::new(alloc, Expr::Getchar),
        Some(kind) => match argument {
            None => Boxed::new(alloc, Expr::Getchar),
            Some(e) => typed_tree::library(alloc, kind, e),
        },
    }
}

/// A call of the library function of this number: 0 getchar, 1 putchar, 2 putint, 3 malloc, 4 exit, which has this
/// type. Refused as [`called`].
#[tactic(auto, unfolding(check_operands::specs::Calls::library))]
pub fn library(
    alloc: Global,
    line: u32,
    number: u32,
    t: TypeRef,
    list: Arguments,
) -> Result<Operand, Deny>
    ensures { Checks result (spec.library line number t list) }
{
    let Arguments { codes, types } = list;
    match called_breaks(&t, types.as_slice()) {
        Some(kind) => refused(kind, line),
        None => {
            let argument = first_argument(alloc, codes)?;
            let e = library_node(alloc, library_kind(number), argument)?;
            Ok(made(e, inner(t)))
        }
    }
}

fn return_breaks(wanted: &TypeRef, v: &Value) -> Option<FaultKind>
    ensures { result ≡ spec.return_breaks wanted.now v.now }
{
    if is_void(&v.ctype) {
        return Some(FaultKind::VoidValue);
    }
    if is_void(wanted) {
        return Some(FaultKind::BadReturn);
    }
    if converts(&v.ctype, wanted, v.zero) {
        None
    } else {
        Some(FaultKind::TypeMismatch)
    }
}

/// The node of the value that a function of this result returns. Refused: VoidValue, BadReturn or TypeMismatch.
#[tactic(auto, unfolding(check_operands::specs::Calls::returned))]
pub fn returned(alloc: Global, line: u32, wanted: &TypeRef, v: Value) -> Result<Boxed<Expr>, Deny>
    ensures { Checks result (spec.returned line wanted.now v) }
{
    match return_breaks(wanted, &v) {
        Some(kind) => refused(kind, line),
        None => Ok(converted(alloc, v, wanted)?),
    }
}

/// The node of the value that a tick returns. Refused: VoidValue.
#[tactic(auto, unfolding(check_operands::specs::Calls::tick_returned))]
pub fn tick_returned(line: u32, v: Value) -> Result<Boxed<Expr>, Deny>
    ensures { Checks result (spec.tick_returned line v) }
{
    if is_void(&v.ctype) {
        return refused(FaultKind::VoidValue, line);
    }
    Ok(v.code)
}

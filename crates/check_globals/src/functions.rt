//! Definitions of functions.

ghost use Rattle.std.specs.Prelude.{◌≡◌, map, IfOk};
ghost use Rattle.check_forms.specs.Forms as forms;
ghost use Rattle.check_globals.specs.Functions as spec;
ghost use Rattle.check_rules.specs.Declarations.{name_by};
ghost use Rattle.check_rules.specs.Walks.{Reads};

use crate::names::{Before, declare, known_before, name_of};
use c_type_refs::TypeRef;
use c_types::{CType, Layer, copy_ctype};
use check_forms::declared_name;
use check_names::{add_function, define, next_number};
use check_rules::State;
use check_scopes::MeaningKind;
use check_types::inner;
use sqlite_items::{Boxed, Items};
use std::alloc::{AllocError, Global};
use tick_tree::{Declarator, Deny, FaultKind, Parameter, refused};
use typed_tree::{Function, Stmt, statement_size};

fn first_function(
    alloc: Global,
    state: &mut State,
    line: u32,
    name: &[u8],
    t: &TypeRef,
) -> Result<(), Deny>
    ensures { Reads (spec.first_function line name.now t.now state.old) result state.new }
{
    let index = next_number(&state.functions);
    declare(alloc, state, line, name, MeaningKind::Function, t, index)?;
    define(alloc, &mut state.functions, line, name)
}

/// Names a function that is defined, by its declarator. Refused: Duplicate where it is a variable, a function that is
/// defined or in the library; TypeMismatch where a prototype of the name has another type.
#[tactic(auto, unfolding(crate::specs::Functions::named))]
pub fn name_function(
    alloc: Global,
    state: &mut State,
    line: u32,
    d: &Declarator,
    t: &TypeRef,
) -> Result<(), Deny>
    ensures { Reads (spec.named line (name_by (forms.declared_name d.now)) t.now state.old) result state.new }
{
    let name = name_of(d);
    match known_before(state, name, t) {
        Before::Nothing => first_function(alloc, state, line, name, t),
        Before::SamePrototype => define(alloc, &mut state.functions, line, name),
        Before::OtherPrototype => refused(FaultKind::TypeMismatch, line),
        Before::Taken => refused(FaultKind::Duplicate, line),
    }
}

fn parameter(alloc: Global, state: &mut State, p: &Parameter, t: &CType) -> Result<(), Deny>
    ensures { Reads (spec.parameter_by (spec.given p.now).0 (spec.given p.now).1 t.now state.old) result state.new }
{
    let t = TypeRef::share(alloc, copy_ctype(alloc, t)?)?;
    match declared_name(&p.declarator) {
        None => Ok(state.frame.parameter(&t)?),
        Some((_, name)) => check_names::parameter(alloc, state, p.line, name.as_slice(), t),
    }
}

#[tactic(auto, using(crate::proofs::Parameters::no_more))]
fn parameters(
    alloc: Global,
    state: &mut State,
    types: &[CType],
    list: &[Parameter],
) -> Result<(), Deny>
    ensures { Reads (spec.parameters types.now (map spec.given list.now) state.old) result state.new }
{
    for at in 0..types.len().min(list.len()) {
        parameter(alloc, state, &list[at], &types[at])?;
    }
    Ok(())
}

/// Begins a function of this type, whose parameters are written so: they stand in the scope that is open. Refused where
/// two have one name: Duplicate.
#[tactic(auto, unfolding(crate::specs::Functions::begun))]
pub fn begin(alloc: Global, state: &mut State, t: &TypeRef, list: &[Parameter]) -> Result<(), Deny>
    ensures { Reads (spec.begun t.now (map spec.given list.now) state.old) result state.new }
{
    let answer = inner(c_type_refs::copy(alloc, t)?);
    state.frame.begin(alloc, answer);
    match t.outermost() {
        Some(Layer::Function(types)) => parameters(alloc, state, types.as_slice(), list),
        _ => Ok(()),
    }
}

fn count_of(t: &TypeRef) -> u32
    ensures { result ≡ spec.count_of t.now }
{
    match t.outermost() {
        Some(Layer::Function(types)) => types.len().min(u32::MAX as usize) as u32,
        _ => 0,
    }
}

fn line_of(line: u32, d: &Declarator) -> u32
    ensures { result ≡ spec.line_by line (forms.declared_name d.now) }
{
    match declared_name(d) {
        None => line,
        Some((at, _)) => at,
    }
}

fn function(
    alloc: Global,
    state: &State,
    line: u32,
    d: &Declarator,
    t: &TypeRef,
    body: Boxed<Stmt>,
) -> Result<Function, AllocError>
    ensures { IfOk result (λ f. f ≡ spec.function line (forms.declared_name d.now) t.now body state.now) }
{
    let size = statement_size(body.get());
    let name = Items::from_slice(alloc, name_of(d))?;
    Ok(Function {
        name,
        line: line_of(line, d),
        params: count_of(t),
        object: state.frame.object,
        size,
        body,
    })
}

/// Ends a function of this type, whose body has this node.
#[tactic(auto, unfolding(crate::specs::Functions::ended))]
pub fn end(
    alloc: Global,
    state: &mut State,
    line: u32,
    d: &Declarator,
    t: &TypeRef,
    body: Boxed<Stmt>,
) -> Result<(), Deny>
    ensures { Reads (spec.ended line (forms.declared_name d.now) t.now body state.old) result state.new }
{
    let made = function(alloc, state, line, d, t, body)?;
    add_function(&mut state.functions, made)?;
    state.frame.end(alloc)?;
    Ok(())
}

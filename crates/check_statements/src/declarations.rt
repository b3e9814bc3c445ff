//! Declarations in a block, and the lengths of arrays.

ghost use Rattle.std.specs.Prelude.{◌≡◌, IfOk, Some};
ghost use Rattle.check_declarators.specs.Making as making;
ghost use Rattle.check_forms.specs.Forms as forms;
ghost use Rattle.tick_tree.specs.Faults.{Checks};
ghost use Rattle.check_rules.specs.Walks.{Reads};
ghost use Rattle.check_rules.specs.Declarations as spec;

use c_type_refs::TypeRef;
use c_types::{Base, CType};
use check_declarators::{Length, Role, Step, declared_type};
use check_forms::{declared_name, is_staged};
use check_operands::{Operand, effect};
use check_rules::{Stage, State};
use check_types::is_void;
use meaning_operators::constant_value;
use sqlite_items::Items;
use std::alloc::{AllocError, Global};
use tick_tree::{Declarator, Deny, Fault, FaultKind, refused};

/// What is checked as a declarator of a declaration is entered: StageInTick where a cspec or vspec is written in one of
/// a tick.
pub fn entered(stage: Stage, line: u32, d: &Declarator) -> Result<(), Deny>
    ensures { Checks result (spec.entered stage line (forms.is_staged d.now)) }
{
    match stage {
        Stage::Function | Stage::Dollar => Ok(()),
        Stage::Tick => {
            if is_staged(d) {
                refused(FaultKind::StageInTick, line)
            } else {
                Ok(())
            }
        }
    }
}

fn is_array(steps: &[Step]) -> bool
    ensures { result ≡ spec.is_array steps.now }
{
    matches!(steps.first(), Some(Step::Array(_)))
}

fn tick_breaks(steps: &[Step]) -> Option<FaultKind>
    ensures { result ≡ spec.tick_breaks steps.now }
{
    if is_array(steps) {
        Some(FaultKind::BadArray)
    } else {
        None
    }
}

fn lower_at(line: u32, kind: FaultKind, fault: Fault) -> Fault
    ensures { result ≡ spec.lower_at line kind fault }
{
    if kind.number() < fault.kind.number() {
        Fault {
            kind,
            line,
            token: 0,
        }
    } else {
        fault
    }
}

fn broken_type(
    alloc: Global,
    line: u32,
    base: Base,
    steps: Items<Step>,
    kind: FaultKind,
) -> Result<TypeRef, Deny>
    ensures { Checks result (spec.lowered line (Some kind) (making.declared_type Role.Local line base steps)) }
{
    match declared_type(alloc, Role::Local, line, base, steps) {
        Ok(_) => refused(kind, line),
        Err(Deny::Refused(fault)) => Err(Deny::Refused(lower_at(line, kind, fault))),
        Err(Deny::NoMemory) => Err(Deny::NoMemory),
    }
}

fn local_type(alloc: Global, line: u32, base: Base, steps: Items<Step>) -> Result<TypeRef, Deny>
    ensures { Checks result (making.declared_type Role.Local line base steps) }
{
    let t = declared_type(alloc, Role::Local, line, base, steps)?;
    Ok(TypeRef::share(alloc, t)?)
}

fn tick_type(alloc: Global, line: u32, base: Base, steps: Items<Step>) -> Result<TypeRef, Deny>
    ensures { Checks result (spec.lowered line (spec.tick_breaks steps)
        (making.declared_type Role.Local line base steps)) }
{
    match tick_breaks(steps.as_slice()) {
        None => local_type(alloc, line, base, steps),
        Some(kind) => broken_type(alloc, line, base, steps, kind),
    }
}

/// The type of a variable of a block. Refused as `check_declarators::declared_type`; in a tick also BadArray where it
/// is an array.
#[tactic(auto, unfolding(check_rules::specs::Declarations::declared_in))]
pub fn declared_in(
    alloc: Global,
    stage: Stage,
    line: u32,
    base: Base,
    steps: Items<Step>,
) -> Result<TypeRef, Deny>
    ensures { Checks result (spec.declared_in stage line base steps) }
{
    match stage {
        Stage::Function | Stage::Dollar => local_type(alloc, line, base, steps),
        Stage::Tick => tick_type(alloc, line, base, steps),
    }
}

fn length_by(value: Option<u32>) -> Length
    ensures { result ≡ spec.length_by value }
{
    match value {
        None => Length::Computed,
        Some(n) => Length::Constant(n),
    }
}

/// The length that an expression gives an array; whether it has the form of a constant is said.
#[tactic(auto, unfolding(check_rules::specs::Declarations::length_of))]
pub fn length_of(alloc: Global, has_form: bool, o: Operand) -> Result<Length, AllocError>
    ensures { IfOk result (λ n. n ≡ spec.length_of has_form o) }
{
    if !has_form {
        return Ok(if is_void(&o.ctype) {
            Length::Void
        } else {
            Length::Computed
        });
    }
    let code = effect(alloc, o)?;
    Ok(length_by(constant_value(code.get())))
}

/// Declares a variable of a block by the name of its declarator, as `State::local`.
pub fn declare(
    alloc: Global,
    state: &mut State,
    stage: Stage,
    line: u32,
    d: &Declarator,
    t: TypeRef,
) -> Result<Operand, Deny>
    ensures { Reads (spec.declare stage line (forms.declared_name d.now) t state.old) result state.new }
{
    match declared_name(d) {
        None => state.local(alloc, stage, line, &[], t),
        Some((_, name)) => state.local(alloc, stage, line, name.as_slice(), t),
    }
}

/// Declares a parameter of a list, where it has a name, as `State::list_parameter`.
pub fn declare_parameter(
    alloc: Global,
    state: &mut State,
    stage: Stage,
    line: u32,
    d: &Declarator,
    t: &CType,
) -> Result<(), Deny>
    ensures { Reads (spec.declare_parameter stage line (forms.declared_name d.now) t.now state.old) result state.new }
{
    match declared_name(d) {
        None => Ok(()),
        Some((_, name)) => state.list_parameter(alloc, stage, line, name.as_slice(), t),
    }
}

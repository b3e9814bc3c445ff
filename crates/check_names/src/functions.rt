//! The functions of the program: their numbers, which prototypes have one, and their parameters.

ghost use Rattle.std.specs.Prelude.{◌≡◌, OnOk};
ghost use Rattle.std.specs.Option.{option_copied};
ghost use Rattle.check_rules.specs.Functions as spec;
ghost use Rattle.check_rules.specs.Locals as locals;
ghost use Rattle.check_rules.specs.Walks.{Reads};

use c_type_refs::TypeRef;
use check_rules::{Functions, Prototype, State, meaning};
use check_scopes::{DeclareFault, Meaning, MeaningKind};
use sqlite_items::Items;
use std::alloc::{AllocError, Global};
use tick_tree::{Deny, FaultKind, refused};
use typed_tree::Function;

/// The number of the next function, as far as a word counts.
pub fn next_number(functions: &Functions) -> u32
    ensures { result ≡ spec.next functions.now }
{
    let count = functions.all.len().min(u32::MAX as usize) as u32;
    (u64::from(count) + 1).min(u64::from(u32::MAX)) as u32
}

/// The number that an earlier walk found for the function of this name, 0 where there is none.
pub fn earlier_number(functions: &Functions, name: &[u8]) -> u32
    ensures { result ≡ spec.number name.now functions.now }
{
    match functions.earlier.find(name) {
        None => 0,
        Some(found) => found.index,
    }
}

/// Whether a function of this name is defined so far.
pub fn is_defined(functions: &Functions, name: &[u8]) -> bool
    ensures { result ≡ spec.is_defined name.now functions.now }
{
    functions.defined.find(name).is_some()
}

/// Defines a function. Refused where one of its name is defined already: Duplicate.
#[tactic(auto, unfolding(check_rules::specs::Functions::define))]
pub fn define(alloc: Global, functions: &mut Functions, line: u32, name: &[u8]) -> Result<(), Deny>
    ensures { Reads (spec.define line name.now functions.old) result functions.new }
{
    let what = Meaning {
        kind: MeaningKind::Function,
        ctype: check_types::void(alloc),
        index: next_number(functions),
    };
    match functions.defined.declare(name, what) {
        Ok(()) => Ok(()),
        Err(DeclareFault::Taken) => refused(FaultKind::Duplicate, line),
        Err(DeclareFault::NoMemory) => Err(Deny::NoMemory),
    }
}

/// Notes a prototype.
pub fn note_prototype(
    alloc: Global,
    functions: &mut Functions,
    line: u32,
    name: &[u8],
) -> Result<(), AllocError>
    ensures { OnOk result (functions.new ≡ spec.with_prototype line name.now functions.old) }
{
    let name = Items::from_slice(alloc, name)?;
    functions.prototypes.push(Prototype { line, name })
}

/// Takes a function that the walk has left.
pub fn add_function(functions: &mut Functions, function: Function) -> Result<(), AllocError>
    ensures { OnOk result (functions.new ≡ spec.with_function function functions.old) }
{
    functions.all.push(function)
}

/// The first prototype, in the order of the text, that has no function.
#[tactic(auto, unfolding(check_rules::specs::Functions::undefined))]
pub fn undefined(functions: &Functions) -> Option<&Prototype>
    ensures { option_copied result ≡ spec.undefined functions.now }
{
    for prototype in functions.prototypes.as_slice() {
        if !is_defined(functions, prototype.name.as_slice()) {
            return Some(prototype);
        }
    }
    None
}

/// Declares a parameter of the function, which has a name. Refused where an earlier one has the name: Duplicate.
#[tactic(auto, unfolding(check_rules::specs::Locals::parameter))]
pub fn parameter(
    alloc: Global,
    state: &mut State,
    line: u32,
    name: &[u8],
    t: TypeRef,
) -> Result<(), Deny>
    ensures { Reads (locals.parameter line name.now t state.old) result state.new }
{
    let what = meaning(alloc, MeaningKind::Parameter, &t, state.frame.number())?;
    state.declare(line, name, what)?;
    state.frame.parameter(&t)?;
    Ok(())
}

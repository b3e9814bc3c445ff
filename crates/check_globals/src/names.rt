//! Names at file scope.

ghost use Rattle.std.specs.Prelude.{◌≡◌};
ghost use Rattle.check_forms.specs.Forms as forms;
ghost use Rattle.check_globals.specs.Names as spec;
ghost use Rattle.check_rules.specs.Locals as locals;
ghost use Rattle.check_rules.specs.Names as names;
ghost use Rattle.check_rules.specs.Declarations.{name_by};
ghost use Rattle.check_rules.specs.Walks.{Reads};

use c_conversions::same;
use c_type_refs::{TypeRef, limited_size};
use check_declarators::Step;
use check_forms::declared_name;
use check_names::{earlier_number, is_defined, note_prototype};
use check_rules::State;
use check_scopes::{Meaning, MeaningKind};
use sqlite_items::Items;
use std::alloc::Global;
use tick_tree::{Declarator, Deny, FaultKind, refused};
use word32::map::OBJECTS;

/// What a name at file scope is already.
#[derive(Clone, Copy)]
pub(crate) enum Before {
    /// It has no meaning.
    Nothing,
    /// It has a prototype of the same type, and no function yet.
    SamePrototype,
    /// It has a prototype of another type, and no function yet.
    OtherPrototype,
    /// It is a variable, a function that is defined, or in the library.
    Taken,
}

/// The steps of a declarator at file scope: `()` at its name is an empty list of parameters.
pub fn named_steps(alloc: Global, steps: Items<Step>) -> Items<Step>
    ensures { result ≡ spec.named_steps steps }
{
    let mut steps = steps;
    if let Some(Step::Unlisted) = steps.as_slice().first() {
        steps.set(0, Step::Function(Items::new(alloc)));
    }
    steps
}

fn is_function(kind: MeaningKind) -> bool
    ensures { result ≡ spec.is_function kind }
{
    matches!(kind, MeaningKind::Function)
}

// The name of a declarator; each in a declaration has one.
pub(crate) fn name_of(d: &Declarator) -> &[u8]
    ensures { result.now ≡ name_by (forms.declared_name d.now) }
{
    match declared_name(d) {
        None => &[],
        Some((_, name)) => name.as_slice(),
    }
}

pub(crate) fn known_before(state: &State, name: &[u8], t: &TypeRef) -> Before
    ensures { result ≡ spec.known_before name.now t.now state.now }
{
    match state.scopes.find(name) {
        None => Before::Nothing,
        Some(m) => {
            if !is_function(m.kind) || is_defined(&state.functions, name) {
                Before::Taken
            } else if same(&m.ctype, t) {
                Before::SamePrototype
            } else {
                Before::OtherPrototype
            }
        }
    }
}

pub(crate) fn declare(
    alloc: Global,
    state: &mut State,
    line: u32,
    name: &[u8],
    kind: MeaningKind,
    t: &TypeRef,
    index: u32,
) -> Result<(), Deny>
    ensures { Reads (names.declare line name.now (locals.meaning kind t.now index) state.old) result state.new }
{
    let what = Meaning {
        kind,
        ctype: c_type_refs::copy(alloc, t)?,
        index,
    };
    state.declare(line, name, what)
}

fn note(alloc: Global, state: &mut State, line: u32, name: &[u8]) -> Result<(), Deny>
    ensures { Reads (spec.note line name.now state.old) result state.new }
{
    Ok(note_prototype(alloc, &mut state.functions, line, name)?)
}

fn first_prototype(
    alloc: Global,
    state: &mut State,
    line: u32,
    name: &[u8],
    t: &TypeRef,
) -> Result<(), Deny>
    ensures { Reads (spec.first_prototype line name.now t.now state.old) result state.new }
{
    let index = earlier_number(&state.functions, name);
    declare(alloc, state, line, name, MeaningKind::Function, t, index)?;
    note(alloc, state, line, name)
}

fn address(at: u32) -> u32
    ensures { result ≡ spec.address at }
{
    (u64::from(OBJECTS) + u64::from(at)).min(u64::from(u32::MAX)) as u32
}

fn first_variable(
    alloc: Global,
    state: &mut State,
    line: u32,
    name: &[u8],
    t: &TypeRef,
) -> Result<u32, Deny>
    ensures { Reads (spec.first_variable line name.now t.now state.old) result state.new }
{
    let at = state.image.global(limited_size(t).unwrap_or(0));
    declare(
        alloc,
        state,
        line,
        name,
        MeaningKind::Global,
        t,
        address(at),
    )?;
    Ok(at)
}

/// A prototype by its declarator. Refused: Duplicate where its name is a variable, a function that is defined or in the
/// library; TypeMismatch where a prototype of the name has another type.
#[tactic(auto, unfolding(crate::specs::Names::prototype))]
pub fn prototype(
    alloc: Global,
    state: &mut State,
    line: u32,
    d: &Declarator,
    t: &TypeRef,
) -> Result<(), Deny>
    ensures { Reads (spec.prototype line (name_by (forms.declared_name d.now)) t.now state.old) result state.new }
{
    let name = name_of(d);
    match known_before(state, name, t) {
        Before::Nothing => first_prototype(alloc, state, line, name, t),
        Before::SamePrototype => note(alloc, state, line, name),
        Before::OtherPrototype => refused(FaultKind::TypeMismatch, line),
        Before::Taken => refused(FaultKind::Duplicate, line),
    }
}

/// A variable by its declarator; its place, in bytes from the first global on. Refused: Duplicate where its name is a
/// variable, a function that is defined or in the library; TypeMismatch where it has a prototype.
#[tactic(auto, unfolding(crate::specs::Names::variable))]
pub fn variable(
    alloc: Global,
    state: &mut State,
    line: u32,
    d: &Declarator,
    t: &TypeRef,
) -> Result<u32, Deny>
    ensures { Reads (spec.variable line (name_by (forms.declared_name d.now)) t.now state.old) result state.new }
{
    let name = name_of(d);
    match known_before(state, name, t) {
        Before::Nothing => first_variable(alloc, state, line, name, t),
        Before::SamePrototype | Before::OtherPrototype => refused(FaultKind::TypeMismatch, line),
        Before::Taken => refused(FaultKind::Duplicate, line),
    }
}

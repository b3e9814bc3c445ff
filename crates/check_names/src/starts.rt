//! What a walk knows before all items: the names of the library, and what an earlier walk found.

// What is owned is dropped by hand before an error goes on. Over a `?` its drop would be written out at each exit,
// variant by variant (CONTRIBUTING.md, "How to keep proofs cheap", 3). The order of the drops means nothing.

ghost use Rattle.std.specs.Prelude.{◌≡◌, IfOk};
ghost use Rattle.check_rules.specs.Functions as tables;
ghost use Rattle.check_rules.specs.Starts as spec;
ghost use Rattle.check_rules.specs.Walks.{Reads};

use c_type_refs::TypeRef;
use c_types::{CType, Layer};
use check_rules::{Frame, Functions, Image, LIBRARY, Labels, LibraryFunction, State, Ticks};
use check_scopes::{Meaning, MeaningKind, Scopes};
use check_types::over;
use sqlite_items::Items;
use std::alloc::{AllocError, Global};
use tick_tree::Deny;

// A function of these arguments that answers this.
fn function(t: TypeRef, list: Items<CType>) -> Result<TypeRef, AllocError>
    ensures { IfOk result (λ made. made ≡ spec.function t list) }
{
    over(Layer::Function(list), t)
}

#[tactic(auto, unfolding(check_rules::specs::Starts::add_library))]
fn add_library(alloc: Global, state: &mut State, f: LibraryFunction) -> Result<(), Deny>
    ensures { Reads (spec.add_library f state.old) result state.new }
{
    let answer = f.answer(alloc)?;
    let t = function(answer, f.parameters(alloc)?)?;
    let what = Meaning {
        kind: MeaningKind::Library,
        ctype: t,
        index: f.number(),
    };
    state.declare(1, f.name(), what)
}

#[tactic(auto, unfolding(check_rules::specs::Starts::add_libraries))]
fn add_libraries(alloc: Global, state: &mut State, list: &[LibraryFunction]) -> Result<(), Deny>
    ensures { Reads (spec.add_libraries list.now state.old) result state.new }
{
    for f in list {
        add_library(alloc, state, *f)?;
    }
    Ok(())
}

// What a walk knows once the names of the library stand.
fn with_libraries(alloc: Global, state: State) -> Result<State, Deny>
    ensures { spec.Begins result (spec.libraries state) }
{
    let mut state = state;
    match add_libraries(alloc, &mut state, &LIBRARY) {
        Ok(()) => Ok(state),
        Err(why) => {
            drop(state);
            Err(why)
        }
    }
}

// The functions before all items, with those defined so far and those of an earlier walk.
fn functions_with(alloc: Global, defined: Scopes, earlier: Scopes) -> Functions
    ensures { result ≡ tables.with defined earlier }
{
    Functions {
        defined,
        earlier,
        prototypes: Items::new(alloc),
        all: Items::new(alloc),
    }
}

/// The functions of the program before all items.
pub fn no_functions(alloc: Global) -> Result<Functions, AllocError>
    ensures { IfOk result (λ s. s ≡ tables.new) }
{
    let defined = Scopes::new(alloc)?;
    match Scopes::new(alloc) {
        Ok(earlier) => Ok(functions_with(alloc, defined, earlier)),
        Err(why) => {
            drop(defined);
            Err(why)
        }
    }
}

/// The functions before all items, with the numbers of these.
pub fn functions_again(alloc: Global, functions: Functions) -> Result<Functions, AllocError>
    ensures { IfOk result (λ s. s ≡ tables.again functions) }
{
    match Scopes::new(alloc) {
        Ok(defined) => {
            let Functions {
                defined: earlier,
                ..
            } = functions;
            Ok(functions_with(alloc, defined, earlier))
        }
        Err(why) => {
            drop(functions);
            Err(why)
        }
    }
}

fn empty(alloc: Global) -> Result<State, AllocError>
    ensures { IfOk result (λ s. s ≡ spec.empty) }
{
    let functions = no_functions(alloc)?;
    Ok(State {
        scopes: Scopes::new(alloc)?,
        frame: Frame::new(alloc),
        ticks: Ticks::new(alloc),
        labels: Labels::new(alloc),
        image: Image::new(alloc),
        functions,
    })
}

fn emptied(alloc: Global, state: State) -> Result<State, AllocError>
    ensures { IfOk result (λ s. s ≡ spec.emptied state) }
{
    let State {
        scopes,
        frame,
        ticks,
        labels,
        image,
        functions,
    } = state;
    drop(scopes);
    drop(ticks);
    drop(labels);
    match functions_again(alloc, functions) {
        Ok(functions) => restarted(alloc, frame, image, functions),
        Err(why) => {
            drop(frame);
            drop(image);
            Err(why)
        }
    }
}

// What the second walk knows before the names of the library, from the frame and the image of the first one.
fn restarted(
    alloc: Global,
    frame: Frame,
    image: Image,
    functions: Functions,
) -> Result<State, AllocError>
    ensures { IfOk result (λ s. s ≡ spec.restarted frame image functions) }
{
    match Scopes::new(alloc) {
        Ok(scopes) => {
            let mut frame = frame;
            let mut image = image;
            frame.again(alloc);
            image.again(alloc);
            Ok(State {
                scopes,
                frame,
                ticks: Ticks::new(alloc),
                labels: Labels::new(alloc),
                image,
                functions,
            })
        }
        Err(why) => {
            drop(frame);
            drop(image);
            drop(functions);
            Err(why)
        }
    }
}

/// What the first walk knows before all items.
#[tactic(auto, unfolding(check_rules::specs::Starts::start))]
pub fn start(alloc: Global) -> Result<State, Deny>
    ensures { spec.Begins result spec.start }
{
    with_libraries(alloc, empty(alloc)?)
}

/// What the second walk knows before all items, from what the first one found.
#[tactic(auto, unfolding(check_rules::specs::Starts::again))]
pub fn start_again(alloc: Global, state: State) -> Result<State, Deny>
    ensures { spec.Begins result (spec.again state) }
{
    with_libraries(alloc, emptied(alloc, state)?)
}

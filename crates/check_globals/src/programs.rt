//! What is checked after the walk.

// What is owned is dropped by hand before an error goes on. Over a `?` its drop would be written out at each exit,
// variant by variant (CONTRIBUTING.md, "How to keep proofs cheap", 3). The order of the drops means nothing.

ghost use Rattle.std.specs.Prelude.{◌≡◌, ◌+◌, ◌++◌, ◌-◌, length, min, replicate, IfOk, sum_by, nat_le, Ok};
ghost use Rattle.c_types.specs.Types as types;
ghost use Rattle.check_globals.specs.Programs as spec;
ghost use Rattle.check_rules.specs.Images as images;
ghost use Rattle.tick_tree.specs.Faults.{Checks};

use c_type_refs::TypeRef;
use c_types::{Base, Integer, Layer};
use check_names::{is_defined, undefined};
use check_rules::{Image, State};
use check_scopes::MeaningKind;
use limits::program::{
    CHARGE_LIMIT, CHARGE_TOP, FRAME_OBJECT_BYTES, FRONT_WORDS, SIZE_LIMIT, WORDS_OF_A_BODY,
    WORDS_OF_A_NODE,
};
use sqlite_items::Items;
use std::alloc::{AllocError, Global};
use tick_tree::{Deny, FaultKind, refused};
use typed_tree::{Function, Tick, TypedParts};
use word32::map::GLOBAL_BYTES;

fn is_main_type(t: &TypeRef) -> bool
    ensures { result ≡ spec.is_main_type t.now }
{
    t.layers().len() == 1
        && matches!(t.outermost(), Some(Layer::Function(list)) if list.as_slice().is_empty())
        && matches!(t.base(), Base::Integer(Integer::Int))
}

fn has_main(state: &State) -> bool
    ensures { result ≡ spec.has_main state.now }
{
    match state.scopes.find(b"main") {
        None => false,
        Some(m) => {
            matches!(m.kind, MeaningKind::Function)
                && is_defined(&state.functions, b"main")
                && is_main_type(&m.ctype)
        }
    }
}

fn functions_fit(list: &[Function]) -> bool
    ensures { result ≡ spec.functions_fit list.now }
{
    for f in list {
        if f.size > SIZE_LIMIT || f.object > FRAME_OBJECT_BYTES {
            return false;
        }
    }
    true
}

fn ticks_fit(list: &[Tick]) -> bool
    ensures { result ≡ spec.ticks_fit list.now }
{
    for t in list {
        if t.size > SIZE_LIMIT {
            return false;
        }
    }
    true
}

// This many words and those of one more function or tick, up to one over the limit.
fn charged(found: u64, size: u32) -> u64
    ensures { result ≡ min (found + spec.charge size) CHARGE_TOP }
{
    let more = WORDS_OF_A_NODE * u64::from(size) + WORDS_OF_A_BODY;
    if found > CHARGE_LIMIT {
        return CHARGE_TOP;
    }
    (found + more).min(CHARGE_TOP)
}

fn functions_charge(list: &[Function]) -> u64
    ensures { result ≡ min (FRONT_WORDS + sum_by (λ f. spec.charge f.size) list.now) CHARGE_TOP }
{
    let mut found = FRONT_WORDS as u64;
    for f in list {
        found = charged(found, f.size);
    }
    found
}

fn ticks_charge(from: u64, list: &[Tick]) -> u64
    ensures { result ≡ min (from + sum_by (λ t. spec.charge t.size) list.now) CHARGE_TOP }
{
    let mut found = from.min(CHARGE_TOP);
    for t in list {
        found = charged(found, t.size);
    }
    found
}

fn strings_begin(image: &Image) -> u32
    ensures { result ≡ spec.strings_begin image.now }
{
    if image.strings.as_slice().is_empty() {
        image.end
    } else {
        image.strings_at
    }
}

fn image_fits(image: &Image) -> bool
    ensures { result ≡ spec.image_fits image.now }
{
    let strings = image.strings.len();
    if strings > GLOBAL_BYTES as usize {
        return false;
    }
    u64::from(strings_begin(image)) + strings as u64 <= u64::from(GLOBAL_BYTES)
}

fn fits(state: &State) -> bool
    ensures { result ≡ spec.fits state.now }
{
    let functions = state.functions.all.as_slice();
    let ticks = state.ticks.all.as_slice();
    image_fits(&state.image)
        && functions_fit(functions)
        && ticks_fit(ticks)
        && ticks_charge(functions_charge(functions), ticks) <= CHARGE_LIMIT
}

fn image_bytes(alloc: Global, image: Image) -> Result<Items<u8>, AllocError>
    ensures { IfOk result (λ bytes. bytes ≡ spec.image image) }
{
    let begin = strings_begin(&image);
    let Image {
        globals,
        strings,
        ..
    } = image;
    let mut bytes = globals;
    let missing = (begin as usize).saturating_sub(bytes.len());
    let zeros = vec![in alloc; 0; missing]?;
    bytes.append(Items::from_vec(zeros))?;
    bytes.append(strings)?;
    Ok(bytes)
}

fn typed(alloc: Global, state: State) -> Result<TypedParts, Deny>
    ensures { Checks result (Ok (spec.typed state)) }
{
    let State {
        scopes,
        frame,
        ticks,
        labels,
        image,
        functions,
    } = state;
    drop(scopes);
    drop(frame);
    drop(labels);
    match image_bytes(alloc, image) {
        Ok(image) => Ok(TypedParts {
            functions: functions.all,
            ticks: ticks.all,
            image,
        }),
        Err(why) => {
            drop(functions);
            drop(ticks);
            Err(why.into())
        }
    }
}

/// The parts of the typed program after its walk. Refused, in this order: Undeclared at the first prototype that has no
/// function, NoMain, TooLarge.
#[tactic(auto, unfolding(crate::specs::Programs::finished))]
pub fn finished(alloc: Global, state: State) -> Result<TypedParts, Deny>
    ensures { Checks result (spec.finished state) }
{
    let broken = match undefined(&state.functions) {
        Some(p) => Some((FaultKind::Undeclared, p.line)),
        None => {
            if !has_main(&state) {
                Some((FaultKind::NoMain, 1))
            } else if fits(&state) {
                None
            } else {
                Some((FaultKind::TooLarge, 1))
            }
        }
    };
    match broken {
        None => typed(alloc, state),
        Some((kind, line)) => {
            drop(state);
            refused(kind, line)
        }
    }
}

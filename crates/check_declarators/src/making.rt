//! The type of a declaration, or the first rule on types that it breaks.

ghost use Rattle.std.specs.Prelude.{◌≡◌, ◌*◌, ◌≤◌, ◌++◌, ◌∷◌, [], min, IfOk};
ghost use Rattle.c_types.specs.Types as types;
ghost use Rattle.check_declarators.specs.Making as spec;
ghost use Rattle.tick_tree.specs.Faults.{Answers};

use crate::steps::{Length, Role, Step, fill_length, layer_of};
use c_types::{Base, CType, Integer, Layer};
use limits::program::{MAX_SIZE, MOST_ARGUMENTS, SIZE_TOP};
use sqlite_items::Items;
use std::alloc::{AllocError, Global};
use tick_tree::{Deny, Fault, FaultKind, Prefix};

fn is_array(layers: &[Layer]) -> bool
    ensures { result ≡ spec.is_array layers.now }
{
    matches!(layers.last(), Some(Layer::Array(_)))
}

fn is_function(layers: &[Layer]) -> bool
    ensures { result ≡ spec.is_function layers.now }
{
    matches!(layers.last(), Some(Layer::Function(_) | Layer::Unlisted))
}

fn is_void(base: Base, layers: &[Layer]) -> bool
    ensures { result ≡ types.is_void base layers.now }
{
    layers.is_empty() && base == Base::Void
}

fn is_word_base(base: Base) -> bool
    ensures { result ≡ spec.is_word_base base }
{
    matches!(base, Base::Integer(Integer::Int | Integer::Unsigned))
}

fn is_word(base: Base, layers: &[Layer]) -> bool
    ensures { result ≡ spec.is_word base layers.now }
{
    match layers.last() {
        None => is_word_base(base),
        Some(last) => matches!(last, Layer::Pointer),
    }
}

fn unless(ok: bool, kind: FaultKind) -> Option<FaultKind>
    ensures { result ≡ spec.unless ok kind }
{
    if ok { None } else { Some(kind) }
}

// Whether `count` elements are a length, where together they have `size` bytes, or more than are allowed.
fn is_count(count: u32, size: u32) -> bool
    ensures { result ≡ spec.is_count count size }
{
    count > 0 && size <= MAX_SIZE
}

// The bytes of so many elements of a size, or 4,194,305 where they are more.
fn product(size: u32, count: u32) -> u32
    requires { size ≤ SIZE_TOP }
    ensures { result ≡ min (size * count) SIZE_TOP }
{
    (u64::from(size) * u64::from(count)).min(SIZE_TOP) as u32
}

fn array_breaks(length: Length, base: Base, layers: &[Layer], size: u32) -> Option<FaultKind>
    requires { size ≡ min (spec.bytes base layers.now) SIZE_TOP }
    ensures { result ≡ spec.array_breaks length base layers.now }
{
    if is_function(layers) {
        return Some(FaultKind::TypeMismatch);
    }
    if is_void(base, layers) {
        return Some(FaultKind::VoidValue);
    }
    match length {
        Length::Constant(count) => unless(
            is_count(count, product(size, count)),
            FaultKind::BadArray,
        ),
        Length::Absent | Length::Computed => Some(FaultKind::BadArray),
        Length::Void => Some(FaultKind::VoidValue),
        Length::Counted(_) => None,
    }
}

fn prefix_breaks(prefix: Prefix, base: Base, layers: &[Layer]) -> Option<FaultKind>
    ensures { result ≡ spec.prefix_breaks prefix base layers.now }
{
    match prefix {
        Prefix::Star => None,
        Prefix::Cspec => unless(
            is_void(base, layers) || is_word(base, layers),
            FaultKind::TypeMismatch,
        ),
        Prefix::Vspec => unless(is_word(base, layers), FaultKind::TypeMismatch),
    }
}

fn result_breaks(layers: &[Layer]) -> Option<FaultKind>
    ensures { result ≡ spec.result_breaks layers.now }
{
    if is_function(layers) || is_array(layers) {
        Some(FaultKind::TypeMismatch)
    } else {
        None
    }
}

fn function_breaks(count: usize, layers: &[Layer]) -> Option<FaultKind>
    ensures { result ≡ spec.function_breaks count layers.now }
{
    if is_function(layers) || is_array(layers) {
        return Some(FaultKind::TypeMismatch);
    }
    unless(
        count <= MOST_ARGUMENTS as usize,
        FaultKind::TooManyParameters,
    )
}

// The rule of the lowest number that is broken where the step is taken on these layers, which have `size` bytes, or
// more than are allowed.
fn breaks(step: &Step, base: Base, layers: &[Layer], size: u32) -> Option<FaultKind>
    requires { size ≡ min (spec.bytes base layers.now) SIZE_TOP }
    ensures { result ≡ spec.breaks step.now base layers.now }
{
    match step {
        Step::Prefix(prefix) => prefix_breaks(*prefix, base, layers),
        Step::Array(length) => array_breaks(*length, base, layers, size),
        Step::Function(list) => function_breaks(list.len(), layers),
        Step::Unlisted => result_breaks(layers),
    }
}

// The bytes under one layer more, or 4,194,305 where they are more.
#[tactic(auto, using(crate::proofs::Takes::grows))]
fn grown(layer: &Layer, base: Base, layers: &[Layer], size: u32) -> u32
    requires { size ≡ min (spec.bytes base layers.now) SIZE_TOP }
    ensures { result ≡ min (spec.bytes base (layers.now ++ layer.now ∷ [])) SIZE_TOP }
{
    match layer {
        Layer::Array(count) => product(size, *count),
        Layer::Function(_) | Layer::Unlisted => 0,
        Layer::Pointer | Layer::Cspec | Layer::Vspec => 4,
    }
}

// The broken rule of the lower number.
fn lower(a: Option<FaultKind>, b: Option<FaultKind>) -> Option<FaultKind>
    ensures { result ≡ spec.lower a b }
{
    match a {
        None => b,
        Some(one) => match b {
            None => a,
            Some(other) => { if other.number() < one.number() { b } else { a } }
        },
    }
}

fn base_size(base: Base) -> u32
    ensures value { result ≡ types.base_size base }
    ensures few { result ≤ 4 }
{
    match base {
        Base::Void => 0,
        Base::Integer(Integer::Char | Integer::UnsignedChar) => 1,
        Base::Integer(Integer::Short | Integer::UnsignedShort) => 2,
        Base::Integer(Integer::Int | Integer::Unsigned) => 4,
    }
}

fn void_breaks(base: Base, layers: &[Layer]) -> Option<FaultKind>
    ensures { result ≡ spec.void_breaks base layers.now }
{
    if is_void(base, layers) {
        Some(FaultKind::VoidValue)
    } else {
        None
    }
}

fn role_breaks(role: Role, base: Base, layers: &[Layer]) -> Option<FaultKind>
    ensures { result ≡ spec.role_breaks role base layers.now }
{
    match role {
        Role::Typename => None,
        Role::FileScope | Role::Parameter => void_breaks(base, layers),
        Role::Local => {
            if is_function(layers) {
                Some(FaultKind::TypeMismatch)
            } else {
                void_breaks(base, layers)
            }
        }
    }
}

// The layers of a value whose place has these.
fn decayed_layers(layers: Items<Layer>) -> Result<Items<Layer>, AllocError>
    ensures { IfOk result (λ ls. ls ≡ spec.decayed_layers layers) }
{
    let mut layers = layers;
    if is_array(layers.as_slice()) {
        layers.pop();
        layers.push(Layer::Pointer)?;
    } else if is_function(layers.as_slice()) {
        layers.push(Layer::Pointer)?;
    }
    Ok(layers)
}

fn finished(role: Role, base: Base, layers: Items<Layer>) -> Result<CType, AllocError>
    ensures { IfOk result (λ c. c ≡ spec.finished role base layers) }
{
    match role {
        Role::Typename | Role::FileScope | Role::Local => Ok(CType { base, layers }),
        Role::Parameter => {
            let layers = decayed_layers(layers)?;
            Ok(CType { base, layers })
        }
    }
}

// The layers of all steps, with the broken rule of the lowest number.
struct Made {
    layers: Items<Layer>,
    worst: Option<FaultKind>,
}

// Takes the steps, from the last to the first.
fn take(alloc: Global, base: Base, steps: Items<Step>) -> Result<Made, AllocError>
    ensures layers { IfOk result (λ m. m.layers ≡ spec.made steps []) }
    ensures worst { IfOk result (λ m. m.worst ≡ spec.worst steps base []) }
{
    let mut steps = steps;
    let mut layers = Items::new(alloc);
    let mut worst = None;
    let mut size = base_size(base);
    while let Some(step) = steps.pop() {
        worst = lower(worst, breaks(&step, base, layers.as_slice(), size));
        let layer = layer_of(step);
        size = grown(&layer, base, layers.as_slice(), size);
        layers.push(layer)?;
    }
    Ok(Made { layers, worst })
}

fn answer(line: u32, t: CType, broken: Option<FaultKind>) -> Result<CType, Deny>
    ensures { Answers (λ c. c) result (spec.answer line t broken) }
{
    match broken {
        None => Ok(t),
        Some(kind) => Err(Deny::Refused(Fault {
            kind,
            line,
            token: 0,
        })),
    }
}

fn declared_by(
    alloc: Global,
    role: Role,
    line: u32,
    base: Base,
    steps: Items<Step>,
) -> Result<CType, Deny>
    ensures { Answers (λ c. c) result (spec.declared_by role line base steps) }
{
    let Ok(Made { layers, worst }) = take(alloc, base, steps) else {
        return Err(Deny::NoMemory);
    };
    let worst = lower(worst, role_breaks(role, base, layers.as_slice()));
    let Ok(t) = finished(role, base, layers) else {
        return Err(Deny::NoMemory);
    };
    answer(line, t, worst)
}

fn taken_as(role: Role, steps: Items<Step>) -> Items<Step>
    ensures { result ≡ spec.taken_as role steps }
{
    match role {
        Role::Typename | Role::FileScope | Role::Local => steps,
        Role::Parameter => fill_length(steps, 1),
    }
}

/// The type that these steps make of a base, for what it is declared for. The last step is taken first. An array or a
/// function as a parameter becomes a pointer, and a parameter's outermost array needs no length.
///
/// Refused with the rule of the lowest number that is broken, at the line of the declaration: TypeMismatch where a type
/// isn't allowed for a cspec or vspec, where an element or a local is a function, or a result a function or an array;
/// VoidValue where an element, a variable, a parameter or a length is void; BadArray where a length is absent, not
/// constant or 0, or makes more than [`MAX_SIZE`] bytes, but for a length that an initializer counts; TooManyParameters
/// where a list has more than 8. These are this project's rules on types.
#[tactic(auto, unfolding(crate::specs::Making::declared_type))]
pub fn declared_type(
    alloc: Global,
    role: Role,
    line: u32,
    base: Base,
    steps: Items<Step>,
) -> Result<CType, Deny>
    ensures { Answers (λ c. c) result (spec.declared_type role line base steps) }
{
    declared_by(alloc, role, line, base, taken_as(role, steps))
}

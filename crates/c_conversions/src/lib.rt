//! Which types are the same, and which convert.
#![tactic(auto)]

ghost use Rattle.std.specs.Prelude.{◌≡◌, ◌<◌, true, length};
ghost use Rattle.c_types.specs.Types as spec;

use c_type_refs::{Layers, Parameter, TypeRef, is_pointer, same_shared};
use c_types::{Base, Integer, Layer, promoted};

/// The common type of two integers: unsigned where either is, else int.
pub fn common(a: Integer, b: Integer) -> Integer
    ensures { result ≡ spec.common a b }
{
    match a {
        Integer::Unsigned => Integer::Unsigned,
        _ => promoted(b),
    }
}

// Whether the types of these bases under these layers are the same.
fn same_parts(a: Base, a_layers: &Layers<'_>, b: Base, b_layers: &Layers<'_>) -> bool
    ensures { result ≡ spec.same_parts a a_layers.now b b_layers.now }
{
    a == b && same_shared(a_layers, b_layers)
}

fn is_void(base: Base, layers: &Layers<'_>) -> bool
    ensures { result ≡ spec.is_void base layers.now }
{
    layers.is_empty() && base == Base::Void
}

fn is_integer(base: Base, layers: &Layers<'_>) -> bool
    ensures { result ≡ spec.is_integer base layers.now }
{
    layers.is_empty() && base != Base::Void
}

fn is_unlisted(layers: &Layers<'_>) -> bool
    ensures value { result ≡ spec.is_unlisted (spec.outermost layers.now) }
    ensures some { result ≡ true → 0 < length layers.now }
{
    matches!(layers.last(), Some(Layer::Unlisted))
}

fn is_listed(layers: &Layers<'_>) -> bool
    ensures value { result ≡ spec.is_listed (spec.outermost layers.now) }
    ensures some { result ≡ true → 0 < length layers.now }
{
    matches!(layers.last(), Some(Layer::Function(_)))
}

// Whether both are functions with the same result, one of any arguments.
fn serves_function(a: Base, a_layers: &Layers<'_>, b: Base, b_layers: &Layers<'_>) -> bool
    ensures { result ≡ spec.serves_function a a_layers.now b b_layers.now }
{
    let one_unlisted = is_unlisted(a_layers) && is_listed(b_layers)
        || is_listed(a_layers) && is_unlisted(b_layers);
    one_unlisted && same_parts(a, &a_layers.under(), b, &b_layers.under())
}

// Whether a pointer to the one converts to a pointer to the other, beside where they are the same.
fn serves(a: Base, a_layers: &Layers<'_>, b: Base, b_layers: &Layers<'_>) -> bool
    ensures { result ≡ spec.serves a a_layers.now b b_layers.now }
{
    is_void(a, a_layers) || is_void(b, b_layers) || serves_function(a, a_layers, b, b_layers)
}

// Whether a value of these layers over its base converts.
fn converts_parts(
    a: Base,
    a_layers: &Layers<'_>,
    b: Base,
    b_layers: &Layers<'_>,
    zero: bool,
) -> bool
    ensures { result ≡ spec.converts_parts a a_layers.now b b_layers.now zero }
{
    is_integer(a, a_layers) && is_integer(b, b_layers)
        || same_parts(a, a_layers, b, b_layers)
        || zero && is_pointer(b_layers)
        || is_pointer(a_layers)
            && is_pointer(b_layers)
            && serves(a, &a_layers.under(), b, &b_layers.under())
}

/// Whether two types are the same.
#[tactic(auto, using(c_types::proofs::SameLaws::by_parts))]
pub fn same(a: &TypeRef, b: &TypeRef) -> bool
    ensures { result ≡ spec.same a.now b.now }
{
    same_parts(a.base(), &a.layers(), b.base(), &b.layers())
}

/// Whether a value converts to a wanted type: both are integers, or the same; or the value is the literal 0 (`zero`)
/// and a pointer is wanted; or both are pointers, one of them to void, or both to functions with the same result, one
/// of which takes any arguments.
#[tactic(auto, unfolding(c_types::specs::Types::converts))]
pub fn converts(from: &TypeRef, to: &TypeRef, zero: bool) -> bool
    ensures { result ≡ spec.converts from.now to.now zero }
{
    converts_parts(from.base(), &from.layers(), to.base(), &to.layers(), zero)
}

/// Whether a value converts to the type of a parameter.
#[tactic(auto, unfolding(c_types::specs::Types::converts))]
pub fn converts_to(from: &TypeRef, to: &Parameter<'_>, zero: bool) -> bool
    ensures { result ≡ spec.converts from.now to.now zero }
{
    converts_parts(from.base(), &from.layers(), to.base(), &to.layers(), zero)
}

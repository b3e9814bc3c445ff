//! What the rules on expressions ask of a type.

ghost use Rattle.std.specs.Prelude.{◌≡◌, IfOk};
ghost use Rattle.check_types.specs.Shapes as spec;

use c_type_refs::TypeRef;
use c_types::{Base, Integer, Layer, promoted};
use icode_ops::UnKind;
use std::alloc::{AllocError, Global};
use word32::Width;

/// The integer type that a type is.
pub fn integer_of(t: &TypeRef) -> Option<Integer>
    ensures { result ≡ spec.integer_of t.now }
{
    if !t.is_base() {
        return None;
    }
    match t.base() {
        Base::Void => None,
        Base::Integer(kind) => Some(kind),
    }
}

/// Whether a type is an integer type.
pub fn is_integer(t: &TypeRef) -> bool
    ensures { result ≡ spec.is_integer t.now }
{
    match integer_of(t) {
        None => false,
        Some(_) => true,
    }
}

/// Whether a type is void.
pub fn is_void(t: &TypeRef) -> bool
    ensures { result ≡ spec.is_void t.now }
{
    t.is_base() && t.base() == Base::Void
}

/// Whether a type is a pointer.
pub fn is_pointer(t: &TypeRef) -> bool
    ensures { result ≡ spec.is_pointer t.now }
{
    matches!(t.outermost(), Some(Layer::Pointer))
}

/// Whether a type is a function.
pub fn is_function(t: &TypeRef) -> bool
    ensures { result ≡ spec.is_function t.now }
{
    matches!(t.outermost(), Some(Layer::Function(_) | Layer::Unlisted))
}

/// Whether a type is an array or a function, so that its value is a pointer.
pub fn decays(t: &TypeRef) -> bool
    ensures { result ≡ spec.decays t.now }
{
    matches!(
        t.outermost(),
        Some(Layer::Array(_) | Layer::Function(_) | Layer::Unlisted)
    )
}

/// Whether a type is int, unsigned int or a pointer.
pub fn is_word(t: &TypeRef) -> bool
    ensures { result ≡ spec.is_word t.now }
{
    match t.outermost() {
        None => matches!(t.base(), Base::Integer(Integer::Int | Integer::Unsigned)),
        Some(last) => matches!(last, Layer::Pointer),
    }
}

/// Whether a type is an integer or a pointer.
pub fn is_scalar(t: &TypeRef) -> bool
    ensures { result ≡ spec.is_scalar t.now }
{
    is_integer(t) || is_pointer(t)
}

/// Whether a type is that of a specification.
pub fn is_cspec(t: &TypeRef) -> bool
    ensures { result ≡ spec.is_cspec t.now }
{
    matches!(t.outermost(), Some(Layer::Cspec))
}

/// Whether a type is that of a variable of generated code.
pub fn is_vspec(t: &TypeRef) -> bool
    ensures { result ≡ spec.is_vspec t.now }
{
    matches!(t.outermost(), Some(Layer::Vspec))
}

/// Whether a type is a pointer to void.
pub fn points_to_void(t: &TypeRef) -> bool
    ensures { result ≡ spec.points_to_void t.now }
{
    is_pointer(t) && t.layers().under().is_empty() && t.base() == Base::Void
}

/// Whether a type is a pointer to a function.
pub fn points_to_function(t: &TypeRef) -> bool
    ensures { result ≡ spec.points_to_function t.now }
{
    if !is_pointer(t) {
        return false;
    }
    matches!(
        t.layers().under().last(),
        Some(Layer::Function(_) | Layer::Unlisted)
    )
}

/// An integer type.
pub fn integer(alloc: Global, kind: Integer) -> TypeRef
    ensures { result ≡ spec.integer kind }
{
    TypeRef::new(alloc, Base::Integer(kind))
}

/// The type void.
pub fn void(alloc: Global) -> TypeRef
    ensures { result ≡ spec.void }
{
    TypeRef::new(alloc, Base::Void)
}

/// The type that one more layer makes.
pub fn over(layer: Layer, t: TypeRef) -> Result<TypeRef, AllocError>
    ensures { IfOk result (λ made. made ≡ spec.over layer t) }
{
    t.with(layer)
}

/// The type under the outermost layer: what a pointer points to, a function answers or a specification has.
pub fn inner(t: TypeRef) -> TypeRef
    ensures { result ≡ spec.inner t }
{
    t.under()
}

/// The type after promotion: a narrow integer becomes an int.
pub fn promoted_type(alloc: Global, t: TypeRef) -> TypeRef
    ensures { result ≡ spec.promoted t }
{
    match integer_of(&t) {
        Some(kind) => integer(alloc, promoted(kind)),
        None => t,
    }
}

/// How many bytes a scalar has, and how they become a word.
pub fn width_of(t: &TypeRef) -> Width
    ensures { result ≡ spec.width_of t.now }
{
    let Some(kind) = integer_of(t) else {
        return Width::Word;
    };
    match kind {
        Integer::Char => Width::SignedByte,
        Integer::UnsignedChar => Width::Byte,
        Integer::Short => Width::SignedHalf,
        Integer::UnsignedShort => Width::Half,
        Integer::Int | Integer::Unsigned => Width::Word,
    }
}

/// What makes any word a value of an integer type; none where each word is one.
pub fn narrowing(kind: Integer) -> Option<UnKind>
    ensures { result ≡ spec.narrowing kind }
{
    match kind {
        Integer::Char => Some(UnKind::SignedByte),
        Integer::UnsignedChar => Some(UnKind::Byte),
        Integer::Short => Some(UnKind::SignedHalf),
        Integer::UnsignedShort => Some(UnKind::Half),
        Integer::Int | Integer::Unsigned => None,
    }
}

// Whether the second is narrow and has each value of the first.
fn holds(from: Integer, to: Integer) -> bool
    ensures { result ≡ spec.holds from to }
{
    match from {
        Integer::Char => matches!(to, Integer::Char | Integer::Short),
        Integer::UnsignedChar => {
            matches!(
                to,
                Integer::UnsignedChar | Integer::Short | Integer::UnsignedShort
            )
        }
        Integer::Short => matches!(to, Integer::Short),
        Integer::UnsignedShort => matches!(to, Integer::UnsignedShort),
        Integer::Int | Integer::Unsigned => false,
    }
}

/// What a conversion does to a word; none where each value of the one type is the same word in the other.
pub fn conversion(from: &TypeRef, to: &TypeRef) -> Option<UnKind>
    ensures { result ≡ spec.conversion from.now to.now }
{
    match integer_of(to) {
        None => None,
        Some(kind) => match integer_of(from) {
            None => narrowing(kind),
            Some(own) => {
                if holds(own, kind) {
                    None
                } else {
                    narrowing(kind)
                }
            }
        },
    }
}

//! Sizes in bytes.

ghost use Rattle.std.specs.Prelude.{◌≡◌, ◌≤◌, IsTrue};
ghost use Rattle.c_types.specs.Types as spec;
ghost use Rattle.c_type_refs.specs.Extents as extents;
ghost use Rattle.c_type_refs.specs.Sizes as sizes;

use crate::extents::Extent;
use crate::layers::is_pointer;
use crate::shared::TypeRef;
use c_types::Integer;
use limits::program::MAX_SIZE;

/// The bytes of an integer type.
pub(crate) fn width(kind: Integer) -> u32
    ensures value { result ≡ spec.width kind }
    ensures few { result ≤ 4 }
{
    match kind {
        Integer::Char | Integer::UnsignedChar => 1,
        Integer::Short | Integer::UnsignedShort => 2,
        Integer::Int | Integer::Unsigned => 4,
    }
}

/// The size in bytes of a type that is neither void nor a function nor an array of these, and has at most [`MAX_SIZE`].
pub fn size_of(t: &TypeRef) -> u32
    requires sized { IsTrue (spec.is_sized t.now) }
    requires small { spec.size t.now ≤ MAX_SIZE }
    ensures { result ≡ spec.size t.now }
{
    t.extent().size
}

// The size of a type of this extent.
fn limited(extent: Extent) -> Option<u32>
    ensures { result ≡ extents.limited extent }
{
    if extent.sized && extent.size <= MAX_SIZE {
        Some(extent.size)
    } else {
        None
    }
}

/// The size in bytes of a type; none where it has none (void, functions and arrays of these) or over [`MAX_SIZE`].
pub fn limited_size(t: &TypeRef) -> Option<u32>
    ensures { result ≡ sizes.limited_size t.now }
{
    limited(t.extent())
}

/// The size in bytes of what a pointer points to; none where the type is no pointer, or where that has no size.
pub fn pointed_size(t: &TypeRef) -> Option<u32>
    ensures { result ≡ sizes.pointed_size t.now }
{
    if is_pointer(&t.layers()) {
        limited(t.extent_under())
    } else {
        None
    }
}

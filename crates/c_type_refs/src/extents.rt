//! How many bytes layers over a base have.

ghost use Rattle.std.specs.Prelude.{◌≡◌, ◌≤◌, IfOk};
ghost use Rattle.c_types.specs.Types as types;
ghost use Rattle.c_type_refs.specs.Extents as spec;

use crate::sizes::width;
use c_types::{Base, Layer};
use limits::program::SIZE_TOP;
use sqlite_items::Items;
use std::alloc::{AllocError, Global};

/// The bytes of a type, as far as a size is asked of it.
#[derive(Clone, Copy)]
pub(crate) struct Extent {
    /// Its size in bytes, or 4,194,305 where it is more.
    pub(crate) size: u32,
    /// Whether it is neither void nor a function nor an array of these.
    pub(crate) sized: bool,
}

/// The extent of a base.
pub(crate) fn start(base: Base) -> Extent
    ensures { result ≡ spec.start base }
{
    match base {
        Base::Void => Extent {
            size: 0,
            sized: false,
        },
        Base::Integer(kind) => Extent {
            size: width(kind),
            sized: true,
        },
    }
}

/// The extent of what a layer makes of a type of this extent.
pub(crate) fn grown(extent: Extent, layer: &Layer) -> Extent
    ensures { result ≡ spec.grown extent layer.now }
{
    match layer {
        Layer::Array(count) => Extent {
            size: (u64::from(extent.size) * u64::from(*count)).min(SIZE_TOP) as u32,
            sized: extent.sized,
        },
        Layer::Function(_) | Layer::Unlisted => Extent {
            size: 0,
            sized: false,
        },
        Layer::Pointer | Layer::Cspec | Layer::Vspec => Extent {
            size: 4,
            sized: true,
        },
    }
}

/// The extent of what layers make of a type of this extent.
pub(crate) fn after(extent: Extent, layers: &[Layer]) -> Extent
    ensures { result ≡ spec.after extent layers.now }
{
    let mut at = extent;
    for layer in layers {
        at = grown(at, layer);
    }
    at
}

/// The extents under the first of the layers, under the second and so on, and over the last.
pub(crate) fn extents(
    alloc: Global,
    first: Extent,
    layers: &[Layer],
) -> Result<Items<Extent>, AllocError>
    ensures { IfOk result (λ es. es ≡ spec.extents first layers.now) }
{
    let mut at = first;
    let mut found = Items::new(alloc);
    for layer in layers {
        found.push(at)?;
        at = grown(at, layer);
    }
    found.push(at)?;
    Ok(found)
}

//! Copies of types, and types that are made of others.

ghost use Rattle.std.specs.Prelude.{◌≡◌, ◌++◌, ◌∷◌, [], IfOk};
ghost use Rattle.c_types.specs.Types as spec;

use crate::ctype::{Base, CType, Layer};
use sqlite_items::Items;
use std::alloc::{AllocError, Global};

/// A copy of a type, layer by layer.
#[cycle(copy)]
pub fn copy_ctype(alloc: Global, t: &CType) -> Result<CType, AllocError>
    ensures { IfOk result (λ c. c ≡ t.now) }
{
    let layers = copy_layers(alloc, t.layers.as_slice())?;
    Ok(CType {
        base: t.base,
        layers,
    })
}

/// A copy of layers.
#[cycle(copy)]
pub fn copy_layers(alloc: Global, layers: &[Layer]) -> Result<Items<Layer>, AllocError>
    ensures { IfOk result (λ c. c ≡ layers.now) }
{
    let mut found = Items::new(alloc);
    for layer in layers {
        let copied = copy_layer(alloc, layer)?;
        found.push(copied)?;
    }
    Ok(found)
}

// A copy of a layer.
#[cycle(copy)]
fn copy_layer(alloc: Global, layer: &Layer) -> Result<Layer, AllocError>
    ensures { IfOk result (λ c. c ≡ layer.now) }
{
    Ok(match layer {
        Layer::Pointer => Layer::Pointer,
        Layer::Array(count) => Layer::Array(*count),
        Layer::Function(list) => Layer::Function(copy_list(alloc, list.as_slice())?),
        Layer::Unlisted => Layer::Unlisted,
        Layer::Cspec => Layer::Cspec,
        Layer::Vspec => Layer::Vspec,
    })
}

/// A copy of a list of types.
#[cycle(copy)]
pub fn copy_list(alloc: Global, list: &[CType]) -> Result<Items<CType>, AllocError>
    ensures { IfOk result (λ c. c ≡ list.now) }
{
    let mut found = Items::new(alloc);
    for t in list {
        let copied = copy_ctype(alloc, t)?;
        found.push(copied)?;
    }
    Ok(found)
}

impl CType {
    /// The type that is this base alone.
    pub fn new(alloc: Global, base: Base) -> CType
        ensures base { spec.base_of result ≡ base }
        ensures layers { spec.layers_of result ≡ [] }
    {
        CType {
            base,
            layers: Items::new(alloc),
        }
    }

    /// The type that one more layer makes of this one.
    pub fn with(self, layer: Layer) -> Result<CType, AllocError>
        ensures base { IfOk result (λ t. spec.base_of t ≡ spec.base_of self) }
        ensures layers { IfOk result (λ t. spec.layers_of t ≡ spec.layers_of self ++ layer ∷ []) }
    {
        let CType { base, mut layers } = self;
        layers.push(layer)?;
        Ok(CType { base, layers })
    }
}

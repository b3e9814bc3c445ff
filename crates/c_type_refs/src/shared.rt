//! Types whose layers are shared.

ghost use Rattle.std.specs.Prelude.{◌≡◌, ◌≤◌, ◌==◌, ◌++◌, ◌∷◌, [], length, take, IfOk};
ghost use Rattle.std.specs.Option.{option_copied};
ghost use Rattle.c_types.specs.Types as types;
ghost use Rattle.c_type_refs.specs.Extents as sizes;
ghost use Rattle.c_type_refs.specs.Shared as spec;

use crate::extents::{Extent, after, start};
use crate::layers::Layers;
use crate::row::{Row, SharedRow};
use c_types::{Base, CType, Layer, copy_layers};
use sqlite_items::Items;
use std::alloc::{AllocError, Global};
use std::marker::Model;

/// A type whose copies share its row of layers: to copy it, to put a layer on it and to take one off costs the same
/// however many layers its row has.
pub struct TypeRef {
    base: Base,
    // How many of the row's layers it has, in the room that stands beside the base.
    len: u32,
    row: Option<SharedRow>,
    // Its own layers, over these.
    more: Items<Layer>,
}

impl Model for TypeRef {
    ghost use Rattle.c_types.specs.declared.ctype.CType.{CType};
    ghost use Rattle.c_types.specs.contracts.ctype.CType as inner;
    ghost use Rattle.c_types.specs.Types.{ctype};
    ghost use Rattle.c_type_refs.specs.Shared.{all_layers, IsShared};

    ghost Value = { CType };

    ghost coded = { inner.the_row.coded };

    ghost view = { λ t. ctype t.base (all_layers t.row t.len t.more) };

    ghost invariant = { λ t. IsShared t.base t.row t.len };
}

// (derived, each place that drops a type would look into its row)
impl Drop for TypeRef {
    fn drop(self) {
        let TypeRef {
            base: _,
            len: _,
            row: _,
            more: _,
        } = self;
    }
}

// The row, once more.
fn again(row: &Option<SharedRow>) -> Result<Option<SharedRow>, AllocError>
    ensures { IfOk result (λ r. r ≡ row.now) }
{
    match row {
        Some(shared) => Ok(Some(shared.again()?)),
        None => Ok(None),
    }
}

// The first `len` layers of a row, and more on top.
fn lent<'a>(row: &'a Option<SharedRow>, len: usize, more: &'a [Layer]) -> Layers<'a>
    requires { len ≤ length (spec.row_layers row.now) }
    ensures { result ≡ spec.all_layers row.now len more.now }
{
    match row {
        Some(shared) => shared.get().first(len, more),
        None => Layers::plain(more),
    }
}

// The outermost of the first `len` layers of a row; none where that is none.
fn row_outermost(row: &Option<SharedRow>, len: usize) -> Option<&Layer>
    requires { len ≤ length (spec.row_layers row.now) }
    ensures { option_copied result ≡ types.outermost (take len (spec.row_layers row.now)) }
{
    match row {
        Some(shared) => shared.get().outermost(len),
        None => None,
    }
}

// The extent over the first `len` layers of a row over this base.
fn row_extent(base: Base, row: &Option<SharedRow>, len: usize) -> Extent
    requires { spec.IsShared base row.now len }
    ensures { result ≡ sizes.after (sizes.start base) (take len (spec.row_layers row.now)) }
{
    match row {
        Some(shared) => shared.get().extent(len),
        None => start(base),
    }
}

impl TypeRef {
    /// The type that is this base alone.
    pub fn new(alloc: Global, base: Base) -> TypeRef
        ensures { result ≡ types.ctype base [] }
    {
        TypeRef {
            base,
            len: 0,
            row: None,
            more: Items::new(alloc),
        }
    }

    /// This type, to be shared.
    pub fn share(alloc: Global, t: CType) -> Result<TypeRef, AllocError>
        ensures { IfOk result (λ s. s ≡ t) }
    {
        let base = t.base;
        let Ok(len) = u32::try_from(t.layers.len()) else {
            // (no memory has so many)
            return Err(AllocError);
        };
        if len == 0 {
            return Ok(TypeRef::new(alloc, base));
        }
        let row = SharedRow::new(alloc, Row::new(alloc, t)?)?;
        Ok(TypeRef {
            base,
            len,
            row: Some(row),
            more: Items::new(alloc),
        })
    }

    /// What it begins with.
    pub fn base(&self) -> Base
        ensures { result ≡ types.base_of self.now }
    {
        self.base
    }

    /// Its layers.
    pub fn layers(&self) -> Layers<'_>
        ensures { result ≡ types.layers_of self.now }
    {
        lent(&self.row, self.len as usize, self.more.as_slice())
    }

    /// The outermost layer; none where it is its base alone.
    pub fn outermost(&self) -> Option<&Layer>
        ensures { option_copied result ≡ types.outermost (types.layers_of self.now) }
    {
        match self.more.as_slice().last() {
            Some(layer) => Some(layer),
            None => row_outermost(&self.row, self.len as usize),
        }
    }

    /// Whether it is its base alone.
    pub fn is_base(&self) -> bool
        ensures { result ≡ (length (types.layers_of self.now) == 0) }
    {
        self.len == 0 && self.more.len() == 0
    }

    /// Its extent.
    pub(crate) fn extent(&self) -> Extent
        ensures { result ≡ sizes.after (sizes.start (types.base_of self.now)) (types.layers_of self.now) }
    {
        after(
            row_extent(self.base, &self.row, self.len as usize),
            self.more.as_slice(),
        )
    }

    /// The extent under its outermost layer.
    pub(crate) fn extent_under(&self) -> Extent
        ensures { result ≡ sizes.after (sizes.start (types.base_of self.now)) (types.under (types.layers_of self.now)) }
    {
        let more = self.more.as_slice();
        let on_top = more.len();
        if on_top == 0 {
            row_extent(self.base, &self.row, self.len.saturating_sub(1) as usize)
        } else {
            after(
                row_extent(self.base, &self.row, self.len as usize),
                &more[..on_top - 1],
            )
        }
    }

    /// The type that one more layer makes of this one.
    pub fn with(self, layer: Layer) -> Result<TypeRef, AllocError>
        ensures { IfOk result (λ t. t ≡ types.ctype (types.base_of self) (types.layers_of self ++ layer ∷ [])) }
    {
        let mut t = self;
        t.more.push(layer)?;
        Ok(t)
    }

    /// The type under the outermost layer; a base alone stays as it is.
    pub fn under(self) -> TypeRef
        ensures { result ≡ types.ctype (types.base_of self) (types.under (types.layers_of self)) }
    {
        let mut t = self;
        if t.more.pop().is_none() {
            t.len = t.len.saturating_sub(1);
        }
        t
    }
}

// A copy of a type's own layers: mostly there are none.
fn copied(alloc: Global, layers: &Items<Layer>) -> Result<Items<Layer>, AllocError>
    ensures { IfOk result (λ c. c ≡ layers.now) }
{
    if layers.is_empty() {
        Ok(Items::new(alloc))
    } else {
        copy_layers(alloc, layers.as_slice())
    }
}

/// A copy of a type, which shares its layers.
pub fn copy(alloc: Global, t: &TypeRef) -> Result<TypeRef, AllocError>
    ensures { IfOk result (λ c. c ≡ t.now) }
{
    let row = again(&t.row)?;
    let more = copied(alloc, &t.more)?;
    Ok(TypeRef {
        base: t.base,
        len: t.len,
        row,
        more,
    })
}

//! A row of layers over a base, kept once for all the types that begin with it.

ghost use Rattle.std.specs.Prelude.{◌≡◌, ◌≤◌, ◌++◌, length, take, IfOk};
ghost use Rattle.std.specs.Option.{option_copied};
ghost use Rattle.c_types.specs.Types as types;
ghost use Rattle.c_type_refs.specs.Extents as sizes;

use crate::code::{Code, codes_of_lists, first};
use crate::extents::{Extent, after, extents, start};
use crate::layers::Layers;
use c_types::{Base, CType, Layer};
use sqlite_items::Items;
use std::alloc::{AllocError, Global};
use std::marker::Model;
use std::rc::Rc;

/// The layers over a base, with their code, the extent over each, and the codes of the types of each one's list: few
/// layers without these, since they are compared and counted one by one as fast.
#[derive(Drop)]
pub(crate) struct Row {
    base: Base,
    layers: Items<Layer>,
    code: Code,
    // The codes of the types of each layer's list.
    lists: Items<Items<Code>>,
    // The extent of the base, and that over each layer, where they are kept.
    extents: Items<Extent>,
}

impl Model for Row {
    ghost use Rattle.c_types.specs.declared.ctype.CType.{CType};
    ghost use Rattle.c_types.specs.contracts.ctype.CType as inner;
    ghost use Rattle.c_types.specs.Types.{ctype};
    ghost use Rattle.c_type_refs.specs.Shared.{IsRow};

    ghost Value = { CType };

    ghost coded = { inner.the_row.coded };

    ghost view = { λ r. ctype r.base r.layers };

    ghost invariant = { λ r. IsRow r.base r.layers r.code r.lists r.extents };
}

// How many layers at most are kept without a code.
const FEW_LAYERS: usize = 4;

// How many types at most a list has that is kept without the codes of its types.
const FEW_TYPES: usize = 8;

// Whether a type of a list has a layer at most, and that without a list.
fn is_simple(t: &CType) -> bool {
    match t.layers.as_slice() {
        [] => true,
        [Layer::Function(_)] => false,
        [_] => true,
        _ => false,
    }
}

// Whether a layer has no list, or few types in it and each of them simple.
fn is_short(layer: &Layer) -> bool {
    match layer {
        Layer::Function(list) => list.len() <= FEW_TYPES && list.as_slice().iter().all(is_simple),
        Layer::Pointer | Layer::Array(_) | Layer::Unlisted | Layer::Cspec | Layer::Vspec => true,
    }
}

// Whether layers are so few, with those of the types in their lists, that they need no code and no extents.
fn are_few(layers: &[Layer]) -> bool {
    layers.len() <= FEW_LAYERS && layers.iter().all(is_short)
}

impl Row {
    pub(crate) fn new(alloc: Global, t: CType) -> Result<Row, AllocError>
        ensures { IfOk result (λ r. r ≡ t) }
    {
        let CType { base, layers } = t;
        if are_few(layers.as_slice()) {
            Ok(Row::bare(alloc, base, layers))
        } else {
            Row::coded(alloc, base, layers)
        }
    }

    // The layers alone.
    fn bare(alloc: Global, base: Base, layers: Items<Layer>) -> Row
        ensures { result ≡ types.ctype base layers }
    {
        Row {
            base,
            layers,
            code: Code::none(alloc),
            lists: Items::new(alloc),
            extents: Items::new(alloc),
        }
    }

    // The layers with all that is kept of them.
    fn coded(alloc: Global, base: Base, layers: Items<Layer>) -> Result<Row, AllocError>
        ensures { IfOk result (λ r. r ≡ types.ctype base layers) }
    {
        let code = Code::new(alloc, layers.as_slice())?;
        let lists = codes_of_lists(alloc, layers.as_slice())?;
        let extents = extents(alloc, start(base), layers.as_slice())?;
        Ok(Row {
            base,
            layers,
            code,
            lists,
            extents,
        })
    }

    /// The extent over the first `len` layers.
    pub(crate) fn extent(&self, len: usize) -> Extent
        requires { len ≤ length (types.layers_of self.now) }
        ensures { result ≡ sizes.after (sizes.start (types.base_of self.now)) (take len (types.layers_of self.now)) }
    {
        match self.extents.get(len) {
            Some(extent) => *extent,
            None => after(start(self.base), &self.layers.as_slice()[..len]),
        }
    }

    /// The outermost of the first `len` layers; none where that is none.
    pub(crate) fn outermost(&self, len: usize) -> Option<&Layer>
        requires { len ≤ length (types.layers_of self.now) }
        ensures { option_copied result ≡ types.outermost (take len (types.layers_of self.now)) }
    {
        self.layers.as_slice()[..len].last()
    }

    /// The first `len` layers, and more on top.
    pub(crate) fn first<'a>(&'a self, len: usize, more: &'a [Layer]) -> Layers<'a>
        requires { len ≤ length (types.layers_of self.now) }
        ensures { result ≡ take len (types.layers_of self.now) ++ more.now }
    {
        let ends = self.code.ends.as_slice();
        let coded = ends.len().min(len);
        let lists = self.lists.as_slice();
        Layers::coded(
            &self.layers.as_slice()[..len],
            first(&self.code.symbols.lent(), ends, coded),
            &ends[..coded],
            &lists[..lists.len().min(len)],
            more,
        )
    }
}

/// A row that several types share.
#[derive(Drop)]
pub(crate) struct SharedRow {
    row: Rc<Row>,
}

impl Model for SharedRow {
    ghost use Rattle.c_types.specs.declared.ctype.CType.{CType};
    ghost use Rattle.c_types.specs.contracts.ctype.CType as inner;

    ghost Value = { CType };

    ghost coded = { inner.the_row.coded };

    ghost view = { λ s. s.row.value };
}

impl SharedRow {
    pub(crate) fn new(alloc: Global, row: Row) -> Result<SharedRow, AllocError>
        ensures { IfOk result (λ s. s ≡ row) }
    {
        let row = Rc::new(alloc, row)?;
        Ok(SharedRow { row })
    }

    /// The same row, once more.
    pub(crate) fn again(&self) -> Result<SharedRow, AllocError>
        ensures { IfOk result (λ s. s ≡ self.now) }
    {
        let row = self.row.clone()?;
        Ok(SharedRow { row })
    }

    pub(crate) fn get(&self) -> &Row
        ensures { result.now ≡ self.now }
    {
        &self.row
    }
}

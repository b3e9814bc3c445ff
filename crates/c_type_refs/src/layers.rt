//! The layers of a type, lent.

ghost use Rattle.std.specs.Prelude.{◌≡◌, ◌<◌, ◌++◌, ◌==◌, length, slice_get, Some, true};
ghost use Rattle.std.specs.Option.{option_copied};
ghost use Rattle.c_types.specs.Types as types;
ghost use Rattle.c_type_refs.specs.Shared.{AreLent, CodesOf};

use crate::code::{Code, first};
use crate::parameters::Parameters;
use c_types::{Layer, same_layer};
use shared_bytes::LentSymbols;
use sqlite_items::Items;
use std::marker::Model;

/// The layers of a type, the outermost last: first those of its row, of which the first have a code, with the codes of
/// the types of their lists, and then those on top.
#[derive(Drop)]
pub struct Layers<'a> {
    row: &'a [Layer],
    code: LentSymbols<'a>,
    // Where the code of each of the first of them ends.
    ends: &'a [u32],
    // The codes of the types of the lists of the first of them.
    lists: &'a [Items<Code>],
    more: &'a [Layer],
}

impl<'a> Model for Layers<'a> {
    ghost use Rattle.std.specs.Prelude.{List, ◌++◌};
    ghost use Rattle.c_types.specs.declared.ctype.Layer.{Layer};
    ghost use Rattle.c_type_refs.specs.Shared.{AreLent};
    ghost use Rattle.c_types.specs.contracts.ctype.Layer as inner;
    ghost use Rattle.std.specs.Coded.{codes};

    ghost Value = { List Layer };

    ghost coded = { Prim.hlevel (codes, inner.the_row.coded) };

    ghost view = { λ l. l.row.now ++ l.more.now };

    ghost invariant = { λ l. AreLent l.row.now l.code l.ends.now l.lists.now };
}

impl<'a> Layers<'a> {
    /// Layers with their code, and more on top.
    pub(crate) fn coded(
        row: &'a [Layer],
        code: LentSymbols<'a>,
        ends: &'a [u32],
        lists: &'a [Items<Code>],
        more: &'a [Layer],
    ) -> Layers<'a>
        requires { AreLent row.now code ends.now lists.now }
        ensures { result ≡ row.now ++ more.now }
    {
        Layers {
            row,
            code,
            ends,
            lists,
            more,
        }
    }

    /// Layers without a code.
    pub(crate) fn plain(layers: &'a [Layer]) -> Layers<'a>
        ensures { result ≡ layers.now }
    {
        Layers {
            row: &[],
            code: LentSymbols::none(),
            ends: &[],
            lists: &[],
            more: layers,
        }
    }

    /// How many there are.
    pub fn len(&self) -> usize
        ensures { result ≡ length self.now }
    {
        self.row.len() + self.more.len()
    }

    /// Whether there is none.
    pub fn is_empty(&self) -> bool
        ensures { result ≡ (length self.now == 0) }
    {
        self.len() == 0
    }

    /// The layer at this place, counted from the base.
    fn at(&self, place: usize) -> &'a Layer
        requires { place < length self.now }
        ensures { slice_get self.now place ≡ Some result.now }
    {
        let below = self.row.len();
        if place < below {
            &self.row[place]
        } else {
            &self.more[place - below]
        }
    }

    /// The outermost layer; none where the type is its base.
    pub fn last(&self) -> Option<&'a Layer>
        ensures { option_copied result ≡ types.outermost self.now }
    {
        match self.more.last() {
            Some(layer) => Some(layer),
            None => self.row.last(),
        }
    }

    // The codes of the types of the outermost layer's list, where they are kept.
    fn last_codes(&self) -> &'a [Code]
        ensures { CodesOf (types.outermost self.now) result.now }
    {
        let below = self.row.len();
        let on_top = self.more.len();
        if on_top == 0 && below > 0 && self.lists.len() == below {
            self.lists[below - 1].as_slice()
        } else {
            &[]
        }
    }

    /// The types of the parameters of the function that this is; none where it is none.
    pub fn parameters(&self) -> Parameters<'a>
        ensures { result ≡ types.list_of (types.outermost self.now) }
    {
        match self.last() {
            Some(Layer::Function(list)) => { Parameters::coded(list.as_slice(), self.last_codes()) }
            _ => Parameters::coded(&[], &[]),
        }
    }

    /// The layers under the outermost one.
    pub fn under(&self) -> Layers<'a>
        ensures { result ≡ types.under self.now }
    {
        let on_top = self.more.len();
        if on_top > 0 {
            return Layers {
                row: self.row,
                code: self.code.again(),
                ends: self.ends,
                lists: self.lists,
                more: &self.more[..on_top - 1],
            };
        }
        let below = self.row.len().saturating_sub(1);
        let coded = self.ends.len().min(below);
        Layers {
            row: &self.row[..below],
            code: first(&self.code, self.ends, coded),
            ends: &self.ends[..coded],
            lists: &self.lists[..self.lists.len().min(below)],
            more: self.more,
        }
    }
}

/// Whether the layers are the same: by their codes as far as both have any, and the others one by one.
#[tactic(auto, using(c_types::proofs::SameLaws::other_layers))]
pub fn same_shared(a: &Layers<'_>, b: &Layers<'_>) -> bool
    ensures { result ≡ types.same_layers a.now b.now }
{
    if a.len() != b.len() {
        return false;
    }
    let both = a.ends.len().min(b.ends.len());
    if !first(&a.code, a.ends, both).same_as(&first(&b.code, b.ends, both)) {
        return false;
    }
    for place in both..a.len() {
        if !same_layer(a.at(place), b.at(place)) {
            return false;
        }
    }
    true
}

/// Whether the outermost of the layers makes a pointer.
pub fn is_pointer(layers: &Layers<'_>) -> bool
    ensures value { result ≡ types.is_pointer (types.outermost layers.now) }
    ensures some { result ≡ true → 0 < length layers.now }
{
    matches!(layers.last(), Some(Layer::Pointer))
}

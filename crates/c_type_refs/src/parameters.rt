//! The types of a function's parameters, lent.

ghost use Rattle.std.specs.Prelude.{◌≡◌, length, slice_get};
ghost use Rattle.c_types.specs.Types as types;
ghost use Rattle.c_type_refs.specs.Shared.{AreTypes};

use crate::code::Code;
use crate::layers::Layers;
use c_types::{Base, CType};
use std::marker::Model;

/// The types of a function's parameters, with the codes of as many of the first as have any.
#[derive(Drop)]
pub struct Parameters<'a> {
    types: &'a [CType],
    type_codes: &'a [Code],
}

impl<'a> Model for Parameters<'a> {
    ghost use Rattle.std.specs.Prelude.{List};
    ghost use Rattle.c_types.specs.declared.ctype.CType.{CType};
    ghost use Rattle.c_type_refs.specs.Shared.{AreTypes};
    ghost use Rattle.c_types.specs.contracts.ctype.CType as inner;
    ghost use Rattle.std.specs.Coded.{codes};

    ghost Value = { List CType };

    ghost coded = { Prim.hlevel (codes, inner.the_row.coded) };

    ghost view = { λ p. p.types.now };

    ghost invariant = { λ p. AreTypes p.types.now p.type_codes.now };
}

impl<'a> Parameters<'a> {
    /// Types with their codes.
    pub(crate) fn coded(types: &'a [CType], type_codes: &'a [Code]) -> Parameters<'a>
        requires { AreTypes types.now type_codes.now }
        ensures { result ≡ types.now }
    {
        Parameters { types, type_codes }
    }

    /// How many there are.
    pub fn len(&self) -> usize
        ensures { result ≡ length self.now }
    {
        self.types.len()
    }

    /// The type of the parameter at this place, where there is one.
    pub fn get(&self, place: usize) -> Option<Parameter<'a>>
        ensures { result ≡ slice_get self.now place }
    {
        let ctype = self.types.get(place)?;
        let code = self.type_codes.get(place);
        Some(Parameter { ctype, code })
    }
}

/// The type of a parameter, with its code.
#[derive(Drop)]
pub struct Parameter<'a> {
    ctype: &'a CType,
    code: Option<&'a Code>,
}

impl<'a> Model for Parameter<'a> {
    ghost use Rattle.c_types.specs.declared.ctype.CType.{CType};
    ghost use Rattle.std.specs.Option.{option_copied};
    ghost use Rattle.c_types.specs.Types.{layers_of};
    ghost use Rattle.c_type_refs.specs.Shared.{IsCodeOf};
    ghost use Rattle.c_types.specs.contracts.ctype.CType as inner;

    ghost Value = { CType };

    ghost coded = { inner.the_row.coded };

    ghost view = { λ p. p.ctype.now };

    ghost invariant = { λ p. IsCodeOf (layers_of p.ctype.now) (option_copied p.code) };
}

impl<'a> Parameter<'a> {
    /// What it begins with.
    pub fn base(&self) -> Base
        ensures { result ≡ types.base_of self.now }
    {
        self.ctype.base
    }

    /// Its layers.
    pub fn layers(&self) -> Layers<'a>
        ensures { result ≡ types.layers_of self.now }
    {
        let layers = self.ctype.layers.as_slice();
        match self.code {
            Some(code) => {
                Layers::coded(layers, code.symbols.lent(), code.ends.as_slice(), &[], &[])
            }
            None => Layers::plain(layers),
        }
    }
}

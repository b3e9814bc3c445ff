//! The typed tree of an accepted text.

ghost use Rattle.std.specs.Prelude.{◌≡◌};
ghost use Rattle.wellformed.specs.Program.{IsWellFormed};

use std::marker::Model;
use typed_tree::{Function, Tick, TypedParts};

/// The typed tree of an accepted text, which contracts see as its parts. The law on accepted texts holds of each:
/// `IsWellFormed`.
#[derive(Drop)]
pub struct Typed {
    parts: TypedParts,
}

impl Model for Typed {
    ghost use Rattle.typed_tree.specs.declared.program.TypedParts.{TypedParts};
    ghost use Rattle.typed_tree.specs.contracts.program.TypedParts as inner;

    ghost Value = { TypedParts };

    ghost coded = { inner.the_row.coded };

    ghost use Rattle.wellformed.specs.Program.{IsWellFormed};

    ghost view = { λ t. t.parts };

    ghost invariant = { λ t. IsWellFormed t.parts };
}

impl Typed {
    /// The typed tree of these parts, which are those of an accepted text.
    pub fn new(parts: TypedParts) -> Self
        requires { IsWellFormed parts }
        ensures { result ≡ parts }
    {
        Typed { parts }
    }

    /// Its functions, in the order of their definitions; the first has the number 1.
    pub fn functions(&self) -> &[Function]
        ensures { result.now ≡ self.now.functions }
    {
        self.parts.functions.as_slice()
    }

    /// Its ticks, in the order of the text.
    pub fn ticks(&self) -> &[Tick]
        ensures { result.now ≡ self.now.ticks }
    {
        self.parts.ticks.as_slice()
    }

    /// The bytes of its globals, then of its strings, from the first address of the object space on.
    pub fn image(&self) -> &[u8]
        ensures { result.now ≡ self.now.image }
    {
        self.parts.image.as_slice()
    }

    /// That the law on accepted texts holds of it.
    pub fn keeps_law(&self)
        ensures { IsWellFormed self.now }
    {
        let _ = &self.parts;
    }
}

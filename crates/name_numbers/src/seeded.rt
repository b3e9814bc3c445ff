//! Hashers that start from a state of their own.

ghost use Rattle.std.specs.Prelude.{◌≡◌};

use std::hash::{BuildHasher, FoldHasher};

/// What makes the hashers of a table: each starts from one state, which names that are known already have made. So
/// whoever picks names has to pick them anew when it changes.
#[derive(Clone, Copy)]
pub(crate) struct Seeded {
    first: FoldHasher,
}

impl Seeded {
    pub(crate) fn new(first: FoldHasher) -> Seeded {
        Seeded { first }
    }
}

impl BuildHasher for Seeded {
    type Hasher = FoldHasher;

    ghost build_hasher = { λ s. s.first };

    fn build_hasher(&self) -> FoldHasher {
        self.first
    }
}

//! Names as keys of a table, which hashes each by one write of its bytes.

ghost use Rattle.std.specs.Prelude.{◌≡◌, IfOk};
ghost use Rattle.std.specs.Str.{bytes_eq};

use indexmap::Equivalent;
use small_bytes::SmallBytes;
use std::alloc::{AllocError, Global};
use std::cell::Cell;
use std::hash::{Hash, Hasher};
use std::marker::Model;

/// A name as a key, which contracts see as its bytes. One of up to 16 bytes takes no memory of its own.
#[derive(Drop)]
pub(crate) struct Key {
    bytes: SmallBytes,
}

impl Model for Key {
    ghost use Rattle.std.specs.Prelude.{List, ℕ};

    ghost Value = { List ℕ };

    ghost view = { λ k. k.bytes };
}

impl Key {
    pub(crate) fn new(alloc: Global, name: &[u8]) -> Result<Key, AllocError>
        ensures { IfOk result (λ k. k ≡ name.now) }
    {
        Ok(Key {
            bytes: SmallBytes::from_slice(alloc, name)?,
        })
    }

    fn as_slice(&self) -> &[u8]
        ensures { result.now ≡ self.now }
    {
        self.bytes.as_slice()
    }
}

impl PartialEq for Key {
    ghost use Rattle.std.specs.Cmp.{partial_equiv_from_equiv};
    ghost use Rattle.std.specs.Cmp.Lexicographic.{nat_list_eq_equiv};
    ghost use Rattle.std.specs.Str.{bytes_eq};

    ghost eq = { bytes_eq };

    ghost laws = { partial_equiv_from_equiv nat_list_eq_equiv };

    fn eq(&self, other: &Key) -> bool {
        self.as_slice() == other.as_slice()
    }
}

impl Eq for Key {
    ghost use Rattle.std.specs.Cmp.Lexicographic.{nat_list_eq_equiv};

    ghost laws = { nat_list_eq_equiv };
}

impl Hash for Key {
    ghost use Rattle.std.specs.Prelude.{[], ◌∷◌};
    ghost use Rattle.std.proofs.Common.{ap};
    ghost use Rattle.std.specs.Cmp.Lexicographic.{bytes_decides};

    ghost hash_input = { λ k. k ∷ [] };

    ghost respects_eq = { λ x y same. ap (λ k. k ∷ []) ((bytes_decides x y).0 same) };

    fn hash<H: Hasher>(&self, state: &mut H) {
        state.write(self.as_slice());
    }
}

/// A name that is looked for, and the count of the keys that it is compared with.
#[derive(Clone, Copy)]
pub(crate) struct Wanted<'a> {
    name: &'a [u8],
    tries: &'a Cell<usize>,
}

impl<'a> Wanted<'a> {
    pub(crate) fn new(name: &'a [u8], tries: &'a Cell<usize>) -> Wanted<'a>
        ensures { result.name.now ≡ name.now }
    {
        Wanted { name, tries }
    }
}

impl<'a> PartialEq for Wanted<'a> {
    ghost use Rattle.std.specs.Cmp.{on_per, partial_equiv_from_equiv};
    ghost use Rattle.std.specs.Cmp.Lexicographic.{nat_list_eq_equiv};
    ghost use Rattle.std.specs.Str.{bytes_eq};

    ghost eq = { λ x y. bytes_eq x.name.now y.name.now };

    ghost laws = { on_per (λ w. w.name.now) (partial_equiv_from_equiv nat_list_eq_equiv) };

    fn eq(&self, other: &Wanted<'a>) -> bool {
        self.name == other.name
    }
}

impl<'a> Eq for Wanted<'a> {
    ghost use Rattle.std.specs.Cmp.{on_equiv};
    ghost use Rattle.std.specs.Cmp.Lexicographic.{nat_list_eq_equiv};

    ghost laws = { on_equiv (λ w. w.name.now) nat_list_eq_equiv };
}

impl<'a> Hash for Wanted<'a> {
    ghost use Rattle.std.specs.Prelude.{[], ◌∷◌};
    ghost use Rattle.std.proofs.Common.{ap};
    ghost use Rattle.std.specs.Cmp.Lexicographic.{bytes_decides};

    ghost hash_input = { λ w. w.name.now ∷ [] };

    ghost respects_eq = { λ x y same. ap (λ k. k ∷ []) ((bytes_decides x.name.now y.name.now).0 same) };

    fn hash<H: Hasher>(&self, state: &mut H) {
        state.write(self.name);
    }
}

impl<'a> Equivalent<Key> for Wanted<'a> {
    ghost use Rattle.std.specs.Prelude.{[], ◌∷◌};
    ghost use Rattle.std.proofs.Common.{ap};
    ghost use Rattle.std.specs.Cmp.Lexicographic.{bytes_decides, nat_list_eq_equiv};
    ghost use Rattle.std.specs.Str.{bytes_eq};

    ghost equivalent = { λ w k. bytes_eq w.name.now k };

    ghost respects_hash = { λ w k same. ap (λ n. n ∷ []) ((bytes_decides w.name.now k).0 same) };

    ghost respects_eq = { λ w x y. nat_list_eq_equiv.congr w.name.now x y };

    fn equivalent(&self, key: &Key) -> bool {
        self.tries.set(self.tries.get().wrapping_add(1));
        self.name == key.as_slice()
    }
}

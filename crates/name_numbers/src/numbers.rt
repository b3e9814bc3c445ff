//! Names and their numbers.

ghost use Rattle.std.specs.Prelude.{◌≡◌, ◌++◌, ◌∷◌, [], None, Some, OnOk, OnErr, IfOk};
ghost use Rattle.name_numbers.specs.Numbers as spec;

use crate::keys::{Key, Wanted};
use crate::seeded::Seeded;
use indexmap::IndexSet;
use std::alloc::{AllocError, Global};
use std::cell::Cell;
use std::hash::{BuildHasher, FoldHasher, Hash};
use std::marker::Model;

/// The names that are or were declared, each once. The place of a name is its number.
pub struct Names {
    all: IndexSet<Key, Seeded>,
    // how many there were when they were last hashed anew
    settled: usize,
}

// (derived, each place that drops one would look into it)
impl Drop for Names {
    fn drop(self) {
        let Names { all: _, settled: _ } = self;
    }
}

impl Model for Names {
    ghost use Rattle.std.specs.Prelude.{List};
    ghost use Rattle.name_numbers.specs.Numbers.{Name};

    ghost Value = { List Name };

    ghost view = { λ t. t.all.keys };
}

// With how many keys a name is compared at most before they are hashed anew. In a table of any size it is one or two,
// unless names are chosen so that they collide.
const CROWD: usize = 8;

// What makes other hashers than those of a table: they start from what its own make of all its names.
fn other_than(all: &IndexSet<Key, Seeded>) -> Seeded {
    let mut first = all.hasher().build_hasher();
    for key in all.as_slice() {
        key.hash(&mut first);
    }
    Seeded::new(first)
}

impl Names {
    /// No name.
    pub fn new(alloc: Global) -> Names
        ensures { result ≡ [] }
    {
        Names {
            all: IndexSet::with_hasher(alloc, Seeded::new(FoldHasher::default())),
            settled: 0,
        }
    }

    // The number of a name, and none where it has none; how many keys it is compared with is counted.
    fn find_counting(&self, name: &[u8], tries: &Cell<usize>) -> Option<usize>
        ensures { result ≡ spec.number_of self.now name.now }
    {
        self.all.get_index_of(Wanted::new(name, tries))
    }

    /// The number of a name; none where it has none.
    pub fn find(&self, name: &[u8]) -> Option<usize>
        ensures { result ≡ spec.number_of self.now name.now }
    {
        self.find_counting(name, &Cell::new(0))
    }

    // Hashes all names anew.
    fn settle(&mut self, alloc: Global) -> Result<(), AllocError>
        ensures { self.new ≡ self.old }
    {
        let other = other_than(&self.all);
        let many = self.all.len();
        let mut all = IndexSet::with_capacity_and_hasher(alloc, many, other)?;
        all.append(&mut self.all)?;
        self.all = all;
        self.settled = many;
        Ok(())
    }

    // Puts a name that has no number behind the others.
    fn put(&mut self, alloc: Global, name: &[u8]) -> Result<(), AllocError>
        requires { spec.number_of self.old name.now ≡ None }
        ensures ok { OnOk result (self.new ≡ self.old ++ name.now ∷ []) }
        ensures err { OnErr result (self.new ≡ self.old) }
    {
        let key = Key::new(alloc, name)?;
        match self.all.insert(key) {
            Ok(_) => Ok(()),
            Err(_) => Err(AllocError),
        }
    }

    // Hashes all names anew, where one was compared with too many of them; but not before a 64th of them is new, so
    // that all of this together takes a time that is linear in their number, however they are chosen.
    fn relieve(&mut self, alloc: Global, tries: usize) -> Result<(), AllocError>
        ensures { self.new ≡ self.old }
    {
        let many = self.all.len();
        if tries > CROWD && many.saturating_sub(self.settled) > many / 64 {
            self.settle(alloc)?;
        }
        Ok(())
    }

    /// Adds a name that has no number, behind the others.
    ///
    /// # Errors
    /// Where memory is wanting; the names stay.
    pub fn add(&mut self, alloc: Global, name: &[u8]) -> Result<(), AllocError>
        requires { spec.number_of self.old name.now ≡ None }
        ensures ok { OnOk result (self.new ≡ self.old ++ name.now ∷ []) }
        ensures err { OnErr result (self.new ≡ self.old) }
    {
        let tries = Cell::new(0);
        self.find_counting(name, &tries);
        self.relieve(alloc, tries.get())?;
        self.put(alloc, name)
    }

    /// The number of a name, which it is given where it has none. Where it was compared with too many on the way, they
    /// are hashed anew first.
    ///
    /// # Errors
    /// Where memory is wanting.
    pub fn number(&mut self, alloc: Global, name: &[u8]) -> Result<usize, AllocError>
        ensures number { IfOk result (λ n. spec.number_of self.new name.now ≡ Some n) }
        ensures grows { spec.Grows self.old self.new }
    {
        let tries = Cell::new(0);
        match self.find_counting(name, &tries) {
            Some(number) => Ok(number),
            None => {
                let number = self.all.len();
                self.relieve(alloc, tries.get())?;
                self.put(alloc, name)?;
                Ok(number)
            }
        }
    }
}

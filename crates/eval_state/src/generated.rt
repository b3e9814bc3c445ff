//! Variables of generated code, by their keys.

ghost use Rattle.std.specs.Prelude.{◌≡◌, ℕ, IfOk, OnOk};
ghost use Rattle.word32.specs.Space.{update};
ghost use Rattle.staged_meaning.specs.Expressions.{key_of};
ghost use Rattle.staged_meaning.specs.World.{with_generated};
ghost use Rattle.staged_meaning.specs.Meaning.{keys_at_entry};
ghost use Rattle.eval_state.specs.Kept.{generated_of, place_of};
ghost use Rattle.eval_state.specs.Run.{here, in_world, run_of, world};

use crate::state::{Generated, Machine, Setting};
use crate::variables::at;
use limits::program::MOST_ARGUMENTS;
use sqlite_items::Items;
use std::alloc::{AllocError, Global};

// What a function was passed, at the keys of its parameters.
#[tactic(auto, using(crate::proofs::Keys::entry))]
fn at_entry(arguments: &[u32], key: u32) -> u32
    ensures { result ≡ keys_at_entry arguments.now key }
{
    if key < MOST_ARGUMENTS {
        at(arguments, key)
    } else {
        0
    }
}

impl Generated {
    /// The same variables, once more.
    ///
    /// # Errors
    /// Where memory is wanting.
    pub fn again(&self, alloc: Global) -> Result<Generated, AllocError>
        ensures { IfOk result (λ g. g ≡ self.now) }
    {
        if self.arguments.is_empty() && self.values.is_empty() {
            return Ok(Generated {
                arguments: Items::new(alloc),
                values: Items::new(alloc),
            });
        }
        Ok(Generated {
            arguments: Items::from_slice(alloc, self.arguments.as_slice())?,
            values: Items::from_slice(alloc, self.values.as_slice())?,
        })
    }

    // Where a key stands among those that were set; their count, where it doesn't.
    fn place(&self, key: u32) -> usize
        ensures { result ≡ place_of self.now.values key }
    {
        let values = self.values.as_slice();
        let mut i = 0;
        while i < values.len() && values[i].key != key {
            i += 1;
        }
        i
    }

    /// The value of a key.
    pub fn get(&self, key: u32) -> u32
        ensures { result ≡ generated_of self.now key }
    {
        match self.values.get(self.place(key)) {
            Some(set) => set.value,
            None => at_entry(self.arguments.as_slice(), key),
        }
    }

    /// Sets a key.
    ///
    /// # Errors
    /// Where memory is wanting.
    pub fn set(&mut self, key: u32, v: u32) -> Result<(), AllocError>
        ensures { OnOk result ((k : ℕ) → generated_of self.new k ≡ update key v (generated_of self.old) k) }
    {
        let i = self.place(key);
        let set = Setting { key, value: v };
        if i < self.values.len() {
            self.values.set(i, set);
            return Ok(());
        }
        self.values.push(set)
    }
}

impl<'a> Machine<'a> {
    /// The value of the variable of generated code that a capture names.
    pub fn generated(&self, capture: u32) -> u32
        ensures { result ≡ (world (run_of self.now)).generated (key_of (here (run_of self.now)).captures capture) }
    {
        self.parts.body.generated.get(self.key(capture))
    }

    /// Sets the variable of generated code that a capture names.
    ///
    /// # Errors
    /// Where memory is wanting.
    pub fn set_generated(&mut self, capture: u32, v: u32) -> Result<(), AllocError>
        ensures { OnOk result (run_of self.new
            ≡ in_world (with_generated (key_of (here (run_of self.old)).captures capture) v (world (run_of self.old)))
            (run_of self.old)) }
    {
        let key = self.key(capture);
        self.parts.body.generated.set(key, v)
    }
}

//! The keys that were mentioned, with their registers.

ghost use Rattle.std.specs.Prelude.{◌≡◌, ◌<◌, ◌++◌, ◌∷◌, [], None, IfOk};
ghost use Rattle.icode_ir.specs.Build.{find};

use collections::SparseSet;
use limits::ops::KEYS;
use std::alloc::{AllocError, Global};
use std::marker::Model;

/// The keys that were mentioned, in that order, with their registers. It is emptied in constant time.
pub struct KeyTable {
    keys: SparseSet,
    registers: Vec<u32>,
}

impl Drop for KeyTable {
    fn drop(self) {
        let KeyTable {
            keys: _,
            registers: _,
        } = self;
    }
}

impl Model for KeyTable {
    ghost use Rattle.std.specs.Prelude.{List, ℕ, ◌≡◌, length};
    ghost use Rattle.icode_ir.specs.Tables.{with_registers};
    ghost use Rattle.limits.specs.declared.ops.TheConstants.{KEYS};

    ghost Value = { List (ℕ × ℕ) };

    ghost view = { λ t. with_registers t.registers.items t.keys.members };

    ghost invariant = { λ t. (t.keys.room ≡ KEYS) × (length t.registers.items ≡ KEYS) };
}

impl KeyTable {
    /// A table without keys, with room for the keys below 262,152.
    ///
    /// # Errors
    /// Where memory is wanting.
    pub fn new(alloc: Global) -> Result<Self, AllocError>
        ensures { IfOk result (λ t. t ≡ []) }
    {
        let keys = SparseSet::new(alloc, KEYS)?;
        let registers = vec![in alloc; 0; KEYS as usize]?;
        Ok(KeyTable { keys, registers })
    }

    /// Forgets all keys, in constant time.
    pub fn clear(&mut self)
        ensures { self.new ≡ [] }
    {
        self.keys.clear();
    }

    /// The register of the key, if it was mentioned.
    pub fn find(&self, key: u32) -> Option<u32>
        requires { key < KEYS }
        ensures { result ≡ find key self.now }
    {
        if self.keys.contains(key) {
            Some(self.registers[key as usize])
        } else {
            None
        }
    }

    /// Adds a key that wasn't mentioned.
    pub fn insert(&mut self, key: u32, register: u32)
        requires key { key < KEYS }
        requires first { find key self.old ≡ None }
        ensures { self.new ≡ self.old ++ (key, register) ∷ [] }
    {
        self.registers[key as usize] = register;
        self.keys.insert(key);
    }
}

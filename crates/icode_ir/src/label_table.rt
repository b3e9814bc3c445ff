//! Which labels were jumped to and which stand, and how many of the former aren't among the latter.

ghost use Rattle.std.specs.Prelude.{◌≡◌, ◌<◌, ◌++◌, ◌∷◌, [], false, IfOk, length};
ghost use Rattle.collections.specs.Members.{is_in, with_member};
ghost use Rattle.icode_ir.specs.Tables.{unplaced_count};

use collections::SparseSet;
use limits::ops::MOST_LABELS;
use std::alloc::{AllocError, Global};
use std::marker::Model;

/// The labels that were jumped to and those that stand. It is emptied in constant time.
pub struct LabelTable {
    jumped: SparseSet,
    placed: SparseSet,
    unplaced: u32,
}

impl Drop for LabelTable {
    fn drop(self) {
        let LabelTable {
            jumped: _,
            placed: _,
            unplaced: _,
        } = self;
    }
}

impl Model for LabelTable {
    ghost use Rattle.icode_ir.specs.Tables.{Marks, IsLabelTable};

    ghost Value = { Marks };

    ghost view = { λ t. record { jumped = t.jumped.members; placed = t.placed.members } };

    ghost invariant = { λ t. IsLabelTable t.jumped t.placed t.unplaced };
}

impl LabelTable {
    /// A table without labels, with room for the 196,608 that a builder may have.
    ///
    /// # Errors
    /// Where memory is wanting.
    pub fn new(alloc: Global) -> Result<Self, AllocError>
        ensures { IfOk result (λ t. t ≡ record { jumped = []; placed = [] }) }
    {
        let jumped = SparseSet::new(alloc, MOST_LABELS)?;
        let placed = SparseSet::new(alloc, MOST_LABELS)?;
        Ok(LabelTable {
            jumped,
            placed,
            unplaced: 0,
        })
    }

    /// Forgets all labels, in constant time.
    pub fn clear(&mut self)
        ensures { self.new ≡ record { jumped = []; placed = [] } }
    {
        self.jumped.clear();
        self.placed.clear();
        self.unplaced = 0;
    }

    /// Whether the label stands.
    pub fn is_placed(&self, label: u32) -> bool
        requires { label < MOST_LABELS }
        ensures { result ≡ is_in label self.now.placed }
    {
        self.placed.contains(label)
    }

    /// How many labels were jumped to and don't stand.
    pub fn unplaced(&self) -> u32
        ensures { result ≡ unplaced_count self.now }
    {
        self.unplaced
    }

    /// The label was jumped to.
    pub fn jump(&mut self, label: u32)
        requires label { label < MOST_LABELS }
        requires few { length self.old.jumped < 4294967295 }
        ensures { self.new ≡ record self.old { jumped = with_member label self.old.jumped } }
    {
        if !self.jumped.contains(label) {
            self.jump_first(label);
        }
    }

    // The label was jumped to for the first time.
    fn jump_first(&mut self, label: u32)
        requires label { label < MOST_LABELS }
        requires few { length self.old.jumped < 4294967295 }
        requires first { is_in label self.old.jumped ≡ false }
        ensures { self.new ≡ record self.old { jumped = self.old.jumped ++ label ∷ [] } }
    {
        let placed = self.placed.contains(label);
        self.jumped.insert(label);
        self.unplaced = if placed {
            self.unplaced
        } else {
            self.unplaced + 1
        };
    }

    /// The label stands from now on.
    pub fn place(&mut self, label: u32)
        requires label { label < MOST_LABELS }
        requires first { is_in label self.old.placed ≡ false }
        ensures { self.new ≡ record self.old { placed = self.old.placed ++ label ∷ [] } }
    {
        let jumped = self.jumped.contains(label);
        self.placed.insert(label);
        self.unplaced = if jumped {
            self.unplaced - 1
        } else {
            self.unplaced
        };
    }
}

//! The cases of a switch.

ghost use Rattle.std.specs.Prelude.{◌≡◌, IfOk, OnOk, not, if◌then◌else◌, ◌++◌, ◌∷◌, []};
ghost use Rattle.check_rules.specs.Labels as spec;
ghost use Rattle.check_rules.specs.Members.{is_member};
ghost use Rattle.check_rules.specs.Walks.{Reads};

use collections::push_in_room;
use std::alloc::{AllocError, Global};
use std::collections::BTreeSet;
use std::marker::Model;
use tick_tree::{Deny, FaultKind, refused};

/// The values of the cases of a switch, in the order of the text. Contracts see them as a list; a value is found among
/// them in a B-tree, so no choice of values makes that longer.
pub struct Values {
    all: Vec<u32>,
    found: BTreeSet<u32>,
}

impl Drop for Values {
    fn drop(self) {
        let Values { all: _, found: _ } = self;
    }
}

impl Model for Values {
    ghost use Rattle.std.specs.Prelude.{ℕ, List};
    ghost use Rattle.check_rules.specs.Members.{HasAll};

    ghost Value = { List ℕ };

    ghost view = { λ s. s.all.items };

    ghost invariant = { λ s. HasAll s.found.keys s.all.items };
}

impl Values {
    /// No values.
    pub fn new(alloc: Global) -> Values
        ensures { result ≡ [] }
    {
        Values {
            all: Vec::new(alloc),
            found: BTreeSet::new(alloc),
        }
    }

    /// Adds a value that isn't there; whether it was added.
    pub fn add(&mut self, value: u32) -> Result<bool, AllocError>
        ensures added { IfOk result (λ is_new. is_new ≡ not (is_member value self.old)) }
        ensures after { OnOk result
            (self.new ≡ (if is_member value self.old then self.old else self.old ++ value ∷ [])) }
    {
        self.all.reserve(1)?;
        let is_new = self.found.insert(value)?;
        if is_new {
            push_in_room(&mut self.all, value);
        }
        Ok(is_new)
    }
}

/// The labels of a switch so far. After an error they are not to be used any more.
pub struct Labels {
    /// The values of its cases.
    pub values: Values,
    /// Whether it has a `default`.
    pub has_default: bool,
}

impl Drop for Labels {
    fn drop(self) {
        let Labels {
            values: _,
            has_default: _,
        } = self;
    }
}

impl Labels {
    /// No labels.
    pub fn new(alloc: Global) -> Labels
        ensures { result ≡ spec.new }
    {
        Labels {
            values: Values::new(alloc),
            has_default: false,
        }
    }

    /// The label of a `case`. Refused where the switch has its value already: DuplicateCase.
    #[tactic(auto, unfolding(crate::specs::Labels::case))]
    pub fn case(&mut self, line: u32, value: u32) -> Result<(), Deny>
        ensures { Reads (spec.case line value self.old) result self.new }
    {
        if self.values.add(value)? {
            Ok(())
        } else {
            refused(FaultKind::DuplicateCase, line)
        }
    }

    /// The label of a `default`. Refused where the switch has one already: DuplicateCase.
    #[tactic(auto, unfolding(crate::specs::Labels::default))]
    pub fn default(&mut self, line: u32) -> Result<(), Deny>
        ensures { Reads (spec.default line self.old) result self.new }
    {
        if self.has_default {
            return refused(FaultKind::DuplicateCase, line);
        }
        self.has_default = true;
        Ok(())
    }
}

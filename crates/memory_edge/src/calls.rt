//! A count of calls, and the numbers of those that fail.
ghost use Rattle.std.specs.Prelude.{◌≡◌, IfOk};
ghost use Rattle.memory_edge.specs.Memory.{CallPlan, planned, one_more, next_fails};

use std::alloc::{AllocError, Global};
use std::marker::Model;

/// Which calls of a form in memory fail. Calls are numbered from 0, over all calls of the form's trait.
#[derive(Drop)]
pub struct Calls {
    number: u64,
    fails: Vec<u64>,
    faults: u64,
}

impl Model for Calls {
    ghost use Rattle.memory_edge.specs.Memory.{CallPlan};

    ghost Value = { CallPlan };

    ghost view = { λ a. record { number = a.number; fails = a.fails.items; faults = a.faults } };
}

impl Calls {
    /// No call has come yet, and those with these numbers will fail.
    pub fn new(alloc: Global, fails: &[u64]) -> Result<Calls, AllocError>
        ensures { IfOk result (λ c. c ≡ planned fails.now) }
    {
        Ok(Calls {
            number: 0,
            fails: fails.to_vec(alloc)?,
            faults: 0,
        })
    }

    /// Counts a call, and says whether it is one that fails.
    pub fn next(&mut self) -> bool
        ensures answer { result ≡ next_fails self.old }
        ensures counted { self.new ≡ record self.old { number = one_more self.old.number } }
    {
        let number = self.number;
        self.number = number.saturating_add(1);
        self.fails.iter().any(|n| *n == number)
    }

    /// Counts a fault.
    pub fn count_fault(&mut self)
        ensures { self.new ≡ record self.old { faults = one_more self.old.faults } }
    {
        self.faults = self.faults.saturating_add(1);
    }
}

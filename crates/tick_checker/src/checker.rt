//! The typed tree of a text.

ghost use Rattle.check_globals.specs.Program as spec;
ghost use Rattle.tick_tree.specs.Faults.{Checks};

use crate::walks::check_parts;
use std::alloc::Global;
use tick_tree::{Deny, Tree};
use wellformed::Typed;

/// The typed tree of a program, or its first static fault from Undeclared on.
#[tactic(auto, using(wf_programs::proofs::Sealed::sealed))]
pub fn check(alloc: Global, tree: &Tree) -> Result<Typed, Deny>
    ensures { Checks result (spec.checked tree.now) }
{
    tree.keeps_law();
    match check_parts(alloc, tree) {
        Ok(parts) => Ok(Typed::new(parts)),
        Err(why) => Err(why),
    }
}

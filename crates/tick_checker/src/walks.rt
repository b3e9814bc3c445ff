//! A whole program: the two walks, and what is checked after them. Where the first one found nothing that the second
//! would know of it, there is no second.

// What is owned is dropped by hand before an error goes on. Over a `?` its drop would be written out at each exit,
// variant by variant (CONTRIBUTING.md, "How to keep proofs cheap", 3). The order of the drops means nothing.

ghost use Rattle.std.specs.Prelude.{◌≡◌, List, Ok};
ghost use Rattle.check_rules.specs.declared.state.State.{State as Known};
ghost use Rattle.check_rules.specs.Starts.{start};
ghost use Rattle.check_globals.specs.Program as spec;
ghost use Rattle.tick_tree.specs.Faults.{Checks};

use crate::tree_walk::TreeWalk;
use check_globals::finished;
use check_items::{second_walk, walk};
use check_rules::State;
use std::alloc::Global;
use tick_tree::{Deny, External, Tree};
use typed_tree::TypedParts;
use walk_again::is_settled;

// What comes after a first walk that began with the library's names alone.
#[tactic(auto, using(walk_again::proofs::Programs::enough))]
fn after_first(alloc: Global, state: State, list: &[External]) -> Result<TypedParts, Deny>
    ensures { (s : Known) → start ≡ Ok (tt, s) → spec.walk list.now s ≡ Ok (tt, state) →
        Checks result (spec.walk_again list.now state) }
{
    if is_settled(&state) {
        finished(alloc, state)
    } else {
        second_walk::<TreeWalk>(alloc, state, list)
    }
}

/// The parts of the typed program of a tree, or its first static fault from Undeclared on.
#[tactic(auto, unfolding(check_globals::specs::Program::checked))]
pub fn check_parts(alloc: Global, tree: &Tree) -> Result<TypedParts, Deny>
    ensures { Checks result (spec.checked tree.now) }
{
    let mut state = check_names::start(alloc)?;
    match walk::<TreeWalk>(alloc, &mut state, tree.items()) {
        Ok(()) => after_first(alloc, state, tree.items()),
        Err(why) => {
            drop(state);
            Err(why)
        }
    }
}

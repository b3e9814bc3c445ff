//! The second walk over a program, by what the first one found.

// What is owned is dropped by hand before an error goes on. Over a `?` its drop would be written out at each exit,
// variant by variant (CONTRIBUTING.md, "How to keep proofs cheap", 3). The order of the drops means nothing.

ghost use Rattle.check_globals.specs.Program as spec;
ghost use Rattle.tick_tree.specs.Faults.{Checks};

use crate::part_walk::PartWalk;
use crate::program::walk;
use check_globals::finished;
use check_rules::State;
use std::alloc::Global;
use tick_tree::{Deny, External};
use typed_tree::TypedParts;

/// The second walk over the items of a program, and what is checked after it.
///
/// # Errors
/// `Refused` exactly for the first static fault of these, and `NoMemory` where memory was not found.
pub fn second_walk<W: PartWalk>(
    alloc: Global,
    state: State,
    list: &[External],
) -> Result<TypedParts, Deny>
    ensures { Checks result (spec.walk_again list.now state) }
{
    let mut state = check_names::start_again(alloc, state)?;
    match walk::<W>(alloc, &mut state, list) {
        Ok(()) => finished(alloc, state),
        Err(why) => {
            drop(state);
            Err(why)
        }
    }
}

//! The walk over the items of a program, the first and the second. What the parts of an item are it asks through a
//! trait, `PartWalk`, and so is proved beside the walk over these: `tick_checker` puts that there.
#![tactic(auto)]

mod part_walk;
mod program;
mod second;

pub use part_walk::PartWalk;
pub use program::walk;
pub use second::second_walk;

//! The image of a program: the start, the blocks of the run-time routines, the words and rows of its functions, and the
//! words of the functions that generate the code of its ticks; and the laws of it.
#![tactic(auto)]

mod laws;
mod start;

pub use laws::images_keep_rules;
pub use start::write_start;

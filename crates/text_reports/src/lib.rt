//! What trials print of texts: the tokens of each, its first static fault, of its ticks the captures, and the ops of
//! its functions; and the run-time routines, which are the same for all.
//!
//! Each report is of what a text was made into, and none reads a tree or checks one: so they are proved beside the
//! parser and the checker, and `trial_texts` puts these in front of them.
#![tactic(auto)]

pub mod captured;
pub mod cases;
mod denied;
pub mod faults;
pub mod lexed;
pub mod lowered;
pub mod routines;
mod words;

pub use denied::report_deny;
pub use words::{print_words, starts};

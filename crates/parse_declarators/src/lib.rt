//! Declarators, read from tokens. Each production takes the number of levels that may still open.
#![tactic(auto)]

mod declarators;
mod lists;

pub use declarators::declarator;
pub use lists::{declares_function, prefixes};

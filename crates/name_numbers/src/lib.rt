//! Names and their numbers: each has the place at which it was first named.
#![tactic(auto)]

mod keys;
mod numbers;
mod seeded;

pub use numbers::Names;

//! Evaluates a program within so many units of work: what comes of it is its meaning.
#![tactic(auto)]

mod evaluated;
mod run;
mod step;

pub use evaluated::{Evaluated, evaluate};

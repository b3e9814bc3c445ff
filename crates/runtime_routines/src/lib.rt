//! The words of the run-time routines, each in its block of 64 words.
#![tactic(auto)]

mod blocks;
mod closures;
mod compiling;
mod numbers;

pub use blocks::routines;

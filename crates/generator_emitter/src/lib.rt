//! The functions that generate the code of ticks, as words.
#![tactic(auto)]

mod generator;

pub use generator::words;

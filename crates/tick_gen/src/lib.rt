//! Source texts of any size to measure with: a program that makes so many functions as it runs and calls each of them
//! a thousand times.
#![tactic(auto)]

mod generator;

pub use generator::generate;

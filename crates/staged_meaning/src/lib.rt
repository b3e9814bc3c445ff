//! The meaning of programs: typed trees, their sizes, and an evaluation with units of work as fuel. These are
//! definitions; there is no code to run here.
#![tactic(auto)]

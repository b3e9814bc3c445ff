//! Evaluates expressions: how one begins, and how what was pending on a value goes on. What is still to come stays the
//! same at each of these steps.
#![tactic(auto)]

mod arguments;
mod begin;
mod going_on;
mod leaves;
mod memory;
mod next;
mod operands;
mod operators;
mod results;

pub use begin::eval;
pub use going_on::value;

//! Evaluates statements: how one begins, and how what was pending on a value or on the end of a statement goes on. What
//! is still to come stays the same at each of these steps.
#![tactic(auto)]

mod begin;
mod going_on;
mod loops;
mod next;
mod parts;
mod ran;
mod started;
mod switches;

pub use begin::{exec, run};
pub use going_on::{flow, value};

//! What a run does with functions and specifications: calls of both kinds, code that is spliced in, specifications of
//! ticks, and functions that are compiled from them. Each call says how the run changes that the state stands for, with
//! its traps and limits in the meaning's order.
#![tactic(auto)]

mod calls;
mod specifications;

pub use calls::{call, call_number, splice};
pub use specifications::{compile, specify_local, specify_parameter, specify_tick};

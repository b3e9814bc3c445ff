//! The rules of calls and returns, and of the nodes that specify code.
#![tactic(auto)]

mod calls;
mod stages;

pub use calls::{call, called, library, returned, tick_returned};
pub use stages::{compile, dollar, local, parameter, specification};

//! Calls that are evaluated on the host's stack, up to a depth. What waits for a part is kept where the part can't go
//! on, so that the evaluation goes on step by step from where it stands.
#![tactic(auto)]

mod calls;
mod came;
mod expressions;
mod statements;

pub use expressions::direct;

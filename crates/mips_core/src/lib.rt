//! The machine's registers, memory and control: every instruction but SYSCALL, with all hazards.
#![tactic(auto)]

mod accesses;
mod arithmetic;
mod branches;
mod control;
mod core_state;
mod course;
mod dispatch;
mod fetching;
mod halt;
mod operations;
mod pc;
mod rest;
mod services;
mod table;

pub use core_state::Core;
pub use halt::Halt;

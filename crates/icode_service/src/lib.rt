//! The services by which code that runs makes code: a function is begun, its ops are built one by one, it is finished
//! into words of the arena, the words are flushed, and the function is published.
//!
//! A service is refused for the first reason that holds, and changes nothing then. The definitions stand in the crate
//! `mips_model`.
#![tactic(auto)]

mod compile;
mod service;
mod table;
mod tables;
mod words;

pub use mips_model::BadService;
pub use service::Service;
pub use table::{flush, publish};

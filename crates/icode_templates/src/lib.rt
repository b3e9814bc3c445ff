//! The instructions of each op of the intermediate code. As definitions also those of a whole function, which the crate
//! `icode_expand` gives: its prologue, the templates of its ops, and its epilogue.
#![tactic(auto)]

mod control;
mod memory;
mod operands;
mod operators;
mod services;
mod snippet;
mod spot;
mod template;

pub use snippet::Snippet;
pub use spot::Layout;

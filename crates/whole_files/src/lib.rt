//! Whole files and the whole input, which may have so many bytes and no more.
#![tactic(auto)]

mod file;
mod input;

pub use file::{Loaded, load};
pub use input::{InputRead, read_input};

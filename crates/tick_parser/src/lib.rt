//! Reads the syntax tree of a text from its tokens.
#![tactic(auto)]

mod items;
mod knot;
mod trees;

pub use trees::{parse, parsed_are_texts};

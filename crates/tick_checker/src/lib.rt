//! The checker: from the syntax tree of a text to its typed tree, or to its first static fault. The law on accepted
//! texts, which the typed tree keeps in its type, is that of `wf_programs`.
#![tactic(auto)]

mod checker;
mod tree_walk;
mod walks;

pub use checker::check;

//! Every limit and every charge of the product, each under one name, with its unit and the rule that it comes from.
//! There is no code here. Code and definitions cite these names, so a limit that changes changes here alone. The
//! lengths of the machine's regions, some of which are limits too, stand with their addresses in the map of `word32`.
#![tactic(auto)]

pub mod cost;
pub mod ops;
pub mod program;
pub mod run;
pub mod text;

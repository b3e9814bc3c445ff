//! What the checker's walk over a tree keeps, part by part: the invariant of the walk, types, expressions, statements,
//! the induction over the tree, and what ticks capture. These are laws on definitions; there is no code to run here.
#![tactic(auto)]

mod laws;

pub use laws::{
    blocks_are_good, constants_are_fixed, constants_are_plain, declarations_are_good,
    expressions_do, expressions_keep, lists_are_good, plain_steps, statements_are_good,
    strings_are_plain, suffixes_are_good, walks_are_fixed, walks_name,
};

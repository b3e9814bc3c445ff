//! The rules of nodes over at most three values, of those that change a place and of those that take its address: from
//! what the children are to what the node is, or to the rule of the lowest number that it breaks. Their definitions
//! stand in `check_operands`; calls and the nodes that specify code are in `check_calls`.
#![tactic(auto)]

mod literals;
mod operators;
mod places;
mod unary;

pub use literals::{character, number, size, string};
pub use operators::{binary, built, choice, combine, index, scaled};
pub use places::{address, assign, modify, post, stepped};
pub use unary::{cast, comma, condition, dereferenced, negated, on_integer, plus, switched};

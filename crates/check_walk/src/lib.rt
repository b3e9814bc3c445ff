//! The walk of the checker over the syntax tree: expressions, types, declarations in blocks and statements. One
//! function walks each kind of node: it walks the parts, and what the rule of the node then says stands in the crates
//! below.
#![tactic(auto)]

mod declarations;
mod expressions;
mod statements;
mod types;

pub use expressions::expression;
pub use statements::items;
pub use types::declarator;

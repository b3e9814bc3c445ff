//! The rules of the productions of expressions: of primary ones and calls, of those with operators, of ticks and of
//! productions with a type name. From what the parts are to what the node is, with what the walk knows then, and where
//! specifications may be made and handled.
#![tactic(auto)]

mod calls;
mod entries;
mod leaves;
mod named;
mod nodes;
mod pairs;
mod staged;

pub use calls::{argument, call_node, library_of};
pub use entries::{staging_entry, tick_entry, unary_entry};
pub use leaves::{character_leaf, number_leaf, string_leaf};
pub use named::{Naming, Typing, naming_entry, naming_node, typing_entry, typing_node};
pub use nodes::{choice_node, post_node, unary_node};
pub use pairs::{Pair, pair_node};
pub use staged::{compile_node, tick_around, tick_block, tick_entered, tick_expression};

//! The rules of statements, of declarations in a block and of their initializers: from what the parts are to what the
//! statement is, and to what is declared, its length and the nodes of its first value.
#![tactic(auto)]

mod declarations;
mod initializers;
mod lengths;
mod lists;
mod statements;
mod steps;
mod tested;

pub use declarations::{declare, declare_parameter, declared_in, entered, length_of};
pub use initializers::{element, from_list, from_value, inner_of, is_text};
pub use lengths::with_start;
pub use lists::{appended, pushed, with_effect};
pub use statements::{
    alone, body, break_entry, case_entry, case_node, continue_entry, default_node, do_node,
    empty_node, for_node, if_else_node, inside, looped, one, return_node, switch_entered,
    switch_node, switched,
};
pub use steps::{with_step, with_type};
pub use tested::{Tested, tested_around, tested_node};

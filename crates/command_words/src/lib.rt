//! The words of a command line: which command they give, with the operands and options behind its name, or which word is
//! the first that can't continue one.
#![tactic(auto)]

mod arguments;
mod command;
mod words;

pub use arguments::asks_counts;
pub use command::Command;
pub use words::command_of;

/// The most digits of a number.
pub const MOST_DIGITS: usize = 19;

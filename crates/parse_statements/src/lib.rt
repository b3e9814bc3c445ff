//! Declarations, statements and whole programs, read from tokens. Each production takes the number of levels that may
//! still open.
#![tactic(auto)]

mod declarations;
mod first_words;
mod programs;
mod statements;

pub use programs::program;
pub use statements::stmt;

//! The grammar of the language: its definitions, and the steps that every production is made of.
#![tactic(auto)]

mod bases;
mod ends;
mod grammar;
mod item;
mod kind;
mod levels;
mod stop;
mod tokens;

pub use bases::{base, is_base, is_void};
pub use ends::ended;
pub use grammar::{Deeper, Grammar, Mode, Part, Postfix};
pub use item::{Bytes, Item};
pub use kind::{BaseWord, Kind, Mark, Word};
pub use levels::{descend, enter, enter_paren};
pub use stop::Stop;
pub use tokens::Tokens;

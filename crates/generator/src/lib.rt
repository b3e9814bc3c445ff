//! The function that generates the code of a tick, from the tick's tree: the pieces of its lowering give the words.
#![tactic(auto)]

mod tick;

pub use tick::{Room, tick_words};

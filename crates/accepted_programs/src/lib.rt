//! The function main of each accepted program, and that the backend makes the image of each.
#![tactic(auto)]

mod program;

pub use program::{main_of, programs_meet_backend};

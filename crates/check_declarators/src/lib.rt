//! From the words and signs of a declaration to its type, or to the first rule on types that it breaks.
#![tactic(auto)]

mod making;
mod steps;
mod words;

pub use making::declared_type;
pub use steps::{Length, Role, Step, fill_length, push_prefixes};
pub use words::base_of;

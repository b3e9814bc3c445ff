//! How a call of `tick` ended and what it did, and what is said of it: the exit status, and a line on standard error.
#![tactic(auto)]

mod counts;
mod ended;
mod outcome;
mod report;

pub use counts::{counts_end, counts_front};
pub use ended::Ended;
pub use outcome::{Outcome, status};
pub use report::line_of;

//! The captures of a tick: what its body names of what it captures as it is evaluated.
#![tactic(auto)]

mod capture;
mod kinds;
mod walk;

pub use capture::{Capture, captures};

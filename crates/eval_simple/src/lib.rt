//! Expressions that are evaluated at once, with nothing pending: those that have no call in them and aren't deep. It
//! is for the evaluator's steps, which take what stands on such an expression together.
#![tactic(auto)]

mod effects;
mod values;

pub use effects::at_once;
pub use values::simple;

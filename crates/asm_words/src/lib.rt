//! The words of assembly text: what a word says as a number, as a register and as the name of an operation.
//!
//! A word is a run of bytes without blanks and punctuation. Each function answers exactly which words have its form,
//! and a number tells which fields of an instruction it fits.
#![tactic(auto)]

mod name;
mod number;
mod operation;
mod pairs;
mod register;

pub use name::is_name;
pub use number::{Base, Number, number_of};
pub use operation::{Operation, operation_of};
pub use pairs::Pairs;
pub use register::register_of;

//! The two passes of the assembler over a text.
//!
//! The first finds its labels and counts its words, and the second takes what its lines give to an image, or the first
//! fault.
#![tactic(auto)]

mod cut;
mod fault;
mod item;
mod label;
mod parts;
mod position;
mod survey;
mod values;

pub use fault::{AsmDeny, AsmFault, AsmFaultKind};
pub use parts::{Parts, gathered};

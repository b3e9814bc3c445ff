//! The lines of assembly text: what a line says, before any label has an address.
//!
//! A line has an optional label and an optional statement: a directive, or an instruction with its operands as they
//! are written. Each line is read exactly, and None stands for a line of another form.
#![tactic(auto)]

mod draft;
mod line;
mod operand;
mod piece;
mod word;

pub use draft::{Draft, drafted};
pub use line::{Line, Statement, line_of};
pub use operand::{Operands, Target, operands_of, target_of};
pub use piece::{Class, Piece, pieces};
pub use word::Word;

//! The builder of the intermediate code (ICODE). It takes memory only as it is made.
//!
//! And the numbers of builder ops and of their arguments (`op`, `code`): how code that runs names the op that it wants
//! to be built, and which op that is.
#![tactic(auto)]

mod body;
mod build_op;
mod builder;
mod code_laws;
mod decoder;
mod draft;
mod emit;
mod encoder;
mod key_table;
mod label_table;
mod width;

pub use body::Body;
pub use build_op::{BuildFault, BuildOp, NotEmpty};
pub use builder::{Builder, Phase};
pub use code_laws::{codes_are_read_back, ops_are_served};
pub use decoder::op;
pub use encoder::{code, first_argument, second_argument};

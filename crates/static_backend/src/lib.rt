//! From a typed program to its image: the ops of the intermediate code of each function, the places of their registers
//! by linear scan, their expansion, and the words in front of them.
#![tactic(auto)]

mod backend;
mod code;
mod functions;
mod generated;
mod lowered;
mod places;
mod plan;
mod tables;
mod text;

pub use backend::image;
pub use code::build_ops;

//! Types: what they are made of, which of them are the same, and their copies.
#![tactic(auto)]

mod conversions;
mod copies;
mod ctype;

pub use conversions::{promoted, same_ctypes, same_layer};
pub use copies::{copy_ctype, copy_layers};
pub use ctype::{Base, CType, Integer, Layer};

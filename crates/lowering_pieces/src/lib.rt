//! The list of pieces that a walk over a tree makes: what each of its steps adds, as code and as a definition
//! (`specs/Steps`), and that the pieces of a whole tree are those of its lowering (`proofs/Ended`). The walk itself is
//! in `tick_lower`.
#![tactic(auto)]

mod body;
mod pieces;
pub mod places;

pub use body::{begin, end};
pub use pieces::{Exits, Join, Pieces, Selector, Turn};

//! The lowering as a definition: the builder's ops of each node of the typed tree. What is proved of it stands in
//! `tick_lower_proof`, and the code in `tick_lower`.
#![tactic(auto)]

mod piece;

pub use piece::Piece;

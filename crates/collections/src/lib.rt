//! Data structures over numbers in vectors, which take all their memory as they are made: pushes in room, sparse sets
//! and buckets. Rows of ids in order stand in `linked_row`.
#![tactic(auto)]

mod buckets;
mod room;
mod sparse_set;

pub use buckets::Buckets;
pub use room::{extend_in_room, push_in_room};
pub use sparse_set::SparseSet;

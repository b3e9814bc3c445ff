//! Types whose copies share their layers: how they are kept, which of them are the same, and their sizes.
#![tactic(auto)]

mod code;
mod extents;
mod layers;
mod parameters;
mod row;
mod shared;
mod sizes;

pub use layers::{Layers, is_pointer, same_shared};
pub use parameters::{Parameter, Parameters};
pub use shared::{TypeRef, copy};
pub use sizes::{limited_size, pointed_size, size_of};

//! The outside in memory: a source, a sink and a store that hold their bytes, tell them, and fail exactly at the calls
//! that they were made to fail at. Tests and trials stand on these forms, and nothing of the product does.
#![tactic(auto)]

mod calls;
mod memory_sink;
mod memory_source;
mod memory_store;

pub use memory_sink::MemSink;
pub use memory_source::MemSource;
pub use memory_store::MemStore;

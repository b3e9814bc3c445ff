//! The outside of the product: a source, a sink and a store of files as traits, the adapters over the real edge, and
//! the kinds of endings that every layer speaks of. Their forms in memory are in `memory_edge`.
//!
//! Each trait has two meanings. A count of faults never falls, and a call answers `Failed` only where the
//! count rose. What the object holds is told as an option: a form in memory tells it, and an adapter what its
//! reader or writer tells, which is nothing at the standard streams and at files.
//! All output of the product goes through `write_whole`, and the machine reads through `read_byte`.
#![tactic(auto)]

mod ending;
mod fault;
mod file_store;
mod sink;
mod source;
mod std_streams;
mod store;
mod whole;

pub use ending::{Counts, Ending, MachineKind, TrapKind};
pub use fault::{Failed, LoadFault, SaveFault};
pub use file_store::FileStore;
pub use sink::Sink;
pub use source::Source;
pub use std_streams::{StdSink, StdSource};
pub use store::Store;
pub use whole::{read_byte, write_whole};

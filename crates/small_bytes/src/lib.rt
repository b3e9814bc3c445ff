//! Bytes that are made once, of which a few take no memory of their own.
#![tactic(auto)]

mod bytes;

pub use bytes::SmallBytes;

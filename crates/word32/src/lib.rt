//! 32-bit words: arithmetic that wraps, divisions, bytes in memory, and the addresses of the memory map.
#![tactic(auto)]

mod bytes;
mod division;
mod extend;
pub mod map;
mod part;
mod width;

pub use bytes::{be_read, be_write};
pub use division::{DivFault, div_s, div_u};
pub use extend::{sext8, sext16};
pub use part::{access_laws, is_aligned, loaded_part, stored_part};
pub use width::Width;

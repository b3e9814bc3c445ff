//! The numbers of the format.

/// The first word of an image file: the letters TICK.
pub const MAGIC: u32 = 0x5449_434b;
/// The version.
pub const VERSION: u32 = 1;
/// The bytes of the six words before the parts.
pub const HEADER_BYTES: usize = 24;

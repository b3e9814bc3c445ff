//! What a run of an image costs at most, in instructions. All of it is this project's own rule.

/// The most instructions of a unit of work.
pub const UNIT_INSTRUCTIONS: u64 = 512;

/// The most instructions beside those of the units: for the start, and for what follows the last unit.
pub const START_INSTRUCTIONS: u64 = 4_096;

/// Those of them that the ops of the functions may take. The rest is left to the start.
pub const START_OPS_INSTRUCTIONS: u64 = 4_000;

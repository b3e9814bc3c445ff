//! Limits and charges of a run. All of them are this project's own rules.

/// The bytes of stack that are charged for a call beside its nodes. They hold the arguments and the registers that a
/// call keeps, so the slots of virtual registers begin behind them.
pub const STACK_OF_A_CALL: u32 = 128;

/// The bytes of stack that are charged for a call for each node of its function's syntax.
pub const STACK_OF_A_NODE: u32 = 48;

/// The bytes of a closure beside its captures.
pub const CLOSURE_HEAD_BYTES: u32 = 16;

/// The bytes of a closure for each capture.
pub const CAPTURE_BYTES: u32 = 4;

/// The most instructions that the command line may ask of a run: 2 to the 40.
pub const MOST_STEPS: u64 = 1_099_511_627_776;

/// The instructions that a run takes at most where the command line doesn't say.
pub const DEFAULT_STEPS: u64 = 1_000_000_000;

/// The most bytes that the code of a function takes for its frame, and for its frame objects: a gigabyte each, so that
/// sums of addresses and frames stay within 32 bits.
pub const MOST_FRAME_BYTES: u32 = 1_073_741_824;

//! Limits of the ops of one function in ICODE, and of the words that they become. All of them are this project's own
//! rules.

/// The most ops of a function that is built, without the one that ends its list: twelve for each node of `SIZE_LIMIT`.
/// It bounds operands, bodies, variables and labels too.
pub const OP_LIMIT: usize = 196_608;

/// The most ops of a finished list: `OP_LIMIT`, and one that ends it.
pub const MOST_OPS: u32 = OP_LIMIT as u32 + 1;

/// The most labels of a function.
pub const MOST_LABELS: u32 = OP_LIMIT as u32;

/// The most virtual registers of a function: one for each op, and one for each variable.
pub const MOST_REGISTERS: u32 = 2 * OP_LIMIT as u32;

/// The most slots of a frame, a word each, that templates address: the number of a virtual register that they are given
/// is below it. It is over `MOST_REGISTERS`.
pub const MOST_SLOTS: u32 = 1_048_576;

/// The most captured words of a closure that an op addresses: the index of one, counted from 0, is below it. It is over
/// `SIZE_LIMIT`, so no tick has as many.
pub const MOST_CAPTURES: u32 = 32_768;

/// The keys of captured values: one for each parameter of a function, and one for each specification. A key is below
/// it.
pub const KEYS: u32 = 262_152;

/// The most words that one op becomes.
pub const OP_WORDS: usize = 16;

/// The most words of a function's prologue and epilogue together.
pub const FRAME_WORDS: usize = 64;

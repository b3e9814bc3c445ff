//! Limits of a program, behind which it is TooLarge or a type is refused, and the charges that they count. All of them
//! are this project's own rules.

/// The most bytes that a type, and so an object, may have: 4 MB.
pub const MAX_SIZE: u32 = 4_194_304;

/// A byte over `MAX_SIZE`: where sizes of types that are too large stop growing.
pub const SIZE_TOP: u64 = MAX_SIZE as u64 + 1;

/// The most parameters of a function, and so the most arguments of a call.
pub const MOST_ARGUMENTS: u32 = 8;

/// The most nodes of a function's or a tick's syntax, and of a specification.
pub const SIZE_LIMIT: u32 = 16_384;

/// Where counts of nodes stop growing: over `SIZE_LIMIT`, with which they are compared.
pub const NODE_TOP: u32 = 65_536;

/// The most bytes of frame objects that one function may have, and that all active calls may have together: 4 MB. A
/// call that needs more traps as FrameLimit.
pub const FRAME_OBJECT_BYTES: u32 = 4_194_304;

/// A word over `FRAME_OBJECT_BYTES` and over the most bytes of globals: where places of objects stop growing.
pub const PLACE_TOP: u64 = FRAME_OBJECT_BYTES as u64 + 4;

/// The words of text or arena that are charged for each node of a function's or a tick's syntax.
pub const WORDS_OF_A_NODE: u64 = 192;

/// The words of text or arena that are charged for a function or a tick beside its nodes.
pub const WORDS_OF_A_BODY: u64 = 64;

/// The words of text in front of the first function: the start and the run-time routines.
pub const FRONT_WORDS: usize = 1_024;

/// The most words of text that are charged for a program. They are the words of the region, `TEXT_WORDS` of the map.
pub const CHARGE_LIMIT: u64 = 15_728_640;

/// A word over `CHARGE_LIMIT`: where charges stop growing.
pub const CHARGE_TOP: u64 = CHARGE_LIMIT + 1;

/// The most functions of an image: a row of the function table each, but for row 0.
pub const MOST_FUNCTIONS: u32 = 65_535;

//! Limits of what is read: source texts, assembly texts and image files. All of them are this project's own rules.

/// The most bytes of a source text, of an assembly text and of an input that is meant: 1 MB. A longer one is TooLong.
pub const LONGEST_TEXT: usize = 1_048_576;

/// The most bytes of an image file, 80 MB: at least the header, the most words of text at 4 bytes, and the most bytes
/// of data. A longer one is TooLong.
pub const LONGEST_IMAGE: usize = 83_886_080;

/// The most tokens of a text. A token more is the fault TooManyTokens.
pub const MAX_TOKENS: usize = 262_144;

/// The most levels of nesting of expressions, statements and brackets in a text. A token that opens one more is
/// TooDeep.
pub const MAX_NESTING: usize = 200;

/// The largest number of a generated source text.
pub const LARGEST_SOURCE: u64 = 2_000;

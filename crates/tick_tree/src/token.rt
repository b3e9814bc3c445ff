//! The tokens of a text.

/// What a token is.
#[derive(Clone, Copy, Debug)]
pub enum TokenKind {
    /// A letter or `_`, then letters, digits and `_`, and no keyword.
    Name,
    /// One of the language's keywords.
    Keyword,
    /// A decimal, octal or hexadecimal number, with its suffix.
    Number,
    /// A character literal, with its quotes.
    Character,
    /// A string literal, with its quotes.
    String,
    /// An operator or a punctuation mark.
    Sign,
}

/// One token of a text.
#[derive(Clone, Copy)]
pub struct Token {
    /// What it is.
    pub kind: TokenKind,
    /// The place of its first byte, counted from 0.
    pub at: u32,
    /// Its length in bytes.
    pub len: u32,
    /// Its line: 1 plus the number of line feeds before it.
    pub line: u32,
}

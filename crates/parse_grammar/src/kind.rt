//! The kinds of tokens, as the grammar tells them apart.

use tick_tree::{BinaryOp, ModifyOp, StepOp, UnaryOp};

/// A word that a base is made of.
#[derive(Clone, Copy)]
pub enum BaseWord {
    /// `void`
    Void,
    /// `char`
    Char,
    /// `short`
    Short,
    /// `int`
    Int,
    /// `long`
    Long,
    /// `signed`
    Signed,
    /// `unsigned`
    Unsigned,
}

/// A word that begins a statement.
#[derive(Clone, Copy)]
pub enum Word {
    /// `if`
    If,
    /// `while`
    While,
    /// `do`
    Do,
    /// `for`
    For,
    /// `switch`
    Switch,
    /// `case`
    Case,
    /// `default`
    Default,
    /// `break`
    Break,
    /// `continue`
    Continue,
    /// `return`
    Return,
}

/// A token that opens, closes or separates.
#[derive(Clone, Copy)]
pub enum Mark {
    /// `{`
    BraceOpen,
    /// `}`
    BraceClose,
    /// `(`
    ParenOpen,
    /// `)`
    ParenClose,
    /// `[`
    BracketOpen,
    /// `]`
    BracketClose,
    /// `;`
    Semicolon,
    /// `,`
    Comma,
    /// `?`
    Question,
    /// `:`
    Colon,
    /// `=`
    Assign,
    /// `else`
    Else,
    /// `.`
    Dot,
    /// `->`
    Arrow,
}

/// The kind of a token. Tokens that the grammar treats alike have one kind.
#[derive(Clone, Copy)]
pub enum Kind {
    /// The end of the text.
    End,
    /// A name.
    Name,
    /// A number.
    Number,
    /// A character literal.
    Character,
    /// A string.
    String,
    /// A word of a base.
    Base(BaseWord),
    /// `cspec`
    Cspec,
    /// `vspec`
    Vspec,
    /// A word that begins a statement.
    Word(Word),
    /// `sizeof`
    Sizeof,
    /// `compile`
    Compile,
    /// `local`
    Local,
    /// `param`
    Param,
    /// A token that opens, closes or separates.
    Mark(Mark),
    /// An operator between two operands; four of them also stand before one, and `*` before a name.
    Operator(BinaryOp),
    /// An assignment such as `+=`.
    Modify(ModifyOp),
    /// An operator that only stands before its operand: `~`, `!` or `$`.
    Unary(UnaryOp),
    /// `++` or `--`, which stand before or behind an operand.
    Step(StepOp),
    /// A backquote.
    Backquote,
}

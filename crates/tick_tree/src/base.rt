//! Base types, prefixes and operators, as the words and signs of a text give them.

/// The word that says whether an integer type has negative values.
#[derive(Clone, Copy)]
pub enum Signedness {
    /// `signed`
    Signed,
    /// `unsigned`
    Unsigned,
}

/// The words that begin a declaration or a type name.
///
/// A sign may stand before each of them but `void`, and alone. `short` and `long` may have `int` behind them.
#[derive(Clone, Copy)]
pub enum Base {
    /// `void`
    Void,
    /// `char`, with its sign.
    Char(Option<Signedness>),
    /// `short`, with its sign, and whether `int` follows.
    Short(Option<Signedness>, bool),
    /// `long`, with its sign, and whether `int` follows.
    Long(Option<Signedness>, bool),
    /// `int`, with its sign.
    Int(Option<Signedness>),
    /// A sign alone.
    Alone(Signedness),
}

/// What stands before the name of a declarator, applied from left to right.
#[derive(Clone, Copy)]
pub enum Prefix {
    /// `*`
    Star,
    /// `cspec`
    Cspec,
    /// `vspec`
    Vspec,
}

/// An operator before its operand.
#[derive(Clone, Copy)]
pub enum UnaryOp {
    /// `+`
    Plus,
    /// `-`
    Minus,
    /// `~`
    Complement,
    /// `!`
    Not,
    /// `*`
    Star,
    /// `&`
    Address,
    /// `$`
    Dollar,
    /// `++`
    Increment,
    /// `--`
    Decrement,
}

/// An operator behind its operand.
#[derive(Clone, Copy)]
pub enum StepOp {
    /// `++`
    Increment,
    /// `--`
    Decrement,
}

/// An operator between two operands, other than a comma or an assignment.
#[derive(Clone, Copy)]
pub enum BinaryOp {
    /// `*`
    Mul,
    /// `/`
    Div,
    /// `%`
    Rem,
    /// `+`
    Add,
    /// `-`
    Sub,
    /// `<<`
    ShiftLeft,
    /// `>>`
    ShiftRight,
    /// `<`
    Less,
    /// `>`
    Greater,
    /// `<=`
    AtMost,
    /// `>=`
    AtLeast,
    /// `==`
    Equal,
    /// `!=`
    NotEqual,
    /// `&`
    BitAnd,
    /// `^`
    BitXor,
    /// `|`
    BitOr,
    /// `&&`
    And,
    /// `||`
    Or,
}

/// The operator that an assignment such as `+=` joins with `=`.
#[derive(Clone, Copy)]
pub enum ModifyOp {
    /// `*=`
    Mul,
    /// `/=`
    Div,
    /// `%=`
    Rem,
    /// `+=`
    Add,
    /// `-=`
    Sub,
    /// `<<=`
    ShiftLeft,
    /// `>>=`
    ShiftRight,
    /// `&=`
    BitAnd,
    /// `^=`
    BitXor,
    /// `|=`
    BitOr,
}

//! The kinds of operators, services, routines and closures that an op may have.

ghost use Rattle.std.specs.Prelude.{◌≡◌, ◌≤◌, ◌⊎◌, MatchOption};
ghost use Rattle.icode_ops.specs.Kinds.{bin_number, un_number, sys_number, run_number, closure_number};

/// The kind of an operator of two operands, on words of 32 bits.
/// The numbers 1 to 23 are those of the services that take builder ops.
#[derive(Clone, Copy, Debug)]
pub enum BinKind {
    /// 1: the sum, which wraps.
    Add,
    /// 2: the difference, which wraps.
    Subtract,
    /// 3: the low word of the product.
    Multiply,
    /// 4: the quotient of signed words, rounded toward 0.
    DivideSigned,
    /// 5: the quotient of unsigned words.
    DivideUnsigned,
    /// 6: the remainder of signed words, with the sign of the dividend.
    RemainderSigned,
    /// 7: the remainder of unsigned words.
    RemainderUnsigned,
    /// 8: the bits that both have.
    And,
    /// 9: the bits that one of them has.
    Or,
    /// 10: the bits in which they differ.
    Xor,
    /// 11: a shift to the left.
    ShiftLeft,
    /// 12: a shift to the right that copies the sign.
    ShiftRightSigned,
    /// 13: a shift to the right that brings in zeros.
    ShiftRightUnsigned,
    /// 14: 1 where they are equal, else 0, as of each kind below.
    Equal,
    /// 15: whether they differ.
    NotEqual,
    /// 16: whether the first is less, both signed.
    LessSigned,
    /// 17: whether the first is less, both unsigned.
    LessUnsigned,
    /// 18: whether the first is at most the second, both signed.
    LessOrEqualSigned,
    /// 19: whether the first is at most the second, both unsigned.
    LessOrEqualUnsigned,
    /// 20: whether the first is greater, both signed.
    GreaterSigned,
    /// 21: whether the first is greater, both unsigned.
    GreaterUnsigned,
    /// 22: whether the first is at least the second, both signed.
    GreaterOrEqualSigned,
    /// 23: whether the first is at least the second, both unsigned.
    GreaterOrEqualUnsigned,
}

/// The kind of an operator of one operand. The numbers 1 to 7 are those of the services that take builder ops.
#[derive(Clone, Copy, Debug)]
pub enum UnKind {
    /// 1: 0 less the word, which wraps.
    Negate,
    /// 2: the word with each bit turned.
    Complement,
    /// 3: 1 where the word is 0, else 0.
    IsZero,
    /// 4: the low byte, widened with its sign.
    SignedByte,
    /// 5: the low byte, widened with zeros.
    Byte,
    /// 6: the low half, widened with its sign.
    SignedHalf,
    /// 7: the low half, widened with zeros.
    Half,
}

/// A service of the machine that static and compiled code may ask for.
#[derive(Clone, Copy, Debug)]
pub enum SysKind {
    /// 1: writes the word as a signed decimal number, and answers it.
    PutInteger,
    /// 10: ends the program with the word modulo 256.
    Exit,
    /// 11: writes the word modulo 256 as one byte, and answers that byte.
    PutByte,
    /// 12: reads one byte, and answers it, or -1 at the end.
    GetByte,
}

/// A routine of the run-time library.
#[derive(Clone, Copy, Debug)]
pub enum RunKind {
    /// 1: takes memory of the heap.
    Malloc,
    /// 2: compiles a specification to a function.
    Compile,
    /// 3: makes a variable of the generated code.
    Local,
    /// 4: makes a parameter of the generated code.
    Parameter,
    /// 5: begins a specification.
    Begin,
    /// 6: adds a captured expression to the size of the specification.
    Expression,
    /// 7: adds a captured statement to it.
    Statement,
    /// 8: adds a captured variable to it.
    Variable,
}

/// What a closure that `New` makes specifies.
#[derive(Clone, Copy, Debug)]
pub enum ClosureKind {
    /// 1: an expression.
    Expression,
    /// 2: a statement.
    Statement,
}

impl BinKind {
    /// The number of the kind.
    pub fn number(self) -> u32
        ensures { result ≡ bin_number self }
    {
        match self {
            BinKind::Add => 1,
            BinKind::Subtract => 2,
            BinKind::Multiply => 3,
            BinKind::DivideSigned => 4,
            BinKind::DivideUnsigned => 5,
            BinKind::RemainderSigned => 6,
            BinKind::RemainderUnsigned => 7,
            BinKind::And => 8,
            BinKind::Or => 9,
            BinKind::Xor => 10,
            BinKind::ShiftLeft => 11,
            BinKind::ShiftRightSigned => 12,
            BinKind::ShiftRightUnsigned => 13,
            BinKind::Equal => 14,
            BinKind::NotEqual => 15,
            BinKind::LessSigned => 16,
            BinKind::LessUnsigned => 17,
            BinKind::LessOrEqualSigned => 18,
            BinKind::LessOrEqualUnsigned => 19,
            BinKind::GreaterSigned => 20,
            BinKind::GreaterUnsigned => 21,
            BinKind::GreaterOrEqualSigned => 22,
            BinKind::GreaterOrEqualUnsigned => 23,
        }
    }

    /// The kind of a number, or None where it is not from 1 to 23.
    pub fn from_number(number: u32) -> Option<BinKind>
        ensures { MatchOption result ((1 ≤ number) × (number ≤ 23) → ⊥) (λ k. bin_number k ≡ number) }
    {
        match number {
            1 => Some(BinKind::Add),
            2 => Some(BinKind::Subtract),
            3 => Some(BinKind::Multiply),
            4 => Some(BinKind::DivideSigned),
            5 => Some(BinKind::DivideUnsigned),
            6 => Some(BinKind::RemainderSigned),
            7 => Some(BinKind::RemainderUnsigned),
            8 => Some(BinKind::And),
            9 => Some(BinKind::Or),
            10 => Some(BinKind::Xor),
            11 => Some(BinKind::ShiftLeft),
            12 => Some(BinKind::ShiftRightSigned),
            13 => Some(BinKind::ShiftRightUnsigned),
            14 => Some(BinKind::Equal),
            15 => Some(BinKind::NotEqual),
            16 => Some(BinKind::LessSigned),
            17 => Some(BinKind::LessUnsigned),
            18 => Some(BinKind::LessOrEqualSigned),
            19 => Some(BinKind::LessOrEqualUnsigned),
            20 => Some(BinKind::GreaterSigned),
            21 => Some(BinKind::GreaterUnsigned),
            22 => Some(BinKind::GreaterOrEqualSigned),
            23 => Some(BinKind::GreaterOrEqualUnsigned),
            _ => None,
        }
    }
}

impl UnKind {
    /// The number of the kind.
    pub fn number(self) -> u32
        ensures { result ≡ un_number self }
    {
        match self {
            UnKind::Negate => 1,
            UnKind::Complement => 2,
            UnKind::IsZero => 3,
            UnKind::SignedByte => 4,
            UnKind::Byte => 5,
            UnKind::SignedHalf => 6,
            UnKind::Half => 7,
        }
    }

    /// The kind of a number, or None where it is not from 1 to 7.
    pub fn from_number(number: u32) -> Option<UnKind>
        ensures { MatchOption result ((1 ≤ number) × (number ≤ 7) → ⊥) (λ k. un_number k ≡ number) }
    {
        match number {
            1 => Some(UnKind::Negate),
            2 => Some(UnKind::Complement),
            3 => Some(UnKind::IsZero),
            4 => Some(UnKind::SignedByte),
            5 => Some(UnKind::Byte),
            6 => Some(UnKind::SignedHalf),
            7 => Some(UnKind::Half),
            _ => None,
        }
    }
}

impl SysKind {
    /// The number of the kind.
    pub fn number(self) -> u32
        ensures { result ≡ sys_number self }
    {
        match self {
            SysKind::PutInteger => 1,
            SysKind::Exit => 10,
            SysKind::PutByte => 11,
            SysKind::GetByte => 12,
        }
    }

    /// The kind of a number, or None where it is none of 1, 10, 11 and 12.
    pub fn from_number(number: u32) -> Option<SysKind>
        ensures { MatchOption result ((number ≡ 1) ⊎ (number ≡ 10) ⊎ (number ≡ 11) ⊎ (number ≡ 12) → ⊥)
            (λ k. sys_number k ≡ number) }
    {
        match number {
            1 => Some(SysKind::PutInteger),
            10 => Some(SysKind::Exit),
            11 => Some(SysKind::PutByte),
            12 => Some(SysKind::GetByte),
            _ => None,
        }
    }
}

impl RunKind {
    /// The number of the kind.
    pub fn number(self) -> u32
        ensures { result ≡ run_number self }
    {
        match self {
            RunKind::Malloc => 1,
            RunKind::Compile => 2,
            RunKind::Local => 3,
            RunKind::Parameter => 4,
            RunKind::Begin => 5,
            RunKind::Expression => 6,
            RunKind::Statement => 7,
            RunKind::Variable => 8,
        }
    }

    /// The kind of a number, or None where it is not from 1 to 8.
    pub fn from_number(number: u32) -> Option<RunKind>
        ensures { MatchOption result ((1 ≤ number) × (number ≤ 8) → ⊥) (λ k. run_number k ≡ number) }
    {
        match number {
            1 => Some(RunKind::Malloc),
            2 => Some(RunKind::Compile),
            3 => Some(RunKind::Local),
            4 => Some(RunKind::Parameter),
            5 => Some(RunKind::Begin),
            6 => Some(RunKind::Expression),
            7 => Some(RunKind::Statement),
            8 => Some(RunKind::Variable),
            _ => None,
        }
    }
}

impl ClosureKind {
    /// The number of the kind.
    pub fn number(self) -> u32
        ensures { result ≡ closure_number self }
    {
        match self {
            ClosureKind::Expression => 1,
            ClosureKind::Statement => 2,
        }
    }

    /// The kind of a number, or None where it is neither 1 nor 2.
    pub fn from_number(number: u32) -> Option<ClosureKind>
        ensures { MatchOption result ((1 ≤ number) × (number ≤ 2) → ⊥) (λ k. closure_number k ≡ number) }
    {
        match number {
            1 => Some(ClosureKind::Expression),
            2 => Some(ClosureKind::Statement),
            _ => None,
        }
    }
}

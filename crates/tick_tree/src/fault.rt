//! The static faults: why a text is refused.

ghost use Rattle.std.specs.Prelude.{◌≡◌, ◌≤◌, Err};
ghost use Rattle.tick_tree.specs.declared.fault.Deny.TheVariants.{Refused};
ghost use Rattle.tick_tree.specs.Faults as spec;

use std::alloc::{AllocError, AllocFailed};
use thiserror::Error;

/// The rule that a text breaks. Faults are numbered from 1 in this order.
#[derive(Clone, Copy, Debug)]
pub enum FaultKind {
    /// No token, blank or comment begins at a byte.
    BadByte,
    /// A `/*` has no `*/`.
    OpenComment,
    /// A literal isn't closed on its line, or a character literal hasn't exactly one character.
    OpenLiteral,
    /// A `\` in a literal begins no escape.
    BadEscape,
    /// A number is over 4,294,967,295.
    BigLiteral,
    /// The 262,145th token begins.
    TooManyTokens,
    /// The grammar takes no such token there.
    Syntax,
    /// The nesting is over 200.
    TooDeep,
    /// No visible declaration has the name, or a prototype has no function.
    Undeclared,
    /// A scope has the name already.
    Duplicate,
    /// What is called is neither a function nor a pointer to one.
    NotFunction,
    /// A call has another count of arguments than the declared list.
    ArgumentCount,
    /// A value doesn't convert to the wanted type.
    TypeMismatch,
    /// What is assigned to, or whose address is taken, is no place.
    NotPlace,
    /// Operand types aren't in the operator's rule.
    BadOperand,
    /// A void expression is used as a value, or a variable, parameter or element is void.
    VoidValue,
    /// A `break` has no loop or switch round it.
    BreakOutside,
    /// A `continue` has no loop round it.
    ContinueOutside,
    /// A void function returns a value, or a tick returns a specification.
    BadReturn,
    /// An array's length or initializer isn't allowed.
    BadArray,
    /// `$` is outside a backquote, or inside the operand of another `$`.
    DollarOutside,
    /// A backquote is inside a backquote.
    NestedTick,
    /// A specification is made or handled inside a backquote.
    StageInTick,
    /// `&` is applied to a variable of the generated code.
    AddressOfRegister,
    /// There is no function `main` without parameters that returns int.
    NoMain,
    /// A `case` isn't directly an item of a switch's block, or its value isn't constant.
    BadCase,
    /// A value or a `default` stands twice in one switch.
    DuplicateCase,
    /// There are over 8 parameters or arguments.
    TooManyParameters,
    /// A size is over its limit.
    TooLarge,
}

impl FaultKind {
    /// The fault's number: 1 to 29 in the order above, by this project's own list of faults.
    pub fn number(self) -> u8
        ensures value { result ≡ spec.number self }
        ensures small { result ≤ 29 }
    {
        match self {
            FaultKind::BadByte => 1,
            FaultKind::OpenComment => 2,
            FaultKind::OpenLiteral => 3,
            FaultKind::BadEscape => 4,
            FaultKind::BigLiteral => 5,
            FaultKind::TooManyTokens => 6,
            FaultKind::Syntax => 7,
            FaultKind::TooDeep => 8,
            FaultKind::Undeclared => 9,
            FaultKind::Duplicate => 10,
            FaultKind::NotFunction => 11,
            FaultKind::ArgumentCount => 12,
            FaultKind::TypeMismatch => 13,
            FaultKind::NotPlace => 14,
            FaultKind::BadOperand => 15,
            FaultKind::VoidValue => 16,
            FaultKind::BreakOutside => 17,
            FaultKind::ContinueOutside => 18,
            FaultKind::BadReturn => 19,
            FaultKind::BadArray => 20,
            FaultKind::DollarOutside => 21,
            FaultKind::NestedTick => 22,
            FaultKind::StageInTick => 23,
            FaultKind::AddressOfRegister => 24,
            FaultKind::NoMain => 25,
            FaultKind::BadCase => 26,
            FaultKind::DuplicateCase => 27,
            FaultKind::TooManyParameters => 28,
            FaultKind::TooLarge => 29,
        }
    }

    /// The fault's name, as the command line writes it: the variant's own name.
    pub fn name(self) -> &'static str
        ensures { result.now ≡ spec.name self }
    {
        match self {
            FaultKind::BadByte => "BadByte",
            FaultKind::OpenComment => "OpenComment",
            FaultKind::OpenLiteral => "OpenLiteral",
            FaultKind::BadEscape => "BadEscape",
            FaultKind::BigLiteral => "BigLiteral",
            FaultKind::TooManyTokens => "TooManyTokens",
            FaultKind::Syntax => "Syntax",
            FaultKind::TooDeep => "TooDeep",
            FaultKind::Undeclared => "Undeclared",
            FaultKind::Duplicate => "Duplicate",
            FaultKind::NotFunction => "NotFunction",
            FaultKind::ArgumentCount => "ArgumentCount",
            FaultKind::TypeMismatch => "TypeMismatch",
            FaultKind::NotPlace => "NotPlace",
            FaultKind::BadOperand => "BadOperand",
            FaultKind::VoidValue => "VoidValue",
            FaultKind::BreakOutside => "BreakOutside",
            FaultKind::ContinueOutside => "ContinueOutside",
            FaultKind::BadReturn => "BadReturn",
            FaultKind::BadArray => "BadArray",
            FaultKind::DollarOutside => "DollarOutside",
            FaultKind::NestedTick => "NestedTick",
            FaultKind::StageInTick => "StageInTick",
            FaultKind::AddressOfRegister => "AddressOfRegister",
            FaultKind::NoMain => "NoMain",
            FaultKind::BadCase => "BadCase",
            FaultKind::DuplicateCase => "DuplicateCase",
            FaultKind::TooManyParameters => "TooManyParameters",
            FaultKind::TooLarge => "TooLarge",
        }
    }
}

/// The first static fault of a text.
#[derive(Clone, Copy, Debug, Error)]
#[error("line {line}: {}", .kind.name())]
pub struct Fault {
    /// The rule that is broken.
    pub kind: FaultKind,
    /// The line of the token that breaks it, counted from 1.
    pub line: u32,
    /// The token's number, counted from 0, for Syntax and TooDeep, else 0.
    pub token: u32,
}

/// Why a stage of the front gives no answer.
#[derive(Clone, Copy, Debug, Error)]
pub enum Deny {
    /// The text has this fault.
    #[error("{0}")]
    Refused(Fault),
    /// Memory was not found.
    #[error("memory was not found")]
    NoMemory,
}

impl<T: Drop> From<AllocFailed<T>> for Deny {
    ghost use Rattle.std.specs.Prelude.{◌≡◌};
    ghost use Rattle.tick_tree.specs.declared.fault.Deny.TheVariants.{NoMemory};

    ghost from_gives = { λ _ e. e ≡ NoMemory };

    fn from(_error: AllocFailed<T>) -> Deny {
        Deny::NoMemory
    }
}

impl From<AllocError> for Deny {
    ghost use Rattle.std.specs.Prelude.{◌≡◌};
    ghost use Rattle.tick_tree.specs.declared.fault.Deny.TheVariants.{NoMemory};

    ghost from_gives = { λ _ e. e ≡ NoMemory };

    fn from(_error: AllocError) -> Deny {
        Deny::NoMemory
    }
}

/// The answer of a stage that refuses a text for this rule at this line.
pub fn refused<T>(kind: FaultKind, line: u32) -> Result<T, Deny>
    ensures { result ≡ Err (Refused (spec.fault kind line)) }
{
    Err(Deny::Refused(Fault {
        kind,
        line,
        token: 0,
    }))
}

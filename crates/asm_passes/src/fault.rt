//! Why a text is refused.

ghost use Rattle.std.specs.Prelude.{◌≡◌, ◌≤◌};
ghost use Rattle.asm_passes.specs.Faults as spec;

use std::alloc::AllocError;
use thiserror::Error;

/// What is wrong in a line, numbered from 1 in this order.
#[derive(Clone, Copy, Debug)]
pub enum AsmFaultKind {
    /// The line has another form, it is a second `.entry`, or it is the first line of a text without a word.
    BadLine,
    /// A value is outside its field, a register is one that the instruction excludes, a limit of images is passed, or
    /// an entry or a function stands at no word of the text.
    BadNumber,
    /// No line has the label.
    UnknownLabel,
    /// An earlier line has the label.
    DoubleLabel,
}

impl AsmFaultKind {
    /// The fault's number, from 1 to 4.
    pub fn number(self) -> u8
        ensures value { result ≡ spec.number self }
        ensures small { result ≤ 4 }
    {
        match self {
            AsmFaultKind::BadLine => 1,
            AsmFaultKind::BadNumber => 2,
            AsmFaultKind::UnknownLabel => 3,
            AsmFaultKind::DoubleLabel => 4,
        }
    }

    /// The fault's name, the variant's own.
    pub fn name(self) -> &'static str
        ensures { result.now ≡ spec.name self }
    {
        match self {
            AsmFaultKind::BadLine => "BadLine",
            AsmFaultKind::BadNumber => "BadNumber",
            AsmFaultKind::UnknownLabel => "UnknownLabel",
            AsmFaultKind::DoubleLabel => "DoubleLabel",
        }
    }
}

/// The first fault of a text.
#[derive(Clone, Copy, Debug, Error)]
#[error("line {line}: {}", .kind.name())]
pub struct AsmFault {
    /// What is wrong.
    pub kind: AsmFaultKind,
    /// The number of the line, counted from 1.
    pub line: u32,
}

/// Why `assemble` gives no image.
#[derive(Clone, Copy, Debug, Error)]
pub enum AsmDeny {
    /// The text is no image: its first fault.
    #[error("{0}")]
    Refused(AsmFault),
    /// Memory was not found.
    #[error("memory was not found")]
    NoMemory,
}

impl From<AllocError> for AsmDeny {
    ghost use Rattle.std.specs.Prelude.{◌≡◌};
    ghost use Rattle.asm_passes.specs.declared.fault.AsmDeny.TheVariants.{NoMemory};

    ghost from_gives = { λ _ e. e ≡ NoMemory };

    fn from(_error: AllocError) -> AsmDeny {
        AsmDeny::NoMemory
    }
}

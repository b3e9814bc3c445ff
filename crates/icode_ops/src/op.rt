//! The ops of the intermediate code, over virtual registers and labels.

ghost use Rattle.std.specs.Prelude.{◌≡◌};
ghost use Rattle.icode_ops.specs.Flow.{defined, first_use, second_use, falls, goes_to, label_of};

use crate::bounded::{ArgumentCount, ArgumentIndex, CallAddress, CaptureIndex};
use crate::kind::{BinKind, ClosureKind, RunKind, SysKind, UnKind};
use word32::Width;

/// An op of the intermediate code. Registers are virtual and numbered from 0, and so are labels.
/// `to` is the register that the op defines. Words have 32 bits; offsets and addresses are in bytes.
#[derive(Clone, Copy, Debug)]
pub enum Op {
    /// Puts the word into `to`.
    Const {
        to: u32,
        word: u32,
    },
    /// Copies `from`.
    Move {
        to: u32,
        from: u32,
    },
    /// Applies the operator to `left` and `right`.
    Bin {
        kind: BinKind,
        to: u32,
        left: u32,
        right: u32,
    },
    /// Traps where the signed division of `left` by `right` has no answer: the divisor is 0, or it overflows.
    CheckDivision {
        left: u32,
        right: u32,
    },
    /// Traps where `divisor` is 0.
    CheckZero {
        divisor: u32,
    },
    /// Applies the operator to `from`.
    Un {
        kind: UnKind,
        to: u32,
        from: u32,
    },
    /// The address that is `offset` bytes into the objects of the function's frame.
    FrameAddress {
        to: u32,
        offset: u32,
    },
    /// Loads from the address in `address`.
    Load {
        width: Width,
        to: u32,
        address: u32,
    },
    /// Stores `value` to the address in `address`.
    Store {
        width: Width,
        address: u32,
        value: u32,
    },
    /// Sets `words` words of the frame's objects to 0, from `offset` bytes on.
    Clear {
        offset: u32,
        words: u32,
    },
    /// A place that jumps name.
    Label {
        label: u32,
    },
    /// Goes to the label.
    Jump {
        label: u32,
    },
    /// Goes to the label where `test` is 0.
    BranchZero {
        test: u32,
        label: u32,
    },
    /// Goes to the label where `test` is not 0.
    BranchNonzero {
        test: u32,
        label: u32,
    },
    /// Passes `from` as an argument of the next call.
    Argument {
        index: ArgumentIndex,
        from: u32,
    },
    /// Takes a parameter of the function.
    GetParameter {
        to: u32,
        index: ArgumentIndex,
    },
    /// Calls the function at the address.
    Call {
        address: CallAddress,
    },
    /// Calls the function whose number is in `function`, which has to take `count` arguments.
    CallNumber {
        function: u32,
        count: ArgumentCount,
    },
    /// Takes the answer of the call before.
    Result {
        to: u32,
    },
    /// Returns with the answer `from`.
    Return {
        from: u32,
    },
    /// Returns with the answer 0.
    ReturnZero,
    /// Asks the machine for a service.
    Sys {
        kind: SysKind,
        to: u32,
        from: u32,
    },
    /// Calls a routine of the run-time library.
    Run {
        routine: RunKind,
        to: u32,
        from: u32,
    },
    /// Makes a closure of `captures` captured words, of which `address` is the code.
    New {
        to: u32,
        address: u32,
        kind: ClosureKind,
        captures: u32,
    },
    /// Puts `from` into a captured word of the closure that was made last.
    Put {
        index: CaptureIndex,
        from: u32,
    },
}

impl Op {
    /// The register that the op defines, if it defines one.
    pub fn defined(&self) -> Option<u32>
        ensures { result ≡ defined self.now }
    {
        match *self {
            Op::Const { to, .. } => Some(to),
            Op::Move { to, .. } => Some(to),
            Op::Bin { to, .. } => Some(to),
            Op::Un { to, .. } => Some(to),
            Op::FrameAddress { to, .. } => Some(to),
            Op::Load { to, .. } => Some(to),
            Op::GetParameter { to, .. } => Some(to),
            Op::Result { to } => Some(to),
            Op::Sys { to, .. } => Some(to),
            Op::Run { to, .. } => Some(to),
            Op::New { to, .. } => Some(to),
            _ => None,
        }
    }

    /// The first register that the op uses, if it uses any.
    pub fn first_use(&self) -> Option<u32>
        ensures { result ≡ first_use self.now }
    {
        match *self {
            Op::Move { from, .. } => Some(from),
            Op::Bin { left, .. } => Some(left),
            Op::CheckDivision { left, .. } => Some(left),
            Op::CheckZero { divisor } => Some(divisor),
            Op::Un { from, .. } => Some(from),
            Op::Load { address, .. } => Some(address),
            Op::Store { address, .. } => Some(address),
            Op::BranchZero { test, .. } => Some(test),
            Op::BranchNonzero { test, .. } => Some(test),
            Op::Argument { from, .. } => Some(from),
            Op::CallNumber { function, .. } => Some(function),
            Op::Return { from } => Some(from),
            Op::Sys { from, .. } => Some(from),
            Op::Run { from, .. } => Some(from),
            Op::Put { from, .. } => Some(from),
            _ => None,
        }
    }

    /// The second register that the op uses, if it uses two.
    pub fn second_use(&self) -> Option<u32>
        ensures { result ≡ second_use self.now }
    {
        match *self {
            Op::Bin { right, .. } => Some(right),
            Op::CheckDivision { right, .. } => Some(right),
            Op::Store { value, .. } => Some(value),
            _ => None,
        }
    }

    /// Whether control may go on to the next op: from all but a jump and the two returns.
    pub fn falls(&self) -> bool
        ensures { result ≡ falls self.now }
    {
        !matches!(*self, Op::Jump { .. } | Op::Return { .. } | Op::ReturnZero)
    }

    /// The label to which control may go from the op, if there is one.
    pub fn goes_to(&self) -> Option<u32>
        ensures { result ≡ goes_to self.now }
    {
        match *self {
            Op::Jump { label } => Some(label),
            Op::BranchZero { label, .. } => Some(label),
            Op::BranchNonzero { label, .. } => Some(label),
            _ => None,
        }
    }

    /// The label that stands at the op, if it is one.
    pub fn label(&self) -> Option<u32>
        ensures { result ≡ label_of self.now }
    {
        match *self {
            Op::Label { label } => Some(label),
            _ => None,
        }
    }
}

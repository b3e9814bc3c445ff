//! The ops of the intermediate code (ICODE), and what the definitions of the code generator say of a list of them:
//! where control goes, where a register is live, its interval, and which choices of places are legal.
#![tactic(auto)]

mod bounded;
mod interval;
mod kind;
mod op;

pub use bounded::{ArgumentCount, ArgumentIndex, CallAddress, CaptureIndex};
pub use interval::Interval;
pub use kind::{BinKind, ClosureKind, RunKind, SysKind, UnKind};
pub use op::Op;

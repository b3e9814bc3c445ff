//! Why a call of the machine returns.

use host_edge::{Ending, MachineKind};
use thiserror::Error;

/// How one call of `run` came to its end.
#[derive(Clone, Copy, Debug, Drop, PartialEq, Eq, Error)]
pub enum Stop {
    /// The program ended by its own doing.
    #[error("the program ended")]
    Ended(Ending),
    /// The machine stopped at the instruction with this address.
    #[error("{} at {}", .0.name(), .1)]
    Fault(MachineKind, u32),
    /// All instructions of this call were executed; the next call goes on from there.
    #[error("all instructions were executed")]
    Steps,
    /// The input failed.
    #[error("the input failed")]
    ReadFault,
    /// The output failed.
    #[error("the output failed")]
    WriteFault,
}

//! Why the core stops by itself.

use crate::pc::Pc;
use host_edge::{Ending, MachineKind};

/// How a run ended at an instruction that isn't a service.
#[derive(Clone, Copy, Drop)]
pub enum Halt {
    /// The program ended by a trap of its own.
    Ended(Ending),
    /// The machine refused the instruction at this address.
    Fault(MachineKind, u32),
}

/// What became of an instruction.
#[derive(Clone, Copy)]
pub enum Went {
    /// It was executed, and the run goes on at this address.
    On(Pc),
    /// It was executed where nothing was pending: the next word stands in a delay slot, and behind that the run goes on
    /// at this address.
    Slot(Pc),
    /// It was executed where nothing was pending, and loaded the register of this number.
    Loaded(usize),
    /// It was executed, and what follows at this address may not be any instruction, or stands in a delay slot.
    Pending(Pc),
    /// It ended the run, or was refused.
    Stopped,
    /// It is SYSCALL, or no instruction was left: none was executed.
    Service,
}

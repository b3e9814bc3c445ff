//! How a run ends, and what is counted on the way.
ghost use Rattle.std.specs.Prelude.{◌≡◌};
ghost use Rattle.host_edge.specs.Endings.{trap_name, machine_name};

/// Why a program is stopped by its own doing. The meaning of a text and the machine that runs its image know
/// the same thirteen kinds.
#[derive(Clone, Copy, Debug, PartialEq, Eq)]
pub enum TrapKind {
    /// An address is in no memory of the program, or may not be written.
    Range,
    /// An address isn't a multiple of the width that is read or written there.
    Misaligned,
    /// A divisor is 0.
    DivideByZero,
    /// The smallest number is divided by -1.
    DivideOverflow,
    /// What is called by number is no live function, or one with another count of parameters.
    BadCall,
    /// What is captured or compiled as a specification is no live one of the kind that is named.
    BadSpec,
    /// A parameter of generated code has an index over 7.
    BadParam,
    /// The charges of the active calls are over their limit.
    StackLimit,
    /// The frame objects of the active calls are over their limit in bytes.
    FrameLimit,
    /// The closures of all specifications are over their limit in bytes.
    SpecLimit,
    /// A new specification is over the limit of its size.
    SizeLimit,
    /// The charges of all compiles are over the words of the code arena.
    ArenaLimit,
    /// A new function has no row left in the function table.
    TableLimit,
}

impl TrapKind {
    /// The name that a line on standard error gives it.
    pub fn name(self) -> &'static str
        ensures { result.now ≡ trap_name self }
    {
        match self {
            TrapKind::Range => "Range",
            TrapKind::Misaligned => "Misaligned",
            TrapKind::DivideByZero => "DivideByZero",
            TrapKind::DivideOverflow => "DivideOverflow",
            TrapKind::BadCall => "BadCall",
            TrapKind::BadSpec => "BadSpec",
            TrapKind::BadParam => "BadParam",
            TrapKind::StackLimit => "StackLimit",
            TrapKind::FrameLimit => "FrameLimit",
            TrapKind::SpecLimit => "SpecLimit",
            TrapKind::SizeLimit => "SizeLimit",
            TrapKind::ArenaLimit => "ArenaLimit",
            TrapKind::TableLimit => "TableLimit",
        }
    }
}

/// Why the machine stops at an instruction that breaks its own rules.
#[derive(Clone, Copy, Debug, PartialEq, Eq)]
pub enum MachineKind {
    /// A register is used right after the load that fills it, HI or LO is written too soon after it was read,
    /// or a branch or jump is in a delay slot.
    Hazard,
    /// A word of the code arena would be executed that isn't flushed since it was last written.
    Stale,
    /// The word is outside the instruction table, or a break's code outside the codes of traps.
    Reserved,
    /// A service's number isn't in the table, or the service refuses its arguments.
    BadService,
    /// The address isn't a multiple of 4, or is in neither text nor arena.
    Fetch,
    /// A signed sum or difference doesn't fit 32 bits, at an instruction that doesn't wrap.
    Overflow,
}

impl MachineKind {
    /// The name that a line on standard error gives it.
    pub fn name(self) -> &'static str
        ensures { result.now ≡ machine_name self }
    {
        match self {
            MachineKind::Hazard => "Hazard",
            MachineKind::Stale => "Stale",
            MachineKind::Reserved => "Reserved",
            MachineKind::BadService => "BadService",
            MachineKind::Fetch => "Fetch",
            MachineKind::Overflow => "Overflow",
        }
    }
}

/// How a program ends by its own doing: with a status, or by a trap.
#[derive(Clone, Copy, Debug, PartialEq, Eq)]
pub enum Ending {
    /// The answer of `main` or the argument of `exit`, modulo 256.
    Done(u8),
    /// It was stopped for this reason.
    Trap(TrapKind),
}

/// What is counted while a machine runs, over the services that it doesn't refuse.
#[derive(Clone, Copy)]
pub struct Counts {
    /// Builder ops that were emitted.
    pub ops: u64,
    /// Rows of the function table that were published.
    pub functions: u64,
    /// Words of code that finished compiles wrote.
    pub words: u64,
    /// Calls of the flush service.
    pub flushes: u64,
    /// Virtual registers that have a live interval and were placed in a stack slot.
    pub spills: u64,
}

//! Outcomes and their exit statuses.
ghost use Rattle.std.specs.Prelude.{◌≡◌};
ghost use Rattle.tick_outcome.specs.Outcomes.{status_of};

use asm_passes::AsmFault;
use host_edge::{MachineKind, TrapKind};
use image_file::ImageFault;
use tick_tree::Fault;

/// The outcome of a command.
#[derive(Clone, Copy, Drop)]
pub enum Outcome {
    /// The command did all that it says; of a run, `main`'s answer or `exit`'s argument modulo 256, else 0.
    Done(u8),
    /// The words are no command: the place of the first word that can't continue one.
    BadWords(u64),
    /// The text is refused for its first static fault.
    Refused(Fault),
    /// The assembly text is refused for its first fault.
    AsmRefused(AsmFault),
    /// The file can't be loaded.
    LoadFault,
    /// The file is longer than a text, or an image, may be.
    TooLong,
    /// The file is no image: the first rule of the image format that it breaks.
    BadImage(ImageFault),
    /// The program was stopped by a trap.
    Trap(TrapKind),
    /// The machine stopped at an instruction, whose address is given.
    MachineFault(MachineKind, u32),
    /// The run had not ended within so many instructions.
    OutOfSteps(u64),
    /// Standard output failed, or standard error did where all else was done.
    WriteFault,
    /// Standard input failed.
    ReadFault,
    /// The file can't be saved.
    SaveFault,
}

/// The exit status of an outcome.
pub fn status(outcome: &Outcome) -> u8
    ensures { result ≡ status_of outcome.now }
{
    match outcome {
        Outcome::Done(status) => *status,
        Outcome::BadWords(_) => 64,
        Outcome::Refused(_) => 65,
        Outcome::AsmRefused(_) => 68,
        Outcome::LoadFault => 66,
        Outcome::TooLong => 67,
        Outcome::BadImage(_) => 69,
        Outcome::Trap(_) => 70,
        Outcome::MachineFault(_, _) => 71,
        Outcome::OutOfSteps(_) => 72,
        Outcome::WriteFault => 73,
        Outcome::ReadFault => 74,
        Outcome::SaveFault => 75,
    }
}

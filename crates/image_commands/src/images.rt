//! What is done with an image: it runs, it is saved, or its text is written.
ghost use Rattle.std.specs.Prelude.{◌≡◌, ℕ, ◌≤◌, ◌^◌, IfOk, OnErr};
ghost use Rattle.std.specs.Io.KnownBytes.{Keeps};
ghost use Rattle.image_commands.specs.Outside.{SameFiles, failures};
ghost use Rattle.image_commands.specs.Answers.{RanImage, outcome_of};
ghost use Rattle.image_commands.specs.Does.{IsOfCommand, Cause, SavesImage, PrintsText};

use crate::ended::bare;
use host_edge::{Ending, SaveFault, Sink, Source, Store};
use image_file::{Image, write};
use mips_machine::{Machine, Stop};
use mips_text::disassemble;
use std::alloc::{AllocError, Global};
use tick_outcome::{Ended, Outcome};

// The outcome of a run of at most so many instructions.
fn outcome_of(steps: u64, stop: Stop) -> Outcome
    ensures { result ≡ outcome_of steps stop }
{
    match stop {
        Stop::Ended(Ending::Done(status)) => Outcome::Done(status),
        Stop::Ended(Ending::Trap(kind)) => Outcome::Trap(kind),
        Stop::Fault(kind, at) => Outcome::MachineFault(kind, at),
        Stop::Steps => Outcome::OutOfSteps(steps),
        Stop::ReadFault => Outcome::ReadFault,
        Stop::WriteFault => Outcome::WriteFault,
    }
}

/// Runs an image for at most so many instructions. All memory is taken before the first of them.
pub fn run_image<I: Source, O: Sink>(
    alloc: Global,
    image: Image,
    steps: u64,
    input: &mut I,
    out: &mut O,
) -> Result<Ended, AllocError>
    requires { steps ≤ 2 ^ 40 }
    ensures ran { IfOk result (RanImage steps image
        (I.left input.old) (I.left input.new) (O.taken out.old) (O.taken out.new)) }
    ensures words { IfOk result (λ e. IsOfCommand e.outcome) }
    ensures cause { IfOk result (λ e. (n : ℕ) → Cause e.outcome
        (failures n (I.faults input.old) (O.faults out.old)) (failures n (I.faults input.new) (O.faults out.new))) }
    ensures none { OnErr result (Keeps (I.left input.old) (I.left input.new)
        × Keeps (O.taken out.old) (O.taken out.new)) }
{
    let mut machine = Machine::new(alloc, &image)?;
    let stop = machine.run(input, out, steps);
    Ok(Ended {
        outcome: outcome_of(steps, stop),
        steps: machine.steps(),
        counts: machine.counts(),
        choices: machine.into_choices(),
        image: Some(image),
    })
}

/// Saves the bytes of an image at a path.
pub fn save_image<S: Store>(
    alloc: Global,
    image: &Image,
    path: &str,
    store: &mut S,
) -> Result<Ended, AllocError>
    ensures saves { IfOk result (λ e. SavesImage path.now (S.file store.old) (S.file store.new) e image.now) }
    ensures words { IfOk result (λ e. IsOfCommand e.outcome) }
    ensures cause { IfOk result (λ e. (m n : ℕ) → Cause e.outcome
        (failures (S.faults store.old) m n) (failures (S.faults store.new) m n)) }
    ensures none { OnErr result (SameFiles (S.file store.old) (S.file store.new)) }
{
    let bytes = write(alloc, image)?;
    match store.save(path, &bytes) {
        Ok(()) => Ok(bare(alloc, Outcome::Done(0))),
        Err(SaveFault::Failed) => Ok(bare(alloc, Outcome::SaveFault)),
        Err(SaveFault::NoMemory) => Err(AllocError),
    }
}

/// Writes the assembly text of an image.
pub fn write_text<O: Sink>(alloc: Global, image: &Image, out: &mut O) -> Ended
    ensures prints { PrintsText (O.taken out.old) (O.taken out.new) result image.now }
    ensures words { IsOfCommand result.outcome }
    ensures cause { (m n : ℕ) → Cause result.outcome
        (failures m n (O.faults out.old)) (failures m n (O.faults out.new)) }
{
    match disassemble(image, out) {
        Ok(()) => bare(alloc, Outcome::Done(0)),
        Err(_) => bare(alloc, Outcome::WriteFault),
    }
}

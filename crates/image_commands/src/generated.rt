//! The command that writes a generated source.
ghost use Rattle.std.specs.Prelude.{ℕ, IfOk, OnErr};
ghost use Rattle.std.specs.Io.KnownBytes.{Keeps};
ghost use Rattle.image_commands.specs.Outside.{failures};
ghost use Rattle.image_commands.specs.Does.{IsOfCommand, Cause};
ghost use Rattle.image_commands.specs.Generated.{PrintsSource};

use crate::ended::bare;
use host_edge::{Sink, write_whole};
use std::alloc::{AllocError, Global};
use tick_gen::generate;
use tick_outcome::{Ended, Outcome};

/// `gen NUMBER`: writes the source with this number.
pub fn write_source<O: Sink>(alloc: Global, number: u32, out: &mut O) -> Result<Ended, AllocError>
    ensures prints { IfOk result (PrintsSource number (O.taken out.old) (O.taken out.new)) }
    ensures words { IfOk result (λ e. IsOfCommand e.outcome) }
    ensures cause { IfOk result (λ e. (m n : ℕ) → Cause e.outcome
        (failures m n (O.faults out.old)) (failures m n (O.faults out.new))) }
    ensures none { OnErr result (Keeps (O.taken out.old) (O.taken out.new)) }
{
    let text = generate(alloc, number)?;
    match write_whole(out, &text) {
        Ok(()) => Ok(bare(alloc, Outcome::Done(0))),
        Err(_) => Ok(bare(alloc, Outcome::WriteFault)),
    }
}

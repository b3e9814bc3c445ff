//! The call that does what the words of a command line say.
ghost use Rattle.std.specs.Prelude.{◌≡◌, ◌≢◌, ◌⊎◌, ◌↔◌, ℕ, map, string_bytes, IfOk, OnErr, Err};
ghost use Rattle.std.specs.Io.KnownBytes.{Keeps};
ghost use Rattle.host_edge.specs.Causes.{Rose};
ghost use Rattle.command_words.specs.Words.{order_of};
ghost use Rattle.image_commands.specs.Outside.{Unwritten, outside, failures};
ghost use Rattle.image_commands.specs.Does.{Cause};
ghost use Rattle.source_commands.specs.Rows.{RefusedRow, AsmRefusedRow, TooLongRow, BadImageRow, TrapRow};
ghost use Rattle.source_commands.specs.Rows.{MachineFaultRow, OutOfStepsRow};
ghost use Rattle.source_commands.specs.Top.{Ticked};

use crate::language::TickC;
use host_edge::{Sink, Source, Store};
use source_commands::call;
use std::alloc::{AllocError, Global};
use tick_outcome::{Ended, Outcome};

/// Does what the words of a command line say, word 0 being the name of the program, and reports the outcome on `err`.
/// After want of memory nothing was written or saved.
pub fn tick<S: Store, I: Source, O: Sink, E: Sink>(
    alloc: Global,
    words: &[String],
    store: &mut S,
    input: &mut I,
    out: &mut O,
    err: &mut E,
) -> Result<Ended, AllocError>
    ensures did { IfOk result (Ticked (map string_bytes words.now)
        (outside (S.file store.old) (I.left input.old) (O.taken out.old))
        (outside (S.file store.new) (I.left input.new) (O.taken out.new))
        (failures (S.faults store.old) (I.faults input.old) (O.faults out.old))
        (failures (S.faults store.new) (I.faults input.new) (O.faults out.new))
        (E.taken err.old) (E.taken err.new) (E.faults err.old) (E.faults err.new)) }
    ensures bad_words { IfOk result (λ e. (place : ℕ) →
        (e.outcome ≡ Outcome.BadWords place) ↔ (order_of (map string_bytes words.now) ≡ Err place)) }
    ensures refused { IfOk result (RefusedRow (map string_bytes words.now)
        (outside (S.file store.old) (I.left input.old) (O.taken out.old))) }
    ensures asm_refused { IfOk result (AsmRefusedRow (map string_bytes words.now)
        (outside (S.file store.old) (I.left input.old) (O.taken out.old))) }
    ensures too_long { IfOk result (TooLongRow (map string_bytes words.now)
        (outside (S.file store.old) (I.left input.old) (O.taken out.old))
        (outside (S.file store.new) (I.left input.new) (O.taken out.new))) }
    ensures bad_image { IfOk result (BadImageRow (map string_bytes words.now)
        (outside (S.file store.old) (I.left input.old) (O.taken out.old))) }
    ensures trap { IfOk result (TrapRow (map string_bytes words.now)
        (outside (S.file store.old) (I.left input.old) (O.taken out.old))
        (outside (S.file store.new) (I.left input.new) (O.taken out.new))) }
    ensures machine_fault { IfOk result (MachineFaultRow (map string_bytes words.now)
        (outside (S.file store.old) (I.left input.old) (O.taken out.old))
        (outside (S.file store.new) (I.left input.new) (O.taken out.new))) }
    ensures out_of_steps { IfOk result (OutOfStepsRow (map string_bytes words.now)
        (outside (S.file store.old) (I.left input.old) (O.taken out.old))
        (outside (S.file store.new) (I.left input.new) (O.taken out.new))) }
    ensures cause { IfOk result (λ e. e.outcome ≢ Outcome.WriteFault → Cause e.outcome
        (failures (S.faults store.old) (I.faults input.old) (O.faults out.old))
        (failures (S.faults store.new) (I.faults input.new) (O.faults out.new))) }
    ensures load_fault { IfOk result (λ e. e.outcome ≡ Outcome.LoadFault →
        Rose (S.faults store.old) (S.faults store.new)) }
    ensures save_fault { IfOk result (λ e. e.outcome ≡ Outcome.SaveFault →
        Rose (S.faults store.old) (S.faults store.new)) }
    ensures read_fault { IfOk result (λ e. e.outcome ≡ Outcome.ReadFault →
        Rose (I.faults input.old) (I.faults input.new)) }
    ensures write_fault { IfOk result (λ e. e.outcome ≡ Outcome.WriteFault →
        Rose (O.faults out.old) (O.faults out.new) ⊎ Rose (E.faults err.old) (E.faults err.new)) }
    ensures done { IfOk result (λ e. (s : ℕ) → e.outcome ≡ Outcome.Done s →
        (S.faults store.new ≡ S.faults store.old) × (I.faults input.new ≡ I.faults input.old) ×
        (O.faults out.new ≡ O.faults out.old) × (E.faults err.new ≡ E.faults err.old)) }
    ensures no_memory { OnErr result (Keeps (E.taken err.old) (E.taken err.new)
        × Unwritten (outside (S.file store.old) (I.left input.old) (O.taken out.old))
        (outside (S.file store.new) (I.left input.new) (O.taken out.new))) }
{
    call::<TickC, S, I, O, E>(alloc, words, store, input, out, err)
}

//! The call that does what the words of a command line say.
ghost use Rattle.std.specs.Prelude.{map, string_bytes, IfOk, OnErr};
ghost use Rattle.std.specs.Io.KnownBytes.{Keeps};
ghost use Rattle.image_commands.specs.Outside.{Unwritten, outside, failures};
ghost use Rattle.image_commands.specs.Does.{Cause};
ghost use Rattle.source_commands.specs.Top.{Performs, Ticked};

use crate::commands::obey;
use crate::language::Language;
use command_words::command_of;
use host_edge::{Sink, Source, Store};
use image_commands::{bare, report};
use std::alloc::{AllocError, Global};
use tick_outcome::{Ended, Outcome};

// Does what the words say.
fn perform<L: Language, S: Store, I: Source, O: Sink>(
    alloc: Global,
    words: &[String],
    store: &mut S,
    input: &mut I,
    out: &mut O,
) -> Result<Ended, AllocError>
    ensures does { IfOk result (Performs (map string_bytes words.now)
        (outside (S.file store.old) (I.left input.old) (O.taken out.old))
        (outside (S.file store.new) (I.left input.new) (O.taken out.new))) }
    ensures cause { IfOk result (λ e. Cause e.outcome
        (failures (S.faults store.old) (I.faults input.old) (O.faults out.old))
        (failures (S.faults store.new) (I.faults input.new) (O.faults out.new))) }
    ensures none { OnErr result (Unwritten
        (outside (S.file store.old) (I.left input.old) (O.taken out.old))
        (outside (S.file store.new) (I.left input.new) (O.taken out.new))) }
{
    match command_of(words) {
        Ok(command) => obey::<L, S, I, O>(alloc, command, store, input, out),
        Err(place) => Ok(bare(alloc, Outcome::BadWords(place))),
    }
}

/// Does what the words of a command line say, word 0 being the name of the program, and reports the outcome on `err`.
/// After want of memory nothing was written or saved.
pub fn call<L: Language, S: Store, I: Source, O: Sink, E: Sink>(
    alloc: Global,
    words: &[String],
    store: &mut S,
    input: &mut I,
    out: &mut O,
    err: &mut E,
) -> Result<Ended, AllocError>
    ensures did { IfOk result (Ticked (map string_bytes words.now)
        (outside (S.file store.old) (I.left input.old) (O.taken out.old))
        (outside (S.file store.new) (I.left input.new) (O.taken out.new))
        (failures (S.faults store.old) (I.faults input.old) (O.faults out.old))
        (failures (S.faults store.new) (I.faults input.new) (O.faults out.new))
        (E.taken err.old) (E.taken err.new) (E.faults err.old) (E.faults err.new)) }
    ensures no_memory { OnErr result (Keeps (E.taken err.old) (E.taken err.new)
        × Unwritten
        (outside (S.file store.old) (I.left input.old) (O.taken out.old))
        (outside (S.file store.new) (I.left input.new) (O.taken out.new))) }
{
    let mut ended = perform::<L, S, I, O>(alloc, words, store, input, out)?;
    ended.outcome = report(err, words, &ended);
    Ok(ended)
}

//! The command that evaluates the meaning of a text.
ghost use Rattle.std.specs.Prelude.{◌≡◌, ◌≤◌, ℕ, length, IfOk, OnErr};
ghost use Rattle.std.specs.Option.{option_map};
ghost use Rattle.std.specs.Io.KnownBytes.{Keeps};
ghost use Rattle.history.specs.Events as event;
ghost use Rattle.staged_meaning.specs.Meaning.{Program};
ghost use Rattle.limits.specs.declared.text.TheConstants.{LONGEST_TEXT};
ghost use Rattle.source_commands.specs.Texts.{Means};
ghost use Rattle.image_commands.specs.Outside.{Files, Failures, SameFiles, outside, failures};
ghost use Rattle.image_commands.specs.Does.{IsOfCommand, Cause, Answered};
ghost use Rattle.source_commands.specs.Does.{WithProgram, MeansProgram, MeansFile, Evaluates};
ghost use Rattle.image_commands.specs.Seen.{outcome_at};

use crate::accepted::typed_tree;
use crate::language::Language;
use host_edge::{Ending, Sink, Source, Store, write_whole};
use image_commands::bare;
use limits::text::LONGEST_TEXT;
use std::alloc::{AllocError, Global};
use std::mem::forget;
use tick_outcome::{Ended, Outcome};
use tick_tree::Deny;
use wellformed::Typed;
use whole_files::{InputRead, Loaded, load, read_input};

// The outcome of an evaluation within so many units of work.
fn outcome_of(units: u64, ending: Option<Ending>) -> Outcome
    ensures is { result ≡ outcome_at units (option_map event.Ended ending) }
    ensures words { IsOfCommand result }
    ensures cause { (old new : Failures) → new ≡ old → Cause result old new }
{
    match ending {
        Some(Ending::Done(status)) => Outcome::Done(status),
        Some(Ending::Trap(kind)) => Outcome::Trap(kind),
        None => Outcome::OutOfSteps(units),
    }
}

// Evaluates a program on an input, and writes what it puts out.
fn mean_on<L: Language, O: Sink>(
    alloc: Global,
    tree: &Typed,
    input: &[u8],
    units: u64,
    out: &mut O,
) -> Result<Ended, AllocError>
    ensures evaluates { IfOk result (λ e. (program : Program) → Means tree.now program
        → Evaluates units program (O.taken out.old) (O.taken out.new) e input.now) }
    ensures words { IfOk result (λ e. IsOfCommand e.outcome) }
    ensures cause { IfOk result (λ e. (m n : ℕ) → Cause e.outcome
        (failures m n (O.faults out.old))
        (failures m n (O.faults out.new))) }
    ensures none { OnErr result (Keeps (O.taken out.old) (O.taken out.new)) }
{
    let evaluated = L::evaluate(alloc, tree, input, units)?;
    let outcome = outcome_of(units, evaluated.ending);
    match write_whole(out, evaluated.output.as_slice()) {
        Ok(()) => Ok(bare(alloc, outcome)),
        Err(_) => Ok(bare(alloc, Outcome::WriteFault)),
    }
}

// Reads the input, and evaluates a program on it.
fn mean_program<L: Language, I: Source, O: Sink>(
    alloc: Global,
    tree: &Typed,
    units: u64,
    input: &mut I,
    out: &mut O,
) -> Result<Ended, AllocError>
    ensures means { IfOk result (λ e. (program : Program) → Means tree.now program → (old new : Files)
        → MeansProgram units
        (outside old (I.left input.old) (O.taken out.old))
        (outside new (I.left input.new) (O.taken out.new)) e program) }
    ensures words { IfOk result (λ e. IsOfCommand e.outcome) }
    ensures cause { IfOk result (λ e. (n : ℕ) → Cause e.outcome
        (failures n (I.faults input.old) (O.faults out.old))
        (failures n (I.faults input.new) (O.faults out.new))) }
    ensures none { OnErr result (Keeps (O.taken out.old) (O.taken out.new)) }
{
    match read_input(alloc, input)? {
        InputRead::WholeInput(bytes) => mean_on::<L, O>(alloc, tree, &bytes, units, out),
        InputRead::TooLongInput => Ok(bare(alloc, Outcome::TooLong)),
        InputRead::FailedInput => Ok(bare(alloc, Outcome::ReadFault)),
    }
}

// Checks a text, reads the input, and evaluates the program on it.
fn mean_text<L: Language, I: Source, O: Sink>(
    alloc: Global,
    text: &[u8],
    units: u64,
    input: &mut I,
    out: &mut O,
) -> Result<Ended, AllocError>
    requires { length text.now ≤ LONGEST_TEXT }
    ensures means { IfOk result (λ e. (old new : Files) → SameFiles old new → WithProgram
        (Answered (outside old (I.left input.old) (O.taken out.old))
        (outside new (I.left input.new) (O.taken out.new)) e)
        (MeansProgram units (outside old (I.left input.old) (O.taken out.old))
        (outside new (I.left input.new) (O.taken out.new)) e) text.now) }
    ensures words { IfOk result (λ e. IsOfCommand e.outcome) }
    ensures cause { IfOk result (λ e. (n : ℕ) → Cause e.outcome
        (failures n (I.faults input.old) (O.faults out.old))
        (failures n (I.faults input.new) (O.faults out.new))) }
    ensures none { OnErr result (Keeps (O.taken out.old) (O.taken out.new)) }
{
    match typed_tree::<L>(alloc, text) {
        Ok(tree) => {
            let ended = mean_program::<L, I, O>(alloc, &tree, units, input, out);
            forget(tree);
            ended
        }
        Err(Deny::Refused(fault)) => Ok(bare(alloc, Outcome::Refused(fault))),
        Err(Deny::NoMemory) => Err(AllocError),
    }
}

/// `mean FILE`: evaluates the text of the file on the whole input, for at most so many units of work, and then writes
/// what it puts out.
pub fn mean_file<L: Language, S: Store, I: Source, O: Sink>(
    alloc: Global,
    file: &str,
    units: u64,
    store: &mut S,
    input: &mut I,
    out: &mut O,
) -> Result<Ended, AllocError>
    ensures means { IfOk result (MeansFile file.now units
        (outside (S.file store.old) (I.left input.old) (O.taken out.old))
        (outside (S.file store.new) (I.left input.new) (O.taken out.new))) }
    ensures same { SameFiles (S.file store.old) (S.file store.new) }
    ensures words { IfOk result (λ e. IsOfCommand e.outcome) }
    ensures cause { IfOk result (λ e. Cause e.outcome
        (failures (S.faults store.old) (I.faults input.old) (O.faults out.old))
        (failures (S.faults store.new) (I.faults input.new) (O.faults out.new))) }
    ensures none { OnErr result (Keeps (O.taken out.old) (O.taken out.new)) }
{
    match load(alloc, store, file, LONGEST_TEXT)? {
        Loaded::Whole(text) => mean_text::<L, I, O>(alloc, &text, units, input, out),
        Loaded::TooLongFile => Ok(bare(alloc, Outcome::TooLong)),
        Loaded::FailedFile => Ok(bare(alloc, Outcome::LoadFault)),
    }
}

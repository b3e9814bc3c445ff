//! What `run` and `build` do, and which call serves each command.
ghost use Rattle.std.specs.Prelude.{◌≤◌, ◌^◌, ℕ, IfOk, OnErr};
ghost use Rattle.command_words.specs.Orders.{ordered, steps_in};
ghost use Rattle.image_commands.specs.Outside.{SameFiles, Unwritten, outside, failures};
ghost use Rattle.image_commands.specs.Does.{IsOfCommand, Cause};
ghost use Rattle.source_commands.specs.Does.{RunsFile, BuildsFile};
ghost use Rattle.source_commands.specs.Generated.{Fulfils};

use crate::language::Language;
use crate::load::image_of_text;
use crate::means::mean_file;
use command_words::Command;
use host_edge::{Sink, Source, Store};
use image_commands::{
    Front, assemble_file, bare, disassemble_file, exec_file, run_image, save_image, write_source,
};
use std::alloc::{AllocError, Global};
use tick_outcome::Ended;

// `run FILE`
fn run_file<L: Language, S: Store, I: Source, O: Sink>(
    alloc: Global,
    file: &str,
    steps: u64,
    store: &mut S,
    input: &mut I,
    out: &mut O,
) -> Result<Ended, AllocError>
    requires { steps ≤ 2 ^ 40 }
    ensures does { IfOk result (RunsFile file.now steps
        (outside (S.file store.old) (I.left input.old) (O.taken out.old))
        (outside (S.file store.new) (I.left input.new) (O.taken out.new))) }
    ensures words { IfOk result (λ e. IsOfCommand e.outcome) }
    ensures cause { IfOk result (λ e. Cause e.outcome
        (failures (S.faults store.old) (I.faults input.old) (O.faults out.old))
        (failures (S.faults store.new) (I.faults input.new) (O.faults out.new))) }
    ensures none { OnErr result (Unwritten
        (outside (S.file store.old) (I.left input.old) (O.taken out.old))
        (outside (S.file store.new) (I.left input.new) (O.taken out.new))) }
{
    match image_of_text::<L, S>(alloc, store, file)? {
        Front::Found(image) => run_image(alloc, image, steps, input, out),
        Front::Instead(outcome) => Ok(bare(alloc, outcome)),
    }
}

// `build FILE IMAGE`
fn build_file<L: Language, S: Store>(
    alloc: Global,
    file: &str,
    path: &str,
    store: &mut S,
) -> Result<Ended, AllocError>
    ensures does { IfOk result (BuildsFile file.now path.now (S.file store.old) (S.file store.new)) }
    ensures words { IfOk result (λ e. IsOfCommand e.outcome) }
    ensures cause { IfOk result (λ e. (m n : ℕ) → Cause e.outcome
        (failures (S.faults store.old) m n)
        (failures (S.faults store.new) m n)) }
    ensures none { OnErr result (SameFiles (S.file store.old) (S.file store.new)) }
{
    match image_of_text::<L, S>(alloc, store, file)? {
        Front::Found(image) => save_image(alloc, &image, path, store),
        Front::Instead(outcome) => Ok(bare(alloc, outcome)),
    }
}

/// Does what a command says.
pub fn obey<L: Language, S: Store, I: Source, O: Sink>(
    alloc: Global,
    command: Command<'_>,
    store: &mut S,
    input: &mut I,
    out: &mut O,
) -> Result<Ended, AllocError>
    requires { steps_in command ≤ 2 ^ 40 }
    ensures does { IfOk result (Fulfils (ordered command.entry)
        (outside (S.file store.old) (I.left input.old) (O.taken out.old))
        (outside (S.file store.new) (I.left input.new) (O.taken out.new))) }
    ensures words { IfOk result (λ e. IsOfCommand e.outcome) }
    ensures cause { IfOk result (λ e. Cause e.outcome
        (failures (S.faults store.old) (I.faults input.old) (O.faults out.old))
        (failures (S.faults store.new) (I.faults input.new) (O.faults out.new))) }
    ensures none { OnErr result (Unwritten
        (outside (S.file store.old) (I.left input.old) (O.taken out.old))
        (outside (S.file store.new) (I.left input.new) (O.taken out.new))) }
{
    match command {
        Command::Run(file, steps) => run_file::<L, S, I, O>(alloc, file, steps, store, input, out),
        Command::Exec(file, steps) => exec_file(alloc, file, steps, store, input, out),
        Command::Mean(file, units) => mean_file::<L, S, I, O>(
            alloc, file, units, store, input, out,
        ),
        Command::Build(file, path) => build_file::<L, S>(alloc, file, path, store),
        Command::Asm(file, path) => assemble_file(alloc, file, path, store),
        Command::Dis(file) => disassemble_file(alloc, file, store, out),
        Command::Gen(number) => write_source(alloc, number, out),
    }
}

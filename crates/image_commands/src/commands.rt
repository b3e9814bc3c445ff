//! The commands on images and assembly texts.
ghost use Rattle.std.specs.Prelude.{◌≤◌, ◌^◌, ℕ, IfOk, OnErr};
ghost use Rattle.std.specs.Io.KnownBytes.{Keeps};
ghost use Rattle.image_commands.specs.Outside.{SameFiles, Unwritten, outside, failures};
ghost use Rattle.image_commands.specs.Does.{IsOfCommand, Cause, ExecutesFile, AssemblesFile, PrintsFile};

use crate::ended::{Front, bare};
use crate::images::{run_image, save_image, write_text};
use crate::load::{image_of_assembly, image_of_file};
use host_edge::{Sink, Source, Store};
use std::alloc::{AllocError, Global};
use tick_outcome::Ended;

/// `exec IMAGE`: runs the image for at most so many instructions.
pub fn exec_file<S: Store, I: Source, O: Sink>(
    alloc: Global,
    file: &str,
    steps: u64,
    store: &mut S,
    input: &mut I,
    out: &mut O,
) -> Result<Ended, AllocError>
    requires { steps ≤ 2 ^ 40 }
    ensures does { IfOk result (ExecutesFile file.now steps
        (outside (S.file store.old) (I.left input.old) (O.taken out.old))
        (outside (S.file store.new) (I.left input.new) (O.taken out.new))) }
    ensures words { IfOk result (λ e. IsOfCommand e.outcome) }
    ensures cause { IfOk result (λ e. Cause e.outcome
        (failures (S.faults store.old) (I.faults input.old) (O.faults out.old))
        (failures (S.faults store.new) (I.faults input.new) (O.faults out.new))) }
    ensures none { OnErr result (Unwritten
        (outside (S.file store.old) (I.left input.old) (O.taken out.old))
        (outside (S.file store.new) (I.left input.new) (O.taken out.new))) }
{
    match image_of_file(alloc, store, file)? {
        Front::Found(image) => run_image(alloc, image, steps, input, out),
        Front::Instead(outcome) => Ok(bare(alloc, outcome)),
    }
}

/// `asm FILE IMAGE`: saves the image that the assembly text is.
pub fn assemble_file<S: Store>(
    alloc: Global,
    file: &str,
    path: &str,
    store: &mut S,
) -> Result<Ended, AllocError>
    ensures does { IfOk result (AssemblesFile file.now path.now (S.file store.old) (S.file store.new)) }
    ensures words { IfOk result (λ e. IsOfCommand e.outcome) }
    ensures cause { IfOk result (λ e. (m n : ℕ) → Cause e.outcome
        (failures (S.faults store.old) m n) (failures (S.faults store.new) m n)) }
    ensures none { OnErr result (SameFiles (S.file store.old) (S.file store.new)) }
{
    match image_of_assembly(alloc, store, file)? {
        Front::Found(image) => save_image(alloc, &image, path, store),
        Front::Instead(outcome) => Ok(bare(alloc, outcome)),
    }
}

/// `dis IMAGE`: writes the assembly text of the image.
pub fn disassemble_file<S: Store, O: Sink>(
    alloc: Global,
    file: &str,
    store: &mut S,
    out: &mut O,
) -> Result<Ended, AllocError>
    ensures does { IfOk result (PrintsFile (S.file store.old file.now) (O.taken out.old) (O.taken out.new)) }
    ensures words { IfOk result (λ e. IsOfCommand e.outcome) }
    ensures cause { IfOk result (λ e. (n : ℕ) → Cause e.outcome
        (failures (S.faults store.old) n (O.faults out.old)) (failures (S.faults store.new) n (O.faults out.new))) }
    ensures same { SameFiles (S.file store.old) (S.file store.new) }
    ensures none { OnErr result (Keeps (O.taken out.old) (O.taken out.new)) }
{
    match image_of_file(alloc, store, file)? {
        Front::Found(image) => Ok(write_text(alloc, &image, out)),
        Front::Instead(outcome) => Ok(bare(alloc, outcome)),
    }
}

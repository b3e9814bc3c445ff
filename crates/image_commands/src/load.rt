//! The images that files hold or that assembly texts are.
ghost use Rattle.std.specs.Prelude.{IfOk};
ghost use Rattle.image_commands.specs.Outside.{SameFiles};
ghost use Rattle.image_commands.specs.Answers.{IsFront, FrontCause, IsAssembled, IsAsmRefused, IsRead, IsNoImage};

use crate::ended::Front;
use host_edge::Store;
use image_file::{ImageDeny, read};
use limits::text::{LONGEST_IMAGE, LONGEST_TEXT};
use mips_text::{AsmDeny, assemble};
use std::alloc::{AllocError, Global};
use tick_outcome::Outcome;
use whole_files::{Loaded, load};

/// The image that the assembly text in a file is, or the outcome in its place.
pub fn image_of_assembly<S: Store>(
    alloc: Global,
    store: &mut S,
    file: &str,
) -> Result<Front, AllocError>
    ensures front { IfOk result (IsFront (S.file store.old file.now) LONGEST_TEXT IsAssembled IsAsmRefused) }
    ensures same { SameFiles (S.file store.old) (S.file store.new) }
    ensures cause { IfOk result (FrontCause (S.faults store.old) (S.faults store.new)) }
{
    match load(alloc, store, file, LONGEST_TEXT)? {
        Loaded::Whole(text) => match assemble(alloc, &text) {
            Ok(image) => Ok(Front::Found(image)),
            Err(AsmDeny::Refused(fault)) => Ok(Front::Instead(Outcome::AsmRefused(fault))),
            Err(AsmDeny::NoMemory) => Err(AllocError),
        },
        Loaded::TooLongFile => Ok(Front::Instead(Outcome::TooLong)),
        Loaded::FailedFile => Ok(Front::Instead(Outcome::LoadFault)),
    }
}

/// The image in a file, or the outcome in its place.
pub fn image_of_file<S: Store>(
    alloc: Global,
    store: &mut S,
    file: &str,
) -> Result<Front, AllocError>
    ensures front { IfOk result (IsFront (S.file store.old file.now) LONGEST_IMAGE IsRead IsNoImage) }
    ensures same { SameFiles (S.file store.old) (S.file store.new) }
    ensures cause { IfOk result (FrontCause (S.faults store.old) (S.faults store.new)) }
{
    match load(alloc, store, file, LONGEST_IMAGE)? {
        Loaded::Whole(bytes) => match read(alloc, &bytes) {
            Ok(image) => Ok(Front::Found(image)),
            Err(ImageDeny::Bad(fault)) => Ok(Front::Instead(Outcome::BadImage(fault))),
            Err(ImageDeny::NoMemory) => Err(AllocError),
        },
        Loaded::TooLongFile => Ok(Front::Instead(Outcome::TooLong)),
        Loaded::FailedFile => Ok(Front::Instead(Outcome::LoadFault)),
    }
}

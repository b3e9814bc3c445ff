//! The image that the text in a file stands for.
ghost use Rattle.std.specs.Prelude.{IfOk};
ghost use Rattle.image_commands.specs.Outside.{SameFiles};
ghost use Rattle.image_commands.specs.Answers.{IsFront, FrontCause};
ghost use Rattle.source_commands.specs.Answers.{IsBuilt, IsRefused};

use crate::accepted::build;
use crate::language::Language;
use host_edge::Store;
use image_commands::Front;
use limits::text::LONGEST_TEXT;
use std::alloc::{AllocError, Global};
use tick_outcome::Outcome;
use tick_tree::Deny;
use whole_files::{Loaded, load};

/// The image of the text in a file, or the outcome in its place: the file can't be loaded, or is too long, or the text
/// is refused for its first static fault.
pub fn image_of_text<L: Language, S: Store>(
    alloc: Global,
    store: &mut S,
    file: &str,
) -> Result<Front, AllocError>
    ensures front { IfOk result (IsFront (S.file store.old file.now) LONGEST_TEXT IsBuilt IsRefused) }
    ensures same { SameFiles (S.file store.old) (S.file store.new) }
    ensures cause { IfOk result (FrontCause (S.faults store.old) (S.faults store.new)) }
{
    match load(alloc, store, file, LONGEST_TEXT)? {
        Loaded::Whole(text) => match build::<L>(alloc, &text) {
            Ok(image) => Ok(Front::Found(image)),
            Err(Deny::Refused(fault)) => Ok(Front::Instead(Outcome::Refused(fault))),
            Err(Deny::NoMemory) => Err(AllocError),
        },
        Loaded::TooLongFile => Ok(Front::Instead(Outcome::TooLong)),
        Loaded::FailedFile => Ok(Front::Instead(Outcome::LoadFault)),
    }
}

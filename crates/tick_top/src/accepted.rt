//! The typed tree of a text, its image and its image file.
ghost use Rattle.std.specs.Prelude.{◌≤◌, length, IfOk};
ghost use Rattle.tick_tree.specs.Faults.{Checks};
ghost use Rattle.staged_meaning.specs.Meaning.{Program};
ghost use Rattle.source_commands.specs.Texts as spec;
ghost use Rattle.source_commands.specs.Texts.{Builds};
ghost use Rattle.source_commands.specs.Saved.{Saves};
ghost use Rattle.limits.specs.declared.text.TheConstants.{LONGEST_TEXT};

use crate::language::TickC;
use image_file::Image;
use std::alloc::Global;
use tick_tree::Deny;
use wellformed::Typed;

/// The typed tree of a text of at most 1,048,576 bytes, or its first static fault. It is a program, which has a meaning.
pub fn typed_tree(alloc: Global, text: &[u8]) -> Result<Typed, Deny>
    requires { length text.now ≤ LONGEST_TEXT }
    ensures tree { Checks result (spec.typed_tree text.now) }
    ensures program { IfOk result (λ tree. (program : Program) × spec.Means tree program) }
{
    source_commands::typed_tree::<TickC>(alloc, text)
}

/// The image of a text of at most 1,048,576 bytes, or its first static fault. The headline holds for the image: the
/// machine does on every input what the text means, at the pace, and ends only so.
pub fn build(alloc: Global, text: &[u8]) -> Result<Image, Deny>
    requires { length text.now ≤ LONGEST_TEXT }
    ensures built { IfOk result (λ image. Builds text.now image) }
    ensures refused { spec.Refuses (spec.typed_tree text.now) result }
{
    source_commands::build::<TickC>(alloc, text)
}

/// The bytes of the image file of a text of at most 1,048,576 bytes, or the text's first static fault. They are the one
/// spelling of the image that `build` gives, so the headline holds for what is read from them.
///
/// # Errors
/// `Refused` exactly for the text's first static fault, and `NoMemory` where memory was not found.
pub fn build_file(alloc: Global, text: &[u8]) -> Result<Vec<u8>, Deny>
    requires { length text.now ≤ LONGEST_TEXT }
    ensures saved { IfOk result (λ bytes. Saves text.now bytes.items) }
    ensures refused { spec.Refuses (spec.typed_tree text.now) result }
{
    source_commands::build_file::<TickC>(alloc, text)
}

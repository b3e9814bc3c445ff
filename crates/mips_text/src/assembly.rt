//! The image of a text.

ghost use Rattle.std.specs.Prelude.{◌≡◌, ◌<◌, ◌≤◌, length};
ghost use Rattle.asm_passes.specs.Parts as parts;
ghost use Rattle.mips_text.specs.Assembly as spec;
ghost use Rattle.mips_text.specs.Gathered.{image_in};
ghost use Rattle.limits.specs.declared.text.TheConstants.{LONGEST_TEXT};

use asm_passes::{AsmDeny, gathered};
use image_file::{FunctionEntry, Image};
use std::alloc::Global;
use word32::map::TEXT;

// The image of what all lines gave, of which at least one gave a word.
fn image_of(
    entry: Option<u32>,
    text: Vec<u32>,
    bytes: Vec<u8>,
    functions: Vec<FunctionEntry>,
) -> Image
    requires some { 0 < length text.items }
    requires small { length text.items ≤ LONGEST_TEXT }
    requires sound { parts.AreSound (length text.items)
        (parts.gathered_of entry text.items bytes.items functions.items) }
    ensures { result ≡ image_in (parts.gathered_of entry text.items bytes.items functions.items) }
{
    Image::new(entry.unwrap_or(TEXT), text, bytes, functions)
}

/// The image that a text is. The text has at most 1,048,576 bytes; this is a condition. It is read twice: once for its
/// labels and its words, and once for the image.
///
/// # Errors
/// `Refused` exactly where a line of the text has a fault, with the first one: the first line that has one, and on this
/// line the fault with the lowest number. A text without a line that gives a word has the fault `BadLine` in line 1.
/// `NoMemory` where memory was not found.
#[tactic(auto, using(crate::proofs::Images::refused), unfolding(crate::specs::Assembly::assembled))]
pub fn assemble(alloc: Global, text: &[u8]) -> Result<Image, AsmDeny>
    requires { length text.now ≤ LONGEST_TEXT }
    ensures { spec.Answers (spec.assembled text.now) result }
{
    let parts = gathered(alloc, text)?;
    Ok(image_of(parts.entry, parts.text, parts.bytes, parts.functions))
}

//! Words of an image's text.

ghost use Rattle.std.specs.Prelude.{◌≡◌, ℕ, ◌+◌, ◌*◌, ◌++◌, ◌<◌, ◌≤◌, false, IfOk, OnOk, length, drop};
ghost use Rattle.icode_ops.specs.Finished.{IsFinished};
ghost use Rattle.icode_templates.specs.Expansion.{expanded};
ghost use Rattle.static_image.specs.Layout.{front};
ghost use Rattle.limits.specs.declared.ops.TheConstants.{OP_LIMIT as LABELS};
ghost use Rattle.limits.specs.declared.program.TheConstants.{MOST_FUNCTIONS};
ghost use Rattle.word32.specs.declared.map.TheConstants.{ARENA, OBJECT_BYTES, SEGMENT_BYTES, STACK_BYTES};

use icode_expand::{expand, words_are_few};
use icode_ops::Op;
use limits::ops::{FRAME_WORDS, OP_WORDS};
use runtime_routines::routines;
use static_image::write_start;
use std::alloc::{AllocError, Global};

// How many words the block of the start has.
const BLOCK_WORDS: usize = 64;

/// So many zeros.
///
/// # Errors
/// Where memory is wanting.
pub fn zeros(alloc: Global, count: usize) -> Result<Vec<u32>, AllocError>
    ensures { IfOk result (λ made. length made.items ≡ count) }
{
    vec![in alloc; 0u32; count]
}

/// The words in front of the functions, with the address of main's first word and how many functions there are.
///
/// # Errors
/// Where memory is wanting.
pub fn front_words(alloc: Global, main: u32, functions: u32) -> Result<Vec<u32>, AllocError>
    requires main { main < SEGMENT_BYTES }
    requires functions { functions ≤ MOST_FUNCTIONS }
    ensures { IfOk result (λ made. made.items ≡ front main functions) }
{
    let mut made = zeros(alloc, BLOCK_WORDS)?;
    write_start(&mut made, main, functions);
    let blocks = routines(alloc)?;
    made.extend_from_slice(blocks.as_slice())?;
    Ok(made)
}

/// Adds the words of a function from an address on: its ops' expansion under these places. `frame` is how many bytes it
/// takes from the stack, `object` how many its frame's objects have, and `labels` has room for the labels' addresses.
///
/// # Errors
/// Where memory is wanting.
pub fn add_words(
    labels: &mut [u32],
    ops: &[Op],
    places: &[u8],
    at: u32,
    frame: u32,
    object: u32,
    words: &mut Vec<u32>,
) -> Result<(), AllocError>
    requires labels { length labels.old ≡ LABELS }
    requires finished { (n : ℕ) × IsFinished ops.now n }
    requires low { at ≤ ARENA }
    requires frame { frame ≤ STACK_BYTES }
    requires object { object ≤ OBJECT_BYTES }
    ensures { OnOk result (words.new.items ≡ words.old.items ++ expanded ops.now places.now at frame object false) }
{
    let filled = words.len();
    words.resize(filled + (OP_WORDS * ops.len() + FRAME_WORDS), 0)?;
    words_are_few();
    let out = words.slice_mut(filled..);
    match expand(ops, places, at, frame, object, false, labels, out) {
        Ok(count) => {
            words.truncate(filled + count);
            Ok(())
        }
        Err(_) => unreachable!(),
    }
}

/// Writes the words of a function from an address on to the front of `out`, which has room for them: its ops' expansion
/// under these places. The rest is the same as for `add_words`.
pub fn write_words(
    labels: &mut [u32],
    ops: &[Op],
    places: &[u8],
    at: u32,
    frame: u32,
    object: u32,
    out: &mut [u32],
)
    requires labels { length labels.old ≡ LABELS }
    requires finished { (n : ℕ) × IsFinished ops.now n }
    requires range { at + 4 * length out.old ≤ SEGMENT_BYTES }
    requires frame { frame ≤ STACK_BYTES }
    requires object { object ≤ OBJECT_BYTES }
    requires room { length (expanded ops.now places.now at frame object false) ≤ length out.old }
    ensures { let words = expanded ops.now places.now at frame object false in
        out.new ≡ words ++ drop (length words) out.old }
{
    match expand(ops, places, at, frame, object, false, labels, out) {
        Ok(_) => {}
        Err(_) => unreachable!(),
    }
}

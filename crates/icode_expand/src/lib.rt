//! The expansion of a list of ops of the intermediate code to the words of a function: its prologue, the templates of
//! the ops, and its epilogue.
#![tactic(auto)]

ghost use Rattle.std.specs.Prelude.{◌≡◌, ℕ, ◌+◌, ◌*◌, ◌++◌, ◌<◌, ◌≤◌, length, drop, MatchResult};
ghost use Rattle.word32.specs.declared.map.TheConstants.{OBJECT_BYTES, SEGMENT_BYTES, STACK_BYTES};
ghost use Rattle.icode_ops.specs.Finished.{Below, IsFinished};
ghost use Rattle.icode_ops.specs.Flow.{label_of, op_at};
ghost use Rattle.icode_templates.specs.Expansion.{expanded};

mod counts;
mod frame;
mod labels;
mod laws;
mod output;
mod saved;

use crate::counts::ops_words;
use crate::frame::Frame;
use crate::labels::place_labels;
pub use crate::laws::{lengths_are_fixed, templates_are_short, words_are_few};
use crate::output::{append, write_ops};
use icode_ops::Op;
use icode_saves::Saved;
use icode_templates::Layout;
use thiserror::Error;

/// The words are more than there is room for.
#[derive(Clone, Copy, Debug, PartialEq, Eq, Drop, Error)]
#[error("the words are more than there is room for")]
pub struct Short;

/// How many words `expand` makes of a function: of these ops, with these places of their registers, bytes of the frame
/// and bytes of its objects, a compiled one or not. Where it is to stand makes no difference. No memory is taken, and
/// the cost is linear in the ops and the places.
pub fn expanded_length(ops: &[Op], places: &[u8], frame: u32, object: u32, compiled: bool) -> usize
    requires finished { (n : ℕ) × IsFinished ops.now n }
    requires frame { frame ≤ STACK_BYTES }
    ensures { (at : ℕ) → result ≡ length (expanded ops.now places.now at frame object compiled) }
{
    let layout = Layout {
        places,
        frame,
        objects: object,
    };
    let shape = Frame {
        bytes: frame,
        objects: object,
        saved: Saved::of(places),
        compiled,
    };
    shape.prologue().len() + ops_words(ops, &layout) + shape.epilogue().len()
}

/// Writes the words of a function to the front of `out`, and gives how many they are.
///
/// `ops` is a finished list of ops, `places` has the place of each of its registers (a number below 12 for a register
/// of the machine, 12 for a slot), and `at` is the address of the first word. `frame` is how many bytes the function
/// takes from the stack, and `object` how many its frame's objects have. A compiled function counts its active calls.
///
/// The error comes exactly where the words are more than `out` has room for, and then `out` is as it was. `labels` is
/// room for the addresses of labels, a word for each label that stands in the ops; what it holds afterwards means
/// nothing. No memory is taken, and the cost is linear in the ops and the places.
pub fn expand(
    ops: &[Op],
    places: &[u8],
    at: u32,
    frame: u32,
    object: u32,
    compiled: bool,
    labels: &mut [u32],
    out: &mut [u32],
) -> Result<usize, Short>
    requires finished { (n : ℕ) × IsFinished ops.now n }
    requires labels { (p : ℕ) → Below (length labels.old) (label_of (op_at ops.now p)) }
    requires range { at + 4 * length out.old ≤ SEGMENT_BYTES }
    requires frame { frame ≤ STACK_BYTES }
    requires object { object ≤ OBJECT_BYTES }
    ensures { let words = expanded ops.now places.now at frame object compiled in MatchResult result
        (λ n. (n ≡ length words) × (n ≤ length out.old) × (out.new ≡ words ++ drop n out.old))
        (λ _. (length out.old < length words) × (out.new ≡ out.old)) }
{
    let layout = Layout {
        places,
        frame,
        objects: object,
    };
    let shape = Frame {
        bytes: frame,
        objects: object,
        saved: Saved::of(places),
        compiled,
    };
    let first = shape.prologue();
    let last = shape.epilogue();
    let start = at + 4 * first.len() as u32;
    let end = place_labels(ops, &layout, start, labels);
    let body = ((end - start) / 4) as usize;
    if first.len() + body + last.len() > out.len() {
        return Err(Short);
    }
    let entered = append(out, 0, first.words());
    let left = write_ops(ops, &layout, labels, end, out, entered);
    Ok(append(out, left, last.words()))
}

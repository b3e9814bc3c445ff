//! The words of a list of ops, one behind another.

ghost use Rattle.std.specs.Prelude.{◌≡◌, ℕ, ◌+◌, ◌<◌, ◌≤◌, length};
ghost use Rattle.limits.specs.declared.ops.TheConstants.{MOST_SLOTS};
ghost use Rattle.word32.specs.declared.map.TheConstants.{OBJECT_BYTES, SEGMENT_BYTES, STACK_BYTES};
ghost use Rattle.icode_ops.specs.Finished.{InRange, IsFinished};
ghost use Rattle.icode_templates.specs.Layout.{laid};
ghost use Rattle.icode_templates.specs.Templates.{template, Aim};
ghost use Rattle.icode_templates.specs.Words.{words as words_of};
ghost use Rattle.icode_templates.specs.Expansion.{nowhere, templates};
ghost use Rattle.icode_expand.specs.Labels.{IsTable, spliced};

use crate::labels::target;
use icode_ops::Op;
use icode_templates::{Layout, Snippet};

/// Writes words behind those that are filled, and gives how many are filled then.
pub(crate) fn append(out: &mut [u32], filled: usize, words: &[u32]) -> usize
    requires { filled + length words.now ≤ length out.old }
    ensures words { out.new ≡ spliced out.old filled words.now }
    ensures filled { result ≡ filled + length words.now }
{
    let end = filled + words.len();
    out[filled..end].copy_from_slice(words);
    end
}

// Writes the template of an op that goes to an address.
#[tactic(auto, using(crate::proofs::Lengths::length_words, crate::proofs::Lengths::template_length))]
fn write_op(
    code: &mut Snippet,
    op: Op,
    layout: &Layout,
    address: u32,
    out: &mut [u32],
    filled: usize,
) -> usize
    requires registers { InRange MOST_SLOTS op }
    requires frame { layout.now.frame ≤ STACK_BYTES }
    requires objects { layout.now.objects ≤ OBJECT_BYTES }
    requires address { address < SEGMENT_BYTES }
    requires room { filled +
        length (template (laid layout.now.places.now layout.now.frame layout.now.objects) nowhere op) ≤ length out.old }
    ensures words { out.new ≡ spliced out.old filled
        (words_of (template (laid layout.now.places.now layout.now.frame layout.now.objects) (λ aim. address) op)) }
    ensures filled { result ≡ filled +
        length (template (laid layout.now.places.now layout.now.frame layout.now.objects) nowhere op) }
{
    code.clear();
    code.add_op(op, layout, address);
    append(out, filled, code.words())
}

/// Writes the templates of ops behind the words that are filled, with the addresses of the table and of the epilogue,
/// and gives how many words are filled then.
pub(crate) fn write_ops(
    ops: &[Op],
    layout: &Layout,
    labels: &[u32],
    epilogue: u32,
    out: &mut [u32],
    filled: usize,
) -> usize
    requires finished { (n : ℕ) × IsFinished ops.now n }
    requires table { (address : Aim → ℕ) × IsTable address ops.now labels.now epilogue }
    requires frame { layout.now.frame ≤ STACK_BYTES }
    requires objects { layout.now.objects ≤ OBJECT_BYTES }
    requires epilogue { epilogue < SEGMENT_BYTES }
    requires room { filled +
        length (templates (laid layout.now.places.now layout.now.frame layout.now.objects) nowhere ops.now)
        ≤ length out.old }
    ensures words { (address : Aim → ℕ) → IsTable address ops.now labels.now epilogue →
        out.new ≡ spliced out.old filled
        (words_of (templates (laid layout.now.places.now layout.now.frame layout.now.objects) address ops.now)) }
    ensures filled { result ≡ filled +
        length (templates (laid layout.now.places.now layout.now.frame layout.now.objects) nowhere ops.now) }
{
    let mut code = Snippet::new();
    let mut end = filled;
    for op in ops {
        end = write_op(
            &mut code,
            *op,
            layout,
            target(op, labels, epilogue),
            out,
            end,
        );
    }
    end
}

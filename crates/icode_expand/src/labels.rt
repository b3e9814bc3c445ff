//! The addresses of labels.

ghost use Rattle.std.specs.Prelude.{◌≡◌, ℕ, ◌+◌, ◌*◌, ◌<◌, ◌≤◌, length, slice_index, Some};
ghost use Rattle.limits.specs.declared.ops.TheConstants.{MOST_SLOTS};
ghost use Rattle.word32.specs.declared.map.TheConstants.{OBJECT_BYTES, STACK_BYTES};
ghost use Rattle.icode_ops.specs.Finished.{InRange, Below, IsFinished};
ghost use Rattle.icode_ops.specs.Flow.{goes_to, label_of, op_at};
ghost use Rattle.icode_templates.specs.Layout.{laid};
ghost use Rattle.icode_templates.specs.Templates.{template};
ghost use Rattle.icode_templates.specs.Expansion.{nowhere, templates, aims};
ghost use Rattle.icode_expand.specs.Labels.{IsTable, with_label, target_of};

use crate::counts::op_words;
use icode_ops::Op;
use icode_templates::Layout;

// Notes the address of an op where it is a label, and gives the address behind the op.
fn place_op(op: &Op, layout: &Layout, address: u32, labels: &mut [u32]) -> u32
    requires registers { InRange MOST_SLOTS op.now }
    requires frame { layout.now.frame ≤ STACK_BYTES }
    requires objects { layout.now.objects ≤ OBJECT_BYTES }
    requires label { Below (length labels.old) (label_of op.now) }
    requires address { address ≤ 4000000000 }
    ensures labels { labels.new ≡ with_label (label_of op.now) address labels.old }
    ensures address { result ≡ address +
        4 * length (template (laid layout.now.places.now layout.now.frame layout.now.objects) nowhere op.now) }
    ensures most { result ≤ address + 64 }
{
    if let Some(label) = op.label() {
        labels[label as usize] = address;
    }
    address + 4 * op_words(*op, layout)
}

/// Fills the table with the addresses of the labels of ops that stand from an address on, and gives the address behind
/// the ops. The table has a word for each label.
pub(crate) fn place_labels(ops: &[Op], layout: &Layout, start: u32, labels: &mut [u32]) -> u32
    requires finished { (n : ℕ) × IsFinished ops.now n }
    requires labels { (p : ℕ) → Below (length labels.old) (label_of (op_at ops.now p)) }
    requires frame { layout.now.frame ≤ STACK_BYTES }
    requires objects { layout.now.objects ≤ OBJECT_BYTES }
    requires start { start ≤ 300000000 }
    ensures table { IsTable (aims (laid layout.now.places.now layout.now.frame layout.now.objects) start ops.now)
        ops.now labels.new result }
    ensures end { result ≡ start +
        4 * length (templates (laid layout.now.places.now layout.now.frame layout.now.objects) nowhere ops.now) }
{
    let mut end = start;
    for op in ops {
        end = place_op(op, layout, end, labels);
    }
    end
}

/// Where an op goes: the address of its label, or of the epilogue.
pub(crate) fn target(op: &Op, labels: &[u32], epilogue: u32) -> u32
    requires { (label : ℕ) → goes_to op.now ≡ Some label → label < length labels.now }
    ensures { result ≡ target_of (goes_to op.now) labels.now epilogue }
{
    match op.goes_to() {
        Some(label) => labels[label as usize],
        None => epilogue,
    }
}

//! The template of each op.

ghost use Rattle.std.specs.Prelude.{◌≡◌, ◌+◌, ◌++◌, ◌<◌, ◌≤◌, length};
ghost use Rattle.limits.specs.declared.ops.TheConstants.{MOST_SLOTS};
ghost use Rattle.word32.specs.declared.map.TheConstants.{OBJECT_BYTES, SEGMENT_BYTES, STACK_BYTES};
ghost use Rattle.icode_ops.specs.Finished.{InRange};
ghost use Rattle.icode_templates.specs.Layout.{laid};
ghost use Rattle.icode_templates.specs.Templates.{template};
ghost use Rattle.icode_templates.specs.Words.{words};

use crate::snippet::Snippet;
use crate::spot::Layout;
use icode_ops::Op;

impl Snippet {
    /// Puts the template of an op at the end: at most 16 words.
    ///
    /// `address` is where the op goes within its function, in bytes: that of its label for a jump or branch, that of
    /// the epilogue for a return. Other ops don't go anywhere, and take any address.
    #[tactic(auto, using(crate::proofs::Appended::words_append))]
    pub fn add_op(&mut self, op: Op, layout: &Layout, address: u32)
        requires room { length self.old ≤ 16 }
        requires registers { InRange MOST_SLOTS op }
        requires frame { layout.now.frame ≤ STACK_BYTES }
        requires objects { layout.now.objects ≤ OBJECT_BYTES }
        requires address { address < SEGMENT_BYTES }
        ensures words { self.new ≡ self.old ++
            words (template (laid layout.now.places.now layout.now.frame layout.now.objects) (λ aim. address) op) }
        ensures most { length self.new ≤ length self.old + 16 }
    {
        match op {
            Op::Const { to, word } => self.put_constant(&layout.spot(to), word),
            Op::Move { to, from } => self.copy(&layout.spot(to), &layout.spot(from)),
            Op::Bin {
                kind,
                to,
                left,
                right,
            } => self.apply_two(
                kind,
                &layout.spot(to),
                &layout.spot(left),
                &layout.spot(right),
            ),
            Op::CheckDivision { left, right } => {
                self.check_division(&layout.spot(left), &layout.spot(right))
            }
            Op::CheckZero { divisor } => self.check_zero(&layout.spot(divisor)),
            Op::Un { kind, to, from } => {
                self.apply_one(kind, &layout.spot(to), &layout.spot(from))
            }
            Op::FrameAddress { to, offset } => {
                self.frame_address(layout, &layout.spot(to), offset)
            }
            Op::Load { width, to, address } => {
                self.load_from(width, &layout.spot(to), &layout.spot(address))
            }
            Op::Store {
                width,
                address,
                value,
            } => self.store_to(width, &layout.spot(address), &layout.spot(value)),
            Op::Clear { offset, words } => self.clear_objects(layout, offset, words),
            Op::Label { .. } => {}
            Op::Jump { .. } => self.go_to(address),
            Op::BranchZero { test, .. } => self.go_if_zero(&layout.spot(test), address),
            Op::BranchNonzero { test, .. } => self.go_unless_zero(&layout.spot(test), address),
            Op::Argument { index, from } => self.pass(index, &layout.spot(from)),
            Op::GetParameter { to, index } => {
                self.copy(&layout.spot(to), &layout.parameter(index.get()))
            }
            Op::Call { address } => self.call(address),
            Op::CallNumber { function, count } => {
                self.call_by_number(&layout.spot(function), count)
            }
            Op::Result { to } => self.take_answer(&layout.spot(to)),
            Op::Return { from } => self.leave_with(&layout.spot(from), address),
            Op::ReturnZero => self.leave_with_zero(address),
            Op::Sys { kind, to, from } => self.ask(kind, &layout.spot(to), &layout.spot(from)),
            Op::Run { routine, to, from } => {
                self.run(routine, &layout.spot(to), &layout.spot(from))
            }
            Op::New {
                to,
                address: code,
                kind,
                captures,
            } => self.make_closure(&layout.spot(to), code, kind, captures),
            Op::Put { index, from } => self.put_value(index, &layout.spot(from)),
        }
    }
}

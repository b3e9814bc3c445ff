//! Frame objects, and the parameters that stand in them.

ghost use Rattle.std.specs.Prelude.{◌≡◌, ◌<◌, ◌≤◌, ◌+◌, ◌^◌, IfOk};
ghost use Rattle.meaning_state.specs.Shared.{frame_start, zeroed};
ghost use Rattle.staged_meaning.specs.Statements.{passed};
ghost use Rattle.staged_meaning.specs.World.{clear_words, with_shared};
ghost use Rattle.eval_state.specs.Rest.{left};
ghost use Rattle.eval_state.specs.Less.{heft, held};
ghost use Rattle.eval_state.specs.Run.{here, in_world, leads, outcome, run_of, world};
ghost use Rattle.eval_state.specs.Views.{now_view};

use crate::parts::{Flow, Now};
use crate::state::Machine;
use icode_ops::UnKind;
use meaning_operators::unary_value;
use std::alloc::AllocError;
use word32::{Width, map};

impl<'a> Machine<'a> {
    // The address of the frame object at an offset, in 64 bits.
    fn frame_at(&self, offset: u32) -> u64
        ensures within { result < 2 ^ 34 }
        ensures place { result
            ≡ frame_start (here (run_of self.now)).object (world (run_of self.now)).shared + offset }
    {
        let before = self.parts.frames.saturating_sub(self.parts.body.object);
        u64::from(map::FRAMES) + u64::from(before) + u64::from(offset)
    }

    /// The address of the frame object at an offset.
    ///
    /// # Errors
    /// Where no word holds it: no checked tree names such an object.
    pub fn frame_address(&self, offset: u32) -> Result<u32, AllocError>
        ensures { IfOk result (λ at.
            at ≡ frame_start (here (run_of self.now)).object (world (run_of self.now)).shared + offset) }
    {
        match u32::try_from(self.frame_at(offset)) {
            Ok(at) => Ok(at),
            Err(_) => Err(AllocError),
        }
    }

    // The word at an address is 0; what is no object stays 0 as it is.
    fn zero(&mut self, at: u64)
        ensures { run_of self.new
            ≡ in_world (with_shared (zeroed at 1 (world (run_of self.old)).shared) (world (run_of self.old)))
            (run_of self.old) }
    {
        let first = u64::from(map::OBJECTS / 4);
        let i = at / 4;
        if first <= i && i - first < self.parts.objects.len() as u64 {
            self.parts.objects[(i - first) as usize] = 0;
        }
    }

    /// Sets so many words of a frame object to 0, at a unit each.
    pub fn clear(&mut self, offset: u32, words: u32) -> Now<'a>
        ensures same { outcome (now_view result) (run_of self.new)
            ≡ leads (run_of self.old) (left (clear_words words
            (frame_start (here (run_of self.old)).object (world (run_of self.old)).shared + offset)
            (world (run_of self.old)))) }
        ensures units { (run_of self.new).state.units ≤ (run_of self.old).state.units }
        ensures less { (run_of self.new).state.units ≡ (run_of self.old).state.units
            → heft (now_view result) (run_of self.new) ≤ held (run_of self.old) }
    {
        let mut at = self.frame_at(offset);
        for _ in 0..words {
            self.zero(at);
            if !self.spend_one() {
                return Now::Stopped;
            }
            at += 4;
        }
        Now::Left(Flow::Normal)
    }

    /// The parameter of a number, converted to its width.
    pub fn passed(&self, k: u32, width: Width) -> u32
        ensures { result ≡ passed k width (world (run_of self.now)) }
    {
        let v = self.argument(k);
        match width {
            Width::SignedByte => unary_value(UnKind::SignedByte, v),
            Width::Byte => unary_value(UnKind::Byte, v),
            Width::SignedHalf => unary_value(UnKind::SignedHalf, v),
            Width::Half => unary_value(UnKind::Half, v),
            Width::Word => v,
        }
    }
}

//! Bodies of functions of the text, and the limits of calls.

ghost use Rattle.std.specs.Prelude.{◌≡◌, ◌≢◌, ◌+◌, ◌<◌, ◌≤◌, Some, None, IfOk};
ghost use Rattle.std.specs.Prelude.{IfSome};
ghost use Rattle.eval_state.specs.Late.{IsCallee, function_body, with_body};
ghost use Rattle.staged_meaning.specs.Size.{charge_of};
ghost use Rattle.meaning_state.specs.Shared.{limit_trap};
ghost use Rattle.eval_state.specs.Run.{run_of, world};

use crate::charge::charge_of;
use crate::state::{Body, Machine};
use host_edge::TrapKind;
use limits::program::{FRAME_OBJECT_BYTES, SIZE_LIMIT};
use sqlite_items::{Items, at as find};
use std::alloc::AllocError;
use std::mem;
use typed_tree::Function;
use word32::map::STACK_BYTES;

impl<'a> Machine<'a> {
    /// The limit that a call of a charge meets, with so many bytes of frame objects.
    pub fn limit(&self, charge: u32, object: u32) -> Option<TrapKind>
        ensures { result ≡ limit_trap charge object (world (run_of self.now)).shared }
    {
        if u64::from(STACK_BYTES) < u64::from(self.parts.used) + u64::from(charge) {
            return Some(TrapKind::StackLimit);
        }
        if u64::from(FRAME_OBJECT_BYTES) < u64::from(self.parts.frames) + u64::from(object) {
            return Some(TrapKind::FrameLimit);
        }
        None
    }

    /// The function of the text of a number, where a function of the text may call it: no limit is met.
    pub fn callee(&self, number: u32) -> Option<&'a Function>
        ensures { IfSome result (λ f. IsCallee number f.now self.now) }
    {
        if self.parts.body.row != 0 {
            return None;
        }
        if self.parts.depth == 0 {
            return None;
        }
        if number == 0 {
            return None;
        }
        let typed = self.parts.typed;
        typed.keeps_law();
        match find(typed.functions(), (number - 1) as usize) {
            None => None,
            Some(function) => match self.limit(charge_of(function.size), function.object) {
                None => Some(function),
                Some(_) => None,
            },
        }
    }

    /// The body of a function of the text is active, which was passed these arguments: the caller's body.
    ///
    /// # Errors
    /// Where memory is wanting.
    #[inline(always)]
    pub fn enter_body(
        &mut self,
        function: &Function,
        arguments: Items<u32>,
    ) -> Result<Body, AllocError>
        requires { (self.old.depth ≢ 0) × (function.now.size ≤ SIZE_LIMIT)
            × (self.old.used + charge_of function.now.size ≤ STACK_BYTES)
            × (self.old.frames + function.now.object ≤ FRAME_OBJECT_BYTES) }
        ensures { IfOk result (λ caller. (caller ≡ self.old.body)
            × (self.new ≡ with_body (charge_of function.now.size) (function_body function.now arguments self.old)
            self.old)) }
    {
        let generated = self.parts.body.generated.again(self.parts.alloc)?;
        let variables = self.list();
        self.parts.used += charge_of(function.size);
        self.parts.frames += function.object;
        self.parts.depth -= 1;
        Ok(mem::replace(
            &mut self.parts.body,
            Body {
                variables,
                arguments,
                generated,
                object: function.object,
                row: 0,
            },
        ))
    }
}

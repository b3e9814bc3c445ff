//! What is pending, and the units that are left.

ghost use Rattle.std.specs.Prelude.{◌≡◌, ◌≢◌, ◌+◌, ◌-◌, ◌^◌, ◌<◌, ◌≤◌, suc, length, [], IsSome};
ghost use Rattle.std.specs.Prelude.{IfOk, IsFalse, IsTrue, MatchOption, OnOk};
ghost use Rattle.eval_state.specs.Rest.{after, doing, spent};
ghost use Rattle.eval_state.specs.Grown.{with_caller, with_left};
ghost use Rattle.eval_state.specs.Kept.{entry_view};
ghost use Rattle.eval_state.specs.Late.{AreLocal, IsSettled, MayWait, frames_of, with_entry, with_frames};
ghost use Rattle.eval_state.specs.Sound.{calls};
ghost use Rattle.eval_state.specs.Popped.{IsEnded, IsLeft};
ghost use Rattle.eval_state.specs.Less.{heft, held, waiting};
ghost use Rattle.eval_state.specs.Run.{here, leads, outcome, pushed, run_of, with_units, world};
ghost use Rattle.eval_state.specs.Views.{frame_view, now_view};

use crate::parts::{Frame, Now, Popped};
use crate::state::{Body, Entry, Machine};
use sqlite_items::Items;
use std::alloc::AllocError;
use std::mem;

impl<'a> Machine<'a> {
    // An entry more is pending.
    pub(crate) fn wait(&mut self, entry: Entry<'a>) -> Result<(), AllocError>
        requires { MayWait entry self.old }
        ensures run { OnOk result (run_of self.new ≡ pushed (entry_view [] entry.entry) (run_of self.old)) }
        ensures parts { OnOk result (self.new ≡ with_entry entry.entry self.old) }
    {
        self.parts.entries.push(entry)
    }

    /// A frame waits for what is done now.
    ///
    /// # Errors
    /// Where memory is wanting.
    #[tactic(auto, using(crate::proofs::Runs::push_leads))]
    pub fn push(&mut self, frame: Frame<'a>, next: Now<'a>) -> Result<Now<'a>, AllocError>
        ensures same { IfOk result (λ n. outcome (now_view n) (run_of self.new)
            ≡ leads (run_of self.old) (after (here (run_of self.old)) (frame_view frame.entry)
            (doing (here (run_of self.old)) (now_view next.entry) (world (run_of self.old))))) }
        ensures units { IfOk result (λ n. (run_of self.new).state.units ≡ (run_of self.old).state.units) }
        ensures less { IfOk result (λ n. heft (now_view n) (run_of self.new)
            ≤ heft (now_view next.entry) (run_of self.old) + waiting (frame_view frame.entry) (run_of self.old)) }
    {
        self.wait(Entry::Inside(frame))?;
        Ok(next)
    }

    /// Spends a unit, if one is left.
    #[tactic(auto, using(crate::proofs::Changes::spending))]
    pub fn spend(&mut self, next: Now<'a>) -> Now<'a>
        ensures same { outcome (now_view result) (run_of self.new)
            ≡ leads (run_of self.old) (spent (here (run_of self.old)) (world (run_of self.old)).units
            (now_view next.entry) (world (run_of self.old))) }
        ensures units { (run_of self.new).state.units ≤ (run_of self.old).state.units }
        ensures less { (run_of self.new).state.units ≡ (run_of self.old).state.units
            → heft (now_view result) (run_of self.new) ≡ 0 }
    {
        if self.parts.units == 0 {
            return Now::Stopped;
        }
        self.parts.units -= 1;
        next
    }

    /// Spends a unit, if one is left: whether it was.
    #[tactic(auto, using(crate::proofs::Changes::spending))]
    pub fn spend_one(&mut self) -> bool
        ensures some { IsTrue result → ((world (run_of self.old)).units ≢ 0)
            × (run_of self.new ≡ with_units ((world (run_of self.old)).units - 1) (run_of self.old)) }
        ensures none { IsFalse result → ((world (run_of self.old)).units ≡ 0) × (self.new ≡ self.old) }
    {
        if self.parts.units == 0 {
            return false;
        }
        self.parts.units -= 1;
        true
    }

    /// How many turns a loop has after its first.
    #[tactic(auto, using(crate::proofs::Changes::reads))]
    pub fn turns(&self) -> u64
        ensures { (run_of self.now).turns ≡ suc result }
    {
        self.parts.turns
    }

    /// Spends so many units, one after another: whether so many were left. Where not, those that were left are spent.
    pub fn spend_many(&mut self, many: u64) -> bool
        ensures some { IsTrue result → (many ≤ self.old.units)
            × (self.new ≡ with_left (self.old.units - many) self.old) }
        ensures none { IsFalse result → (self.old.units < many) × (self.new ≡ with_left 0 self.old) }
    {
        if self.parts.units < many {
            self.parts.units = 0;
            return false;
        }
        self.parts.units -= many;
        true
    }

    /// A call of a charge is over: the caller's body is back.
    pub fn back(&mut self, charge: u32, caller: Body)
        requires { (caller.row ≤ length self.old.rows) × (self.old.depth + calls self.old.entries + 1 < 2 ^ 64) }
        ensures { self.new ≡ with_caller charge caller self.old }
    {
        self.parts.used = self.parts.used.saturating_sub(charge);
        self.parts.frames = self.parts.frames.saturating_sub(self.parts.body.object);
        self.parts.depth += 1;
        let left = mem::replace(&mut self.parts.body, caller);
        left.keep_lists(&mut self.spare);
    }

    /// Takes off what waits for a value or for the end of a body, which is there; none, where nothing is pending.
    pub fn pop(&mut self) -> Option<Popped<'a>>
        ensures same { MatchOption result
            (((run_of self.old).state.frames ≡ []) × (self.new ≡ self.old))
            (λ popped. IsEnded popped (run_of self.old) (run_of self.new)) }
        ensures less { IsSome result → ((run_of self.new).state.units ≡ (run_of self.old).state.units)
            × (held (run_of self.new) < held (run_of self.old)) }
    {
        match self.parts.entries.pop() {
            None => None,
            Some(Entry::Inside(frame)) => Some(Popped::Inside(frame)),
            Some(Entry::Called(answer, charge, caller)) => {
                self.back(charge, caller);
                Some(Popped::Called(answer))
            }
            Some(Entry::Spliced(answer, variables, object, row)) => {
                self.parts.body.variables = variables;
                self.parts.body.object = object;
                self.parts.body.row = row;
                Some(Popped::Spliced(answer))
            }
        }
    }

    /// Takes off what a return passes; none, where nothing is pending.
    pub fn leave(&mut self) -> Option<Popped<'a>>
        ensures same { MatchOption result
            (((run_of self.old).state.frames ≡ []) × (self.new ≡ self.old))
            (λ popped. IsLeft popped (run_of self.old) (run_of self.new)) }
        ensures less { IsSome result → ((run_of self.new).state.units ≡ (run_of self.old).state.units)
            × (held (run_of self.new) < held (run_of self.old)) }
    {
        match self.parts.entries.pop() {
            None => None,
            Some(Entry::Inside(frame)) => Some(Popped::Inside(frame)),
            Some(Entry::Called(answer, charge, caller)) => {
                self.back(charge, caller);
                Some(Popped::Called(answer))
            }
            Some(Entry::Spliced(answer, _, object, row)) => {
                self.parts.body.object = object;
                self.parts.body.row = row;
                Some(Popped::Spliced(answer))
            }
        }
    }

    /// What waits, the innermost first, is pending.
    ///
    /// # Errors
    /// Where memory is wanting.
    #[tactic(auto, using(crate::proofs::Waits::settling))]
    pub fn settle(&mut self, waiting: Items<Entry<'a>>) -> Result<(), AllocError>
        requires { AreLocal waiting × (self.old.depth + calls self.old.entries + calls waiting < 2 ^ 64) }
        ensures { OnOk result (run_of self.new ≡ with_frames (frames_of waiting.entry) (run_of self.old)) }
    {
        let mut rest = waiting;
        while 0 < rest.len() {
            self.settle_last(&mut rest)?;
        }
        Ok(())
    }

    // The last of what waits is pending.
    fn settle_last(&mut self, waiting: &mut Items<Entry<'a>>) -> Result<(), AllocError>
        requires { (0 < length waiting.old) × AreLocal waiting.old
            × (self.old.depth + calls self.old.entries + calls waiting.old < 2 ^ 64) }
        ensures { OnOk result (IsSettled waiting.old waiting.new self.old self.new) }
    {
        match waiting.pop() {
            None => Ok(()),
            Some(entry) => self.wait(entry),
        }
    }

    /// Nothing waits yet.
    #[inline(always)]
    pub fn nothing_waits(&self) -> Items<Entry<'a>>
        ensures { result ≡ [] }
    {
        Items::new(self.parts.alloc)
    }
}

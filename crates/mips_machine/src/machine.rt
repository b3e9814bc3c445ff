//! The machine.
ghost use Rattle.std.specs.Prelude.{◌≡◌, ◌≢◌, ◌≤◌, ◌<◌, ◌+◌, ◌-◌, ◌^◌, true, ℕ, List, Option, IfOk, IfErr, IfSome};
ghost use Rattle.std.specs.Prelude.{None, Some};
ghost use Rattle.mips_model.specs.Beside.{is_at_service};
ghost use Rattle.mips_core.specs.Core.{state_of};
ghost use Rattle.mips_machine.specs.Progress.{first_progress, counts_of, progress_of};
ghost use Rattle.mips_machine.specs.Ran.{Ran, ReadCause, WriteCause, kept_stop};
ghost use Rattle.mips_machine.specs.Served.{stop_of, stop_from};

use crate::tally::Tally;
use crate::{Counts, Stop};
use host_edge::{Sink, Source};
use icode_service::Service as CodeService;
use image_file::Image;
use mips_core::{Core, Halt};
use std::alloc::{AllocError, Global};
use std::marker::Model;

/// A machine with an image in its memory. A stop other than Steps is final.
pub struct Machine {
    pub(crate) core: Core,
    pub(crate) service: CodeService,
    pub(crate) at_end: bool,
    pub(crate) tally: Tally,
    pub(crate) steps: u64,
    pub(crate) stopped: Option<Stop>,
}

impl Drop for Machine {
    fn drop(self) {
        let Machine {
            core: _,
            service: _,
            at_end: _,
            tally: _,
            steps: _,
            stopped: _,
        } = self;
    }
}

impl Model for Machine {
    ghost use Rattle.mips_machine.specs.Progress.{Held, IsMachine};

    ghost Value = { Held };

    ghost view = { λ m. record {
      core = m.core;
      generator = m.service;
      at_end = m.at_end;
      tally = m.tally;
      steps = m.steps;
      stopped = m.stopped;
    } };

    ghost invariant = { λ m. IsMachine (record {
      core = m.core;
      generator = m.service;
      at_end = m.at_end;
      tally = m.tally;
      steps = m.steps;
      stopped = m.stopped;
    }) };
}

/// The stop that a core's own halt is.
fn stop_of(halt: Halt) -> Stop
    ensures { result ≡ stop_of halt }
{
    match halt {
        Halt::Ended(ending) => Stop::Ended(ending),
        Halt::Fault(kind, at) => Stop::Fault(kind, at),
    }
}

impl Machine {
    /// A machine before the first instruction of an image. It takes all the memory that it ever needs.
    ///
    /// # Errors
    /// Where memory is wanting; nothing was made then.
    pub fn new(alloc: Global, image: &Image) -> Result<Machine, AllocError>
        ensures state { IfOk result (λ m. progress_of m ≡ first_progress image.now) }
        ensures fresh { IfOk result (λ m. m.stopped ≡ None) }
    {
        let core = Core::new(alloc, image)?;
        let service = match CodeService::new(alloc) {
            Ok(service) => service,
            Err(why) => {
                drop(core);
                return Err(why);
            }
        };
        Ok(Machine {
            core,
            service,
            at_end: false,
            tally: Tally {
                ops: 0,
                functions: 0,
                words: 0,
                flushes: 0,
            },
            steps: 0,
            stopped: None,
        })
    }

    /// Begins anew with another image, in the memory that it has: it stands as `new` makes a machine, whatever it ran.
    ///
    /// # Errors
    /// Where memory is wanting for a longer text; nothing has changed then.
    pub fn load(&mut self, image: &Image) -> Result<(), AllocError>
        ensures state { IfOk result (λ _. progress_of self.new ≡ first_progress image.now) }
        ensures fresh { IfOk result (λ _. self.new.stopped ≡ None) }
        ensures kept { IfErr result (λ _. self.new ≡ self.old) }
    {
        self.core.load(image)?;
        self.service.reset();
        self.at_end = false;
        self.tally = Tally {
            ops: 0,
            functions: 0,
            words: 0,
            flushes: 0,
        };
        self.steps = 0;
        self.stopped = None;
        Ok(())
    }

    /// The number of instructions executed so far, one that ended the run or was refused included.
    pub fn steps(&self) -> u64
        ensures { result ≡ (progress_of self.now).steps }
    {
        self.steps
    }

    /// What the services were asked for so far, refused ones aside.
    pub fn counts(&self) -> Counts
        ensures { result ≡ counts_of (progress_of self.now).state.d.outside }
    {
        Counts {
            ops: self.tally.ops,
            functions: self.tally.functions,
            words: self.tally.words,
            flushes: self.tally.flushes,
            spills: self.service.spills(),
        }
    }

    /// The register places of the function that was finished last, one for each register; none before the first.
    pub fn choices(&self) -> &[u8]
        ensures { result.now ≡ (progress_of self.now).state.d.outside.making.generator.choices }
    {
        self.service.choices()
    }

    /// The same places, for which the machine is given up.
    pub fn into_choices(self) -> Vec<u8>
        ensures { result.items ≡ (progress_of self).state.d.outside.making.generator.choices }
    {
        let Machine {
            core,
            service,
            at_end: _,
            tally: _,
            steps: _,
            stopped: _,
        } = self;
        drop(core);
        service.into_choices()
    }

    // Executes up to n instructions until the machine stops or a service is next, and answers how many of n are left.
    fn compute(&mut self, n: u64) -> u64
        requires fresh { self.old.stopped ≡ None }
        requires room { self.old.steps + n ≤ 2 ^ 40 }
        ensures within { result ≤ n }
        ensures ran { (left taken : Option (List ℕ)) →
            Ran (n - result) (progress_of self.old) (progress_of self.new) left left taken taken
            (stop_from self.new.stopped) }
        ensures none { ReadCause (stop_from self.new.stopped) 0 0 × WriteCause (stop_from self.new.stopped) 0 0 }
        ensures at { result ≢ 0 → self.new.stopped ≡ None → is_at_service (state_of self.new.core) ≡ true }
        ensures next { result ≢ 0 → self.new.stopped ≡ None → self.new.core.next < 4294967296 }
    {
        let left = self.core.go_on(n);
        self.steps += n - left;
        if let Some(halt) = self.core.stopped() {
            self.stopped = Some(stop_of(halt));
        }
        left
    }

    // Executes up to n instructions, at least up to the next service and that with it, and answers how many are left.
    fn advance<I: Source, O: Sink>(&mut self, input: &mut I, out: &mut O, n: u64) -> u64
        requires fresh { self.old.stopped ≡ None }
        requires room { self.old.steps + n ≤ 2 ^ 40 }
        requires some { 0 < n }
        ensures within { result ≤ n }
        ensures less { self.new.stopped ≡ None → result < n }
        ensures ran { Ran (n - result) (progress_of self.old) (progress_of self.new) (I.left input.old)
            (I.left input.new) (O.taken out.old) (O.taken out.new) (stop_from self.new.stopped) }
        ensures read { ReadCause (stop_from self.new.stopped) (I.faults input.old) (I.faults input.new) }
        ensures write { WriteCause (stop_from self.new.stopped) (O.faults out.old) (O.faults out.new) }
    {
        let left = self.compute(n);
        if left == 0 || self.stopped.is_some() {
            return left;
        }
        self.serve(input, out);
        left - 1
    }

    // Runs on, where it had not stopped.
    fn go_on<I: Source, O: Sink>(&mut self, input: &mut I, out: &mut O, n: u64) -> Stop
        requires fresh { self.old.stopped ≡ None }
        requires room { self.old.steps + n ≤ 2 ^ 40 }
        ensures ran { Ran n (progress_of self.old) (progress_of self.new) (I.left input.old) (I.left input.new)
            (O.taken out.old) (O.taken out.new) result }
        ensures stopped { self.new.stopped ≡ kept_stop result }
        ensures read { ReadCause result (I.faults input.old) (I.faults input.new) }
        ensures write { WriteCause result (O.faults out.old) (O.faults out.new) }
    {
        let mut left = n;
        while left > 0 {
            left = self.advance(input, out, left);
            if let Some(stop) = self.stopped {
                return stop;
            }
        }
        Stop::Steps
    }

    /// Executes up to `n` instructions, and answers why it returns. A stop other than Steps is answered again by
    /// every later call, which then changes nothing. It takes no memory. All instructions so far are at most
    /// 1,099,511,627,776.
    pub fn run<I: Source, O: Sink>(&mut self, input: &mut I, out: &mut O, n: u64) -> Stop
        requires { (progress_of self.old).steps + n ≤ 2 ^ 40 }
        // From where the machine stood it ran so far, on what the source gave.
        ensures ran { self.old.stopped ≡ None →
            Ran n (progress_of self.old) (progress_of self.new) (I.left input.old) (I.left input.new) (O.taken out.old)
            (O.taken out.new) result }
        ensures stopped { self.old.stopped ≡ None → self.new.stopped ≡ kept_stop result }
        // A fault is answered only where its count rose.
        ensures read { self.old.stopped ≡ None → ReadCause result (I.faults input.old) (I.faults input.new) }
        ensures write { self.old.stopped ≡ None → WriteCause result (O.faults out.old) (O.faults out.new) }
        // A stop is answered again, and changes nothing.
        ensures again { IfSome self.old.stopped
            (λ stop. (result ≡ stop) × (self.new ≡ self.old) × (input.new ≡ input.old) × (out.new ≡ out.old)) }
    {
        match self.stopped {
            Some(stop) => stop,
            None => self.go_on(input, out, n),
        }
    }
}

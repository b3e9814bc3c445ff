//! Laws of calls.
ghost use Rattle.std.specs.Prelude.{◌≡◌, ◌≤◌, ◌+◌, ◌^◌, None};
ghost use Rattle.mips_machine.specs.Laws.{TwoAreOne, CountsSteps, RunsAll, RunsOnTold, BeginsThere, ChoosesWell};
ghost use Rattle.mips_machine.specs.Laws.{ChoosesSoFar};
ghost use Rattle.mips_machine.specs.Progress.{progress_of};
ghost use Rattle.mips_machine.specs.Ran.{Ran};

use crate::{Machine, Stop};
use host_edge::{Sink, Source};

/// Two calls are one.
pub fn two_are_one()
    ensures { TwoAreOne }
{}

/// The instructions of a call are those that the definition executes.
pub fn counts_steps()
    ensures { CountsSteps }
{}

/// Where no write failed, a call is the definition's run of all instructions that were allowed.
pub fn runs_all()
    ensures { RunsAll }
{}

/// On told bytes a call is the definition's run on all of them.
pub fn runs_on_told()
    ensures { RunsOnTold }
{}

/// A machine that has executed nothing begins the definition's run of its image.
pub fn begins_there()
    ensures { BeginsThere }
{}

/// Where no write failed, each function that was finished took the choice of linear scan, a legal one.
pub fn chooses_well()
    ensures { ChoosesWell }
{}

/// And else those that were finished in the instructions that were executed.
pub fn chooses_so_far()
    ensures { ChoosesSoFar }
{}

/// Runs twice, as once with the sum.
pub fn run_twice<I: Source, O: Sink>(
    machine: &mut Machine,
    input: &mut I,
    out: &mut O,
    first: u64,
    second: u64,
) -> Stop
    requires fresh { machine.old.stopped ≡ None }
    requires room { (progress_of machine.old).steps + first + second ≤ 2 ^ 40 }
    ensures { Ran (first + second) (progress_of machine.old) (progress_of machine.new) (I.left input.old)
        (I.left input.new) (O.taken out.old) (O.taken out.new) result }
{
    match machine.run(input, out, first) {
        Stop::Steps => machine.run(input, out, second),
        stop => stop,
    }
}

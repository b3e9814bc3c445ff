//! Laws on runs of the machine, whatever code they run: what stands below the arena runs there and enters no
//! function; a run that flushes no unwritten word is clean; what a run enters and tells; and that a row of choices
//! can be completed. There is no code to run here: each function's contract is a law.
#![tactic(auto)]

ghost use Rattle.mips_model_laws.specs.Clean.{UnspoiledRunsAreClean};
ghost use Rattle.mips_model_laws.specs.Laws.{NoneIsEntered, RunsCarryIn, RunsCarryOver, RunsStayBelow, RunsStayIn};

/// A run that needs no word of the arena, and flushes nothing, stays below the arena, whatever can be executed there.
pub fn runs_stay_below()
    ensures { RunsStayBelow }
{}

/// Where the machine stays below the arena, it enters no function.
pub fn none_is_entered()
    ensures { NoneIsEntered }
{}

/// A run that needs no word of the arena, flushes nothing and leaves the code as it was is one of the code itself, in
/// as many instructions.
pub fn runs_carry_over()
    ensures { RunsCarryOver }
{}

/// A run that needs these words of the arena alone, and flushes nothing, stays there and below the arena.
pub fn runs_stay_in()
    ensures { RunsStayIn }
{}

/// And where it leaves the code as it was, it is one of the code itself.
pub fn runs_carry_in()
    ensures { RunsCarryIn }
{}

/// A run that flushes no unwritten word, and doesn't end with a fault, executes words of the text and clean words alone.
pub fn unspoiled_runs_are_clean()
    ensures { UnspoiledRunsAreClean }
{}

//! The words of the routines of the run-time library, in their blocks, and of the functions that generate the code of
//! ticks: definitions, and how many words there are. There is no code to run here: each function's contract is a law.
#![tactic(auto)]

ghost use Rattle.routine_spec.specs.Laws.{GeneratorsAreShort, RoutinesFillBlocks};

/// The function of a tick has no more words than are charged for the tick.
pub fn generators_are_short()
    ensures { GeneratorsAreShort }
{}

/// The routines fill fifteen blocks of 64 words.
pub fn routines_fill_blocks()
    ensures { RoutinesFillBlocks }
{}

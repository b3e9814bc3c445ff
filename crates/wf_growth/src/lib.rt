//! How much the checker's walk over a program makes grow: no more than the program has nodes. These are laws on
//! definitions; there is no code to run here.
#![tactic(auto)]

ghost use Rattle.wf_growth.specs.Laws.{ProgramsAreLight};

/// That the walk over a program makes nothing grow by more than its weight, with the variables of each function counted
/// anew.
pub fn programs_are_light()
    ensures { ProgramsAreLight }
{}

//! How much a step of the checker's walk makes grow: what the innermost tick captures, the variables of that tick and
//! of the function, and the ticks of the program. A rule makes them grow by one more than its parts together, and so
//! the walk over a part of a tree by no more than the part has nodes: the counts that the walk keeps up to what a word
//! counts are right for each tree that is small. These are laws on definitions; there is no code to run here.
#![tactic(auto)]

ghost use Rattle.wf_growth_rules.specs.Laws.{ExpressionsAreLight, StatementsAreLight, StatesAreLight};
ghost use Rattle.wf_growth_rules.specs.Trees.{PartsAreLight};

/// That a step on the state makes grow by one at most.
pub fn states_are_light()
    ensures { StatesAreLight }
{}

/// That an expression makes grow by one more than its parts.
pub fn expressions_are_light()
    ensures { ExpressionsAreLight }
{}

/// That a statement or a suffix makes grow by one more than its parts.
pub fn statements_are_light()
    ensures { StatementsAreLight }
{}

/// That the walk over each part of a tree makes nothing grow by more than the part's weight.
pub fn parts_are_light()
    ensures { PartsAreLight }
{}

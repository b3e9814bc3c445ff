//! What the meaning of the language and the staged machine have in common: the operators on words, and the state that
//! outlives a call. Both change it by the same functions, so that they agree by an equation. There is no code to run here:
//! each function's contract is a law on the bodies that were compiled.
#![tactic(auto)]

ghost use Rattle.meaning_state.specs.Bodies.{HeldByEach, NoneFreedIsASum, StepsKeepHeld};

/// A body that is made holds one range more, and one that is freed one less.
pub fn held_by_each()
    ensures { HeldByEach }
{}

/// Where no body was ever freed, there is a place for the next exactly where the sum of all counts is within the total.
pub fn none_freed_is_a_sum()
    ensures { NoneFreedIsASum }
{}

/// Bodies hold ranges that have no word in common, as one is made by first fit or freed.
pub fn steps_keep_held()
    ensures { StepsKeepHeld }
{}

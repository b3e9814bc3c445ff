//! The machine of instructions simulates the staged machine: what the words of an expansion do is what its ops do.
//! There is no code to run here: each function's contract is a law.
//!
//! The definitions: when a function stands in memory under places of its registers, the calling convention, the frames
//! of the calls that wait, and the simulation relation. The laws: what a function's prologue and epilogue do; the ops
//! that stay in their function keep the relation, for the running call and for all that wait; calls, returns, and all
//! ops but those of ticks, in functions of the text and in those that were compiled.
#![tactic(auto)]

ghost use Rattle.icode_expand_proof.specs.FrameLaws.{FrameLimitTraps, FunctionsBegin, FunctionsLeave, StackLimitTraps};
ghost use Rattle.icode_expand_proof.specs.StepLaws.{GrowthKeeps};
ghost use Rattle.icode_expand_proof.specs.WordLaws.{LegalPlacesSuit, WordsSuffice};
ghost use Rattle.icode_expand_proof.specs.Laws.{CallsPay, MainBegins, OpsPay, ReturnsPay, WordsPay};

/// A function's prologue takes its frame and its objects and saves what its caller will find again.
pub fn functions_begin()
    ensures { FunctionsBegin }
{}

/// A frame over the limit of the stack ends the run with its trap.
pub fn stack_limit_traps()
    ensures { StackLimitTraps }
{}

/// Frame objects over their limit end the run with their trap.
pub fn frame_limit_traps()
    ensures { FrameLimitTraps }
{}

/// A function's epilogue gives all back, restores the registers that it saved, and returns to its caller.
pub fn functions_leave()
    ensures { FunctionsLeave }
{}

/// Functions that are added during the run take nothing away: what holds of the calls holds on.
pub fn growth_keeps()
    ensures { GrowthKeeps }
{}

/// Where the words of an expansion stand in the text, the function stands there.
pub fn words_suffice()
    ensures { WordsSuffice }
{}

/// Legal places of a finished list of ops suit, where the frame has room and the code ends where jumps reach.
pub fn legal_places_suit()
    ensures { LegalPlacesSuit }
{}

/// A call leads from a related state to a related state, with one caller more that waits, or the run ends at the limit
/// of the stack or of the frame objects; within the cost of the op, under any legal places of both functions.
pub fn calls_pay()
    ensures { CallsPay }
{}

/// A return leads back to the caller, with the registers restored that the callee saves, or to the start, which exits.
pub fn returns_pay()
    ensures { ReturnsPay }
{}

/// Each op of a running call leads from a related state to a related state, within its cost, but for those of ticks
/// and the call that enters a function that was compiled.
pub fn ops_pay()
    ensures { OpsPay }
{}

/// So does each word that is set to 0.
pub fn words_pay()
    ensures { WordsPay }
{}

/// From main's first word on the machine comes to main's first op.
pub fn main_begins()
    ensures { MainBegins }
{}

//! The pieces of ticks: their lowering with holes for what they capture. Those of the ticks of an accepted text are such
//! as the law on generated code asks for. There is no code to run here: each function's contract is a law.
#![tactic(auto)]

ghost use Rattle.generator_spec.specs.Laws.{NodesHavePieces, PiecesAreLowering, SpecificationsAreLowered};
ghost use Rattle.generator_spec.specs.FittingLaws.{CapturesKeepKinds, LoweringsAreIssued, SyntaxesAreWhole};
ghost use Rattle.generator_spec.specs.FittingLaws.{TicksCallAlone, TicksFit, TicksHaveWords};

/// The pieces of a tick, with what was captured in their holes, are its lowering.
pub fn pieces_are_lowering()
    ensures { PiecesAreLowering }
{}

/// The ops of a specification, by the pieces of its ticks, are its lowering.
pub fn specifications_are_lowered()
    ensures { SpecificationsAreLowered }
{}

/// Each node of a tick has a piece.
pub fn nodes_have_pieces()
    ensures { NodesHavePieces }
{}

/// That each piece of a tick of an accepted text names a capture of its kind, or is an op that code may ask for, once
/// the tick is made with captures of the kinds that it has.
pub fn ticks_fit()
    ensures { TicksFit }
{}

/// That a specification whose ticks are each made with captures of their kinds is whole.
pub fn syntaxes_are_whole()
    ensures { SyntaxesAreWhole }
{}

/// That a specification that the meaning makes of earlier ones is made with captures of the kinds that its tick has.
pub fn captures_keep_kinds()
    ensures { CapturesKeepKinds }
{}

/// That the arguments of the ops of every number's pieces are words, where those of each tick of the typed tree are.
pub fn ticks_have_words()
    ensures { TicksHaveWords }
{}

/// That the lowering of a tick of an accepted text, and of a specification, asks where functions stand, and nothing else.
pub fn ticks_call_alone()
    ensures { TicksCallAlone }
{}

/// That the machine, at the function of a tick of an accepted text, issues exactly the ops of the lowering of the
/// specification that it is called for, and returns with all else as it was.
pub fn lowerings_are_issued()
    ensures { LoweringsAreIssued }
{}

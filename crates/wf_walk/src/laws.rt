//! The laws on the walk over a tree, part by part. There is no code to run here.

ghost use Rattle.wf_walk.specs.CaptureLaws.{WalksName};
ghost use Rattle.wf_walk.specs.ExpressionLaws.{ExpressionsDo};
ghost use Rattle.wf_walk.specs.FixedLaws.{WalksAreFixed};
ghost use Rattle.wf_walk.specs.StatementLaws.{BlocksAreGood, DeclarationsAreGood, ListsAreGood, StatementsAreGood};
ghost use Rattle.wf_walk.specs.TypeLaws.{ConstantsArePlain, ExpressionsKeep, Fixing, PlainSteps, StringsArePlain};
ghost use Rattle.wf_walk.specs.TypeLaws.{SuffixesAreGood};

/// That a step which names nothing, and captures only what stands anywhere, may stand between others.
pub fn plain_steps()
    ensures { PlainSteps }
{}

/// That the walk over an expression keeps what expressions keep, where the walks over its parts do.
pub fn expressions_keep()
    ensures { ExpressionsKeep }
{}

/// That an expression with the form of a constant names nothing and captures only what stands anywhere.
pub fn constants_are_plain()
    ensures { ConstantsArePlain }
{}

/// That a suffix of a declarator names nothing and captures only what stands anywhere, or has a length that isn't
/// constant.
pub fn suffixes_are_good()
    ensures { SuffixesAreGood }
{}

/// That a string names nothing and captures nothing.
pub fn strings_are_plain()
    ensures { StringsArePlain }
{}

/// That the value of a constant and the steps of a declarator don't depend on what is known where a function runs.
pub fn constants_are_fixed()
    ensures { Fixing }
{}

/// That each production of an expression makes of good parts an operand that stands right.
pub fn expressions_do()
    ensures { ExpressionsDo }
{}

/// That the walk over a statement is good, where the walks over its parts are.
pub fn statements_are_good()
    ensures { StatementsAreGood }
{}

/// That the walk over the items of a block is good, where the walks over each of them are.
pub fn lists_are_good()
    ensures { ListsAreGood }
{}

/// That the walk over a block is good, where the walks over its items are, and leaves the names and variables round it.
pub fn blocks_are_good()
    ensures { BlocksAreGood }
{}

/// That the walk over a declaration in a block is good: its types, its names, and what its variables begin with.
pub fn declarations_are_good()
    ensures { DeclarationsAreGood }
{}

/// That the value of a constant and the type that a declarator makes don't depend on what is known where a function
/// runs.
pub fn walks_are_fixed()
    ensures { WalksAreFixed }
{}

/// That the value of each expression in a tick, and each block of one, names what its walk captures.
pub fn walks_name()
    ensures { WalksName }
{}

//! A second walk over a program, by what the first one found. A program whose first walk marked no variable and met no
//! string and no prototype is walked again to the same end: what the second walk then knows from the first changes
//! nothing. These are laws on definitions, and the code that tells such a walk.
#![tactic(auto)]

mod ended;

ghost use Rattle.walk_again.specs.Laws.{WalksAgain};

pub use ended::is_settled;

/// That the second walk over such a program gives what the first one did.
#[tactic(auto, using(crate::proofs::Programs::walks_again))]
pub fn walks_again()
    ensures { WalksAgain }
{}

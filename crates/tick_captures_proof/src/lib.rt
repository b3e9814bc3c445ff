//! What the crate `tick_captures` reads off the body of a tick is what the tick of an accepted text captures. There is
//! no code to run here: each function's contract is a law.
#![tactic(auto)]

ghost use Rattle.tick_captures_proof.specs.Laws.{CapturesAreFew, CapturesAreKinds, CapturesAreNamed, SplicesAreOnce};

/// That the captures that the nodes of the ticks of an accepted text name are of the kinds that the ticks have.
pub fn captures_are_kinds()
    ensures { CapturesAreKinds }
{}

/// That no tick of an accepted text captures more than a tick has nodes.
pub fn captures_are_few()
    ensures { CapturesAreFew }
{}

/// That no tick of an accepted text splices one of its captures at two places.
pub fn splices_are_once()
    ensures { SplicesAreOnce }
{}

/// That each tick of an accepted text splices each specification that it captures, and names each variable.
pub fn captures_are_named()
    ensures { CapturesAreNamed }
{}

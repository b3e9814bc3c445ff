//! The headline of the image of an accepted text. There is no code to run here: the function's contract is the law.
#![tactic(auto)]

ghost use Rattle.static_image_proof.specs.Laws.{HeadlineHolds};

/// The headline holds for the image, under every legal choice of places.
pub fn headline_holds()
    ensures { HeadlineHolds }
{}

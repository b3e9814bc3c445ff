//! A law of the runs of images.
ghost use Rattle.image_commands.specs.Laws.{ScansOnce};

/// An image has one run under linear scan's choices.
pub fn scans_once()
    ensures { ScansOnce }
{}

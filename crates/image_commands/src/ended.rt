//! What a load gives, and what a call did that runs no machine.
ghost use Rattle.image_commands.specs.Answers.{IsBare};

use host_edge::Counts;
use image_file::Image;
use std::alloc::Global;
use tick_outcome::{Ended, Outcome};

/// The image that a file holds or stands for, or the outcome in its place.
#[derive(Drop)]
pub enum Front {
    /// The image.
    Found(Image),
    /// Why there is none.
    Instead(Outcome),
}

/// An outcome that no machine stands behind.
pub fn bare(alloc: Global, outcome: Outcome) -> Ended
    ensures { IsBare result outcome }
{
    Ended {
        outcome,
        steps: 0,
        choices: Vec::new(alloc),
        counts: Counts {
            ops: 0,
            functions: 0,
            words: 0,
            flushes: 0,
            spills: 0,
        },
        image: None,
    }
}

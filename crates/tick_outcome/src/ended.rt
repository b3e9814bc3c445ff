//! What a call did.

use crate::outcome::Outcome;
use host_edge::Counts;
use image_file::Image;

/// What a call did.
pub struct Ended {
    /// How it ended.
    pub outcome: Outcome,
    /// How many instructions the machine has executed.
    pub steps: u64,
    /// The register places of the function that was finished last in the run, one for each of its registers.
    pub choices: Vec<u8>,
    /// What the machine's services were asked for.
    pub counts: Counts,
    /// The image that the machine ran, where one was made.
    pub image: Option<Image>,
}

impl Drop for Ended {
    fn drop(self) {
        let Ended {
            outcome: _,
            steps: _,
            choices: _,
            counts: _,
            image: _,
        } = self;
    }
}

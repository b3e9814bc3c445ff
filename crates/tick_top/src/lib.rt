//! The top: the parser, the checker and the evaluator under the commands on texts (`source_commands`), as the calls
//! that programs make: a whole call by the words of a command line (`tick`), and what comes of a text, its typed tree,
//! its image and its image file. What each does is said, with laws on it, in `source_commands`.
#![tactic(auto)]

mod accepted;
mod language;
mod top;

pub use accepted::{build, build_file, typed_tree};
pub use image_commands::scans_once;
pub use source_commands::{
    commands_complete, lowers_one, mean_completes, mean_means, means_as_it_runs, reads_headline,
    run_completes, run_means, saves_built, saves_headline, saves_one, shows_runs, sources_complete,
};
pub use tick_outcome::{Ended, Outcome, status};
pub use top::tick;

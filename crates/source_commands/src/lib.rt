//! The commands on texts of the language, and the whole call. What a call of `tick` does is said by definitions: which
//! texts are accepted and what is built of them (`specs/Texts`, `Saved`), what each command does (`specs/Does`, `Top`),
//! what each outcome says (`specs/Rows`), and what all of it tells of the meaning of the text (`specs/Meant`,
//! `Evaluations`). Laws on them are the contracts of functions that do nothing. The code asks for syntax trees, typed
//! trees and evaluations through a trait, `Language`, and so is proved beside the parser, the checker and the
//! evaluator: `tick_top` puts these there.
#![tactic(auto)]

mod accepted;
mod commands;
mod language;
mod laws;
mod load;
mod means;
mod saved;
mod top;

pub use accepted::{build, build_file, typed_tree};
pub use language::{Evaluation, Language};
pub use laws::{
    commands_complete, mean_completes, mean_means, means_as_it_runs, run_completes, run_means,
    shows_runs, sources_complete,
};
pub use saved::{lowers_one, reads_headline, saves_built, saves_headline, saves_one};
pub use top::call;

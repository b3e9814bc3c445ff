//! The machine's definitions, in the words of the MIPS R2000 architecture manual with this project's own regions,
//! services and faults; and the laws that proofs about runs of its code stand on.
//!
//! Among them are the services that make code during a run (`specs/CodeServices`), and the reasons for which they are
//! refused (`BadService`). The code that serves these stands in the crate `icode_service`.
#![tactic(auto)]

mod bad_service;
mod laws;
mod service;
mod service_laws;

pub use bad_service::BadService;
pub use laws::{ends_once, runs_grow, tells_grow, tells_its_run, tells_plainly};
pub use service::Service;
pub use service_laws::{answers_are_small, choices_are_legal, words_stand};

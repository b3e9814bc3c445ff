//! The MIPS I machine that runs an image on an input, instruction by instruction.
#![tactic(auto)]

mod laws;
mod machine;
mod serving;
mod stop;
mod tally;

pub use host_edge::Counts;
pub use laws::{
    begins_there, chooses_so_far, chooses_well, counts_steps, run_twice, runs_all, runs_on_told,
    two_are_one,
};
pub use machine::Machine;
pub use stop::Stop;

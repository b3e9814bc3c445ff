//! The functions that generate the code of ticks: their words, and what they issue. The functions here are laws.
#![tactic(auto)]

mod laws;

pub use laws::{
    calls_are_served, calls_are_told, calls_are_told_below, depths_are_small, runs_are_made,
    specifications_are_generated, specifications_are_issued, ticks_are_built, ticks_are_taken,
};

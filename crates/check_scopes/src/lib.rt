//! The scopes in which names have types: what a name means where it stands, and how it is found.
#![tactic(auto)]

mod names;

pub use names::{DeclareFault, Meaning, MeaningKind, Scopes};

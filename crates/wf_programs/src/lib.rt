//! What holds of the typed tree of each accepted text, put together for whole programs: it stands right, as the typed
//! tree keeps it in its type. These are laws on definitions; there is no code to run here.
#![tactic(auto)]

mod laws;

pub use laws::{checked_is_well_formed, trees_are_good};

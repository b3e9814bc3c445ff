//! What is known of the typed tree of an accepted text: where its nodes stand, its sizes, its frame objects, and that
//! no limit is met; and the typed tree that keeps it in its type.
#![tactic(auto)]

mod typed;

pub use typed::Typed;

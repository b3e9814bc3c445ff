//! The lowering of typed trees: the walk over a body that makes its pieces, of a function of the text, which has no
//! holes, and of a tick.
#![tactic(auto)]

mod addresses;
mod bodies;
mod calls;
mod expressions;
mod making;
mod sizes;
mod statements;
mod variables;

pub use addresses::Addresses;
pub use bodies::{expression_body, statement_body};
pub use sizes::size;

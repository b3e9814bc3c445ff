//! The meaning of a program seen from within a run, as definitions with laws on them: what becomes of what is done now,
//! behind all that is pending (`specs/Rest`).
//!
//! And the state of an evaluation, on a stack of pending work of its own: what the meaning keeps of a run from within,
//! in vectors, so that no nesting of the program uses the host's stack. It is for code that evaluates a program step by
//! step: each of its calls says how the run that the state stands for changes.
#![tactic(auto)]

mod begins;
mod calls;
mod captured;
mod charge;
mod frames;
mod generated;
mod library;
mod memory;
mod parts;
mod pending;
mod spare;
mod state;
mod variables;

pub use charge::charge_of;
pub use parts::{
    EndFrame, ExpressionFrame, Flow, Frame, Now, Place, Popped, StatementFrame, Target,
};
pub use state::{
    Body, Compiled, Entry, Event, Generated, Kept, Machine, Parts, Row, RowKind, Setting,
};

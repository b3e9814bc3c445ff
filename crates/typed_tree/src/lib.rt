//! The typed tree: what the checker makes of a program, and what its meaning and its code are made of.
#![tactic(auto)]

mod expression;
mod nodes;
mod program;
mod sizes;

pub use expression::{Answer, CaptureKind, CapturedWord, Expr, Library, Stmt};
pub use nodes::{
    binary, both, call_number, capture, choice, comma, compile, do_loop, either, for_loop,
    for_step, if_else, if_then, library, load, modify, parameter, post, set_generated,
    set_variable, store, unary, void, while_loop,
};
pub use program::{Function, Tick, TickBody, TypedParts};
pub use sizes::{body_size, has_value, size, statement_size};

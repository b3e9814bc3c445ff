//! The data that the stages of the front hand on: tokens, the syntax tree, the typed tree, and the static faults.
#![tactic(auto)]

mod base;
mod fault;
mod name;
mod syntax;
mod token;
mod tree;

pub use base::{Base, BinaryOp, ModifyOp, Prefix, Signedness, StepOp, UnaryOp};
pub use fault::{Deny, Fault, FaultKind, refused};
pub use name::Name;
pub use syntax::{
    Core, Declaration, Declarator, Expr, External, Init, Initializer, OptionalExpr, Parameter,
    Stmt, Suffix, Typename,
};
pub use token::{Token, TokenKind};
pub use tree::Tree;

//! Expressions, read from tokens. First primary expressions, the operands that hold a type name (`compile`, `local`,
//! `param`, `sizeof` and casts) and the lists in brackets: arguments of calls, and blocks. Then what stands behind and
//! before operands, and the levels above: those of precedence, choices, assignments and commas. Each production takes
//! the number of levels that may still open.
#![tactic(auto)]

mod leaves;
mod levels;
mod operand_operators;
mod operators;
mod parts;
mod postfixes;
mod primaries;
mod staged;
mod typenames;

pub use levels::{assign, cond, expr};
pub use postfixes::unary;
pub use primaries::{block, parenthesized};

//! What statements begin with.

ghost use Rattle.std.specs.Prelude.{◌≡◌};
ghost use Rattle.parse_grammar.specs.Statements as spec;

use parse_grammar::{Kind, Mark};
use tick_tree::BinaryOp;

#[tactic(auto, unfolding(parse_grammar::specs::Statements::begins_expr))]
fn begins_expr(kind: Kind) -> bool
    ensures { result ≡ spec.begins_expr kind }
{
    matches!(
        kind,
        Kind::Name
            | Kind::Number
            | Kind::Character
            | Kind::String
            | Kind::Sizeof
            | Kind::Compile
            | Kind::Local
            | Kind::Param
            | Kind::Backquote
            | Kind::Mark(Mark::ParenOpen)
            | Kind::Operator(BinaryOp::Add | BinaryOp::Sub | BinaryOp::Mul | BinaryOp::BitAnd)
            | Kind::Unary(_)
            | Kind::Step(_)
    )
}

/// Whether the kind begins a statement.
#[tactic(auto, unfolding(parse_grammar::specs::Statements::begins_stmt))]
pub fn begins_stmt(kind: Kind) -> bool
    ensures { result ≡ spec.begins_stmt kind }
{
    match kind {
        Kind::Mark(Mark::Semicolon | Mark::BraceOpen) => true,
        Kind::Word(_) => true,
        _ => begins_expr(kind),
    }
}

/// Whether the kind begins the first part of a `for`: a declaration or an expression statement.
#[tactic(auto, unfolding(parse_grammar::specs::Statements::begins_first))]
pub fn begins_first(kind: Kind) -> bool
    ensures { result ≡ spec.begins_first kind }
{
    match kind {
        Kind::Mark(Mark::Semicolon) => true,
        Kind::Base(_) => true,
        _ => begins_expr(kind),
    }
}

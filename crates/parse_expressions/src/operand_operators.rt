//! The operators that tokens are before and behind an operand.

ghost use Rattle.std.specs.Prelude.{◌≡◌};
ghost use Rattle.parse_grammar.specs.Expressions as spec;

use parse_grammar::{Kind, Mark, Postfix};
use tick_tree::{BinaryOp, StepOp, UnaryOp};

/// The operator that the kind is before an operand.
#[tactic(auto, unfolding(parse_grammar::specs::Expressions::unary_of, parse_grammar::specs::Expressions::sign_of))]
pub fn unary_of(kind: Kind) -> Option<UnaryOp>
    ensures { result ≡ spec.unary_of kind }
{
    match kind {
        Kind::Operator(BinaryOp::Add) => Some(UnaryOp::Plus),
        Kind::Operator(BinaryOp::Sub) => Some(UnaryOp::Minus),
        Kind::Operator(BinaryOp::Mul) => Some(UnaryOp::Star),
        Kind::Operator(BinaryOp::BitAnd) => Some(UnaryOp::Address),
        Kind::Unary(op) => Some(op),
        Kind::Step(StepOp::Increment) => Some(UnaryOp::Increment),
        Kind::Step(StepOp::Decrement) => Some(UnaryOp::Decrement),
        _ => None,
    }
}

/// The operator that the kind is behind an operand.
#[tactic(auto, unfolding(parse_grammar::specs::Expressions::postfix_kind))]
pub fn postfix_kind(kind: Kind) -> Option<Postfix>
    ensures { result ≡ spec.postfix_kind kind }
{
    match kind {
        Kind::Mark(Mark::BracketOpen) => Some(Postfix::Index),
        Kind::Mark(Mark::ParenOpen) => Some(Postfix::Call),
        Kind::Step(op) => Some(Postfix::Step(op)),
        _ => None,
    }
}

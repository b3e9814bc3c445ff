//! The operators that tokens are between operands.

ghost use Rattle.std.specs.Prelude.{◌≡◌, ◌<◌, ◌≤◌, is_some, IfSome};
ghost use Rattle.parse_expressions.specs.Precedence as precedence;
ghost use Rattle.parse_grammar.specs.Expressions as spec;

use parse_grammar::{Kind, Mark};
use tick_tree::BinaryOp;

/// How loosely the operator binds, from 0 for the tightest.
#[tactic(auto, unfolding(parse_grammar::specs::Expressions::looseness))]
fn looseness(op: BinaryOp) -> u8
    ensures { result ≡ spec.looseness op }
{
    match op {
        BinaryOp::Mul => 0,
        BinaryOp::Div => 0,
        BinaryOp::Rem => 0,
        BinaryOp::Add => 1,
        BinaryOp::Sub => 1,
        BinaryOp::ShiftLeft => 2,
        BinaryOp::ShiftRight => 2,
        BinaryOp::Less => 3,
        BinaryOp::Greater => 3,
        BinaryOp::AtMost => 3,
        BinaryOp::AtLeast => 3,
        BinaryOp::Equal => 4,
        BinaryOp::NotEqual => 4,
        BinaryOp::BitAnd => 5,
        BinaryOp::BitXor => 6,
        BinaryOp::BitOr => 7,
        BinaryOp::And => 8,
        BinaryOp::Or => 9,
    }
}

/// The operator of this looseness that the kind is between operands.
#[tactic(auto, unfolding(parse_grammar::specs::Expressions::binary_of))]
pub fn binary_of(level: u8, kind: Kind) -> Option<BinaryOp>
    ensures { result ≡ spec.binary_of level kind }
{
    match kind {
        Kind::Operator(op) => {
            if looseness(op) == level {
                Some(op)
            } else {
                None
            }
        }
        _ => None,
    }
}

/// How loosely the kind binds between operands, where it is an operator of a looseness from `least` on and under `end`.
#[tactic(auto, unfolding(crate::specs::Precedence::operator_of))]
pub fn looseness_within(least: u8, end: u8, kind: Kind) -> Option<u8>
    ensures value { result ≡ precedence.loosely least end (precedence.operator_of kind) }
    ensures within { IfSome result (λ n. (least ≤ n) × (n < end)) }
{
    match kind {
        Kind::Operator(op) => {
            let found = looseness(op);
            if least <= found && found < end {
                Some(found)
            } else {
                None
            }
        }
        _ => None,
    }
}

/// Whether the kind is a comma, which is an operator between two expressions.
#[tactic(auto, unfolding(parse_grammar::specs::Expressions::comma_of))]
pub fn is_comma(kind: Kind) -> bool
    ensures { result ≡ is_some (spec.comma_of kind) }
{
    matches!(kind, Kind::Mark(Mark::Comma))
}

//! Productions of two operands, which are walked one after the other: which rule is whose.

ghost use Rattle.check_expressions.specs.Pairs as spec;
ghost use Rattle.tick_tree.specs.Faults.{Checks};

use crate::nodes::{assign_node, binary_node, comma_node, index_node, modify_node};
use check_operands::Operand;
use check_rules::Stage;
use std::alloc::Global;
use tick_tree::{BinaryOp, Deny, ModifyOp};

/// A production of two operands, which are walked one after the other.
#[derive(Clone, Copy)]
pub enum Pair {
    /// `a[b]`.
    Index,
    /// An operator between its operands.
    Binary(BinaryOp),
    /// `a = b`.
    Assign,
    /// `a op= b`.
    Modify(ModifyOp),
    /// `a, b`.
    Comma,
}

/// What a production of two operands is.
#[inline(always)]
pub fn pair_node(
    alloc: Global,
    line: u32,
    stage: Stage,
    kind: Pair,
    a: Operand,
    b: Operand,
) -> Result<Operand, Deny>
    ensures { Checks result (spec.pair_node line kind stage a b) }
{
    match kind {
        Pair::Index => index_node(alloc, line, stage, a, b),
        Pair::Binary(op) => binary_node(alloc, line, op, a, b),
        Pair::Assign => assign_node(alloc, line, a, b),
        Pair::Modify(op) => modify_node(alloc, line, op, a, b),
        Pair::Comma => Ok(comma_node(alloc, a, b)?),
    }
}

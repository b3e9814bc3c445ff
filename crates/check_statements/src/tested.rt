//! Statements of a test and a body: which rule is whose.

ghost use Rattle.std.specs.Prelude.{◌≡◌};
ghost use Rattle.check_statements.specs.Tested as spec;
ghost use Rattle.tick_tree.specs.Faults.{Checks};

use crate::statements::{if_node, inside, looped, while_node};
use check_operands::Operand;
use check_rules::Around;
use sqlite_items::{Boxed, Items};
use std::alloc::Global;
use tick_tree::Deny;
use typed_tree::Stmt;

/// A statement of a test and a body.
#[derive(Clone, Copy)]
pub enum Tested {
    /// `if` without `else`.
    If,
    /// `while`.
    While,
}

/// What stands round the body of a statement of a test and a body.
pub fn tested_around(kind: Tested, around: Around) -> Around
    ensures { result ≡ spec.tested_around kind around }
{
    match kind {
        Tested::If => inside(around),
        Tested::While => looped(around),
    }
}

/// The node of a statement of a test and a body.
pub fn tested_node(
    alloc: Global,
    line: u32,
    kind: Tested,
    o: Operand,
    x: Boxed<Stmt>,
) -> Result<Items<Stmt>, Deny>
    ensures { Checks result (spec.tested_node line kind o x) }
{
    match kind {
        Tested::If => if_node(alloc, line, o, x),
        Tested::While => while_node(alloc, line, o, x),
    }
}

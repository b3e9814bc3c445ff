//! The walk over the parts of an item, under the walk over the items.

use check_declarators::Step;
use check_items::PartWalk;
use check_operands::Operand;
use check_rules::{Around, Stage, State};
use check_walk::{declarator, expression, items};
use sqlite_items::Items;
use std::alloc::Global;
use tick_tree::{Declarator, Deny, Expr};
use typed_tree::Stmt;

/// The one walk over declarators, expressions and statements.
pub(crate) struct TreeWalk;

impl PartWalk for TreeWalk {
    fn declarator(
        alloc: Global,
        state: &mut State,
        stage: Stage,
        d: &Declarator,
    ) -> Result<Items<Step>, Deny> {
        declarator(alloc, state, stage, d)
    }

    fn expression(
        alloc: Global,
        state: &mut State,
        stage: Stage,
        e: &Expr,
    ) -> Result<Operand, Deny> {
        expression(alloc, state, stage, e)
    }

    fn items(
        alloc: Global,
        state: &mut State,
        around: Around,
        list: &[tick_tree::Stmt],
    ) -> Result<Items<Stmt>, Deny> {
        items(alloc, state, around, list)
    }
}

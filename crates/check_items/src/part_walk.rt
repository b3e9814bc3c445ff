//! What the walk over the items of a program asks of the walk over their parts.

ghost use Rattle.check_rules.specs.Walk as spec;
ghost use Rattle.check_rules.specs.Walks.{Reads};

use check_declarators::Step;
use check_operands::Operand;
use check_rules::{Around, Stage, State};
use sqlite_items::Items;
use std::alloc::Global;
use tick_tree::{Declarator, Deny, Expr};
use typed_tree::Stmt;

/// A walk over declarators, expressions and statements. There is one, that of `check_walk`, which `tick_checker` puts
/// here; what stands behind it rests on these contracts alone.
pub trait PartWalk {
    /// The steps from a base to the type that a declarator declares.
    fn declarator(
        alloc: Global,
        state: &mut State,
        stage: Stage,
        d: &Declarator,
    ) -> Result<Items<Step>, Deny>
        ensures { Reads ((spec.shape d.now).walk stage state.old) result state.new };

    /// What an expression is, or the first fault.
    fn expression(alloc: Global, state: &mut State, stage: Stage, e: &Expr) -> Result<Operand, Deny>
        ensures { Reads ((spec.node e.now).walk stage state.old) result state.new };

    /// The nodes of the items of a block.
    fn items(
        alloc: Global,
        state: &mut State,
        around: Around,
        list: &[tick_tree::Stmt],
    ) -> Result<Items<Stmt>, Deny>
        ensures { Reads (spec.items list.now around state.old) result state.new };
}

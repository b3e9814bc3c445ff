//! Blocks: entering and leaving them.

ghost use Rattle.std.specs.Prelude.{◌≡◌, ◌<◌, length};
ghost use Rattle.check_rules.specs.Blocks as spec;
ghost use Rattle.check_rules.specs.Walks.{Reads};

use check_rules::State;
use sqlite_items::Items;
use std::alloc::Global;
use tick_tree::Deny;
use typed_tree::Stmt;

/// How many scopes are open.
pub fn depth(state: &State) -> usize
    ensures value { result ≡ length state.now.scopes }
    ensures some { 0 < result }
{
    state.scopes.depth()
}

/// Enters a block, which has a scope of its own; the nodes of the variables of the block round it.
#[tactic(auto, unfolding(check_rules::specs::Blocks::enter))]
pub fn enter(alloc: Global, state: &mut State) -> Result<Items<Stmt>, Deny>
    ensures { Reads (spec.enter state.old) result state.new }
{
    state.scopes.open()?;
    Ok(state.frame.enter(alloc))
}

/// Leaves a block to the one where so many scopes are open and whose variables have these nodes; the nodes of its own.
#[tactic(auto, unfolding(check_rules::specs::Blocks::leave))]
pub fn leave(state: &mut State, depth: usize, outer: Items<Stmt>) -> Result<Items<Stmt>, Deny>
    requires { 0 < depth }
    ensures { Reads (spec.leave depth outer state.old) result state.new }
{
    state.scopes.close_to(depth);
    Ok(state.frame.leave(outer))
}

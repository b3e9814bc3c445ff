//! How many nodes a function that returns a number has.

ghost use Rattle.std.specs.Prelude.{◌≡◌};
ghost use Rattle.std.specs.List.{All};

use crate::returns::listed;
use std::alloc::{AllocError, Global};
use tick_lower::size;
use typed_tree::{Expr, Function, Stmt};

// How many nodes the functions have.
fn nodes_of(list: &[Function]) -> u32
    requires { All (λ f. (f.body ≡ Stmt.ReturnValue (Expr.Const 3)) × (f.params ≡ 0) × (f.object ≡ 0)) list.now }
{
    let mut nodes = 0u32;
    for f in list {
        nodes = nodes.saturating_add(size(f));
    }
    nodes
}

fn listed_nodes(alloc: Global) -> Result<u32, AllocError> {
    let list = listed(alloc)?;
    Ok(nodes_of(list.as_slice()))
}

#[test]
fn a_return_has_two_nodes(rt: HostRuntime) {
    assert!(rt; listed_nodes(rt.alloc()) == Ok(2));
}

//! Lists with more behind them. A list that finds no memory is dropped.

ghost use Rattle.std.specs.Prelude.{◌≡◌, [], ◌∷◌, ◌++◌, IfOk};
ghost use Rattle.check_rules.specs.Statements as spec;

use check_operands::{Operand, effect};
use sqlite_items::{Boxed, Items};
use std::alloc::{AllocError, Global};
use typed_tree::Stmt;

/// The nodes, and these behind them.
pub fn appended(nodes: Items<Stmt>, found: Items<Stmt>) -> Result<Items<Stmt>, AllocError>
    ensures { IfOk result (λ all. all ≡ nodes ++ found) }
{
    // (so a list of one statement is the one that the statement gave)
    if nodes.is_empty() {
        return Ok(found);
    }
    let mut nodes = nodes;
    match nodes.append(found) {
        Ok(()) => Ok(nodes),
        Err(why) => {
            drop(nodes);
            Err(why)
        }
    }
}

/// The nodes, and that of an expression as a statement behind them.
pub fn with_effect(alloc: Global, nodes: Items<Stmt>, o: Operand) -> Result<Items<Stmt>, AllocError>
    ensures { IfOk result (λ all. all ≡ nodes ++ spec.alone o) }
{
    let code = match effect(alloc, o) {
        Ok(code) => code,
        Err(why) => {
            drop(nodes);
            return Err(why);
        }
    };
    let mut nodes = nodes;
    match nodes.push(Stmt::Eval(code)) {
        Ok(()) => Ok(nodes),
        Err(why) => {
            drop(nodes);
            Err(why)
        }
    }
}

/// The nodes, and this one behind them.
pub fn pushed(nodes: Items<Stmt>, node: Boxed<Stmt>) -> Result<Items<Stmt>, AllocError>
    ensures { IfOk result (λ all. all ≡ nodes ++ node ∷ []) }
{
    let mut nodes = nodes;
    match nodes.push(node.into_inner()) {
        Ok(()) => Ok(nodes),
        Err(why) => {
            drop(nodes);
            Err(why)
        }
    }
}

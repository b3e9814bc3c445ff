//! The function that returns 3, made by hand.

ghost use Rattle.std.specs.Prelude.{◌≡◌, IfOk, length};
ghost use Rattle.std.specs.List.{All};

use sqlite_items::{Boxed, Items};
use std::alloc::{AllocError, Global};
use typed_tree::{Expr, Function, Stmt};

/// A list of `int main() { return 3; }`.
pub fn listed(alloc: Global) -> Result<Items<Function>, AllocError>
    ensures returns { IfOk result (λ list. All
        (λ f. (f.body ≡ Stmt.ReturnValue (Expr.Const 3)) × (f.params ≡ 0) × (f.object ≡ 0)) list) }
    ensures one { IfOk result (λ list. length list ≡ 1) }
{
    let three = Boxed::new(alloc, Expr::Const(3))?;
    let body = Boxed::new(alloc, Stmt::ReturnValue(three))?;
    let mut list = Items::new(alloc);
    list.push(Function {
        name: Items::new(alloc),
        line: 1,
        params: 0,
        object: 0,
        size: 2,
        body,
    })?;
    Ok(list)
}

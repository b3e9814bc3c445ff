//! Nodes of typed trees, made by hand.

use sqlite_items::Boxed;
use std::alloc::{AllocError, Global};
use typed_tree::Expr;

/// A constant.
pub(crate) fn word(alloc: Global, n: u32) -> Result<Boxed<Expr>, AllocError> {
    Boxed::new(alloc, Expr::Const(n))
}

//! Forms of small trees.

use check_forms::{declared_name, has_form, name_of, string_of};
use sqlite_items::{Boxed, Items};
use std::alloc::{AllocError, Global};
use tick_tree::{BinaryOp, Core, Declarator, Expr, Name};

// Whether an operation on 1 and this operand has the form.
fn has_form_with(alloc: Global, op: BinaryOp, right: Expr) -> Result<bool, AllocError> {
    let both = Boxed::new(alloc, (Expr::Number(1, false), right))?;
    Ok(has_form(&Expr::Binary(1, op, both)))
}

// Whether `(f)` is the name f, and no string.
fn is_name_in_parentheses(alloc: Global) -> Result<bool, AllocError> {
    let name = Name::new(alloc, b"f")?;
    let e = Expr::Paren(Boxed::new(alloc, Expr::Name(3, name))?);
    let is_name = matches!(name_of(&e), Some(name) if name.as_slice() == b"f".as_slice());
    Ok(is_name && string_of(&e).is_none())
}

// Whether `"ab"` is a string of two bytes.
fn is_string_of_two(alloc: Global) -> Result<bool, AllocError> {
    let e = Expr::String(Items::from_slice(alloc, b"ab")?);
    Ok(matches!(string_of(&e), Some(text) if text.len() == 2))
}

fn declarator(alloc: Global, core: Core) -> Declarator {
    Declarator {
        prefixes: Items::new(alloc),
        core,
        suffixes: Items::new(alloc),
    }
}

// Whether `(x)` declares the name at token 4.
fn declares_in_parentheses(alloc: Global) -> Result<bool, AllocError> {
    let name = Name::new(alloc, b"x")?;
    let inner = Boxed::new(alloc, declarator(alloc, Core::Name(4, name)))?;
    let d = declarator(alloc, Core::Paren(inner));
    Ok(matches!(declared_name(&d), Some((4, _))))
}

#[test]
fn small_trees_have_their_forms(rt: HostRuntime) {
    let are_so = [
        has_form_with(rt.alloc(), BinaryOp::Add, Expr::Character(2)),
        has_form_with(rt.alloc(), BinaryOp::And, Expr::Number(2, false)),
        is_name_in_parentheses(rt.alloc()),
        is_string_of_two(rt.alloc()),
        declares_in_parentheses(rt.alloc()),
    ];
    assert!(rt; are_so == [Ok(true), Ok(false), Ok(true), Ok(true), Ok(true)]);
}

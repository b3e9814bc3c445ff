//! A tree made by hand, and its size.

use crate::nodes::word;
use sqlite_items::{Boxed, Items};
use std::alloc::{AllocError, Global};
use typed_tree::{
    Answer, Expr, Library, Stmt, comma, has_value, library, size, statement_size, void,
};

// { putchar(72); return 3; }
fn body(alloc: Global) -> Result<Boxed<Stmt>, AllocError> {
    let put = library(alloc, Library::Putchar, word(alloc, 72)?)?;
    let mut items = Items::new(alloc);
    items.push(Stmt::Eval(put))?;
    items.push(Stmt::ReturnValue(word(alloc, 3)?))?;
    Boxed::new(alloc, Stmt::Block(Items::new(alloc), items))
}

fn nodes_of_body(alloc: Global) -> Result<u32, AllocError> {
    let body = body(alloc)?;
    Ok(statement_size(body.get()))
}

// f()
fn call(alloc: Global) -> Result<Boxed<Expr>, AllocError> {
    Boxed::new(alloc, Expr::Call(Answer::Void, 1, Items::new(alloc)))
}

// Whether f(),getchar() has three nodes, f() leaves no value, that one, and that as void none.
fn comma_of_call(alloc: Global) -> Result<bool, AllocError> {
    let called = call(alloc)?;
    let first = has_value(called.get());
    let byte = Boxed::new(alloc, Expr::Getchar)?;
    let both = comma(alloc, called, byte)?;
    let second = has_value(both.get());
    let nodes = size(both.get());
    let none = void(alloc, both)?;
    Ok(nodes == 3 && [first, second, has_value(none.get())] == [false, true, false])
}

#[test]
fn trees_have_their_nodes_and_values(rt: HostRuntime) {
    // a body of two statements has six nodes
    assert!(rt; nodes_of_body(rt.alloc()) == Ok(6) && comma_of_call(rt.alloc()) == Ok(true));
}

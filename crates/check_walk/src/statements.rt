//! The walk over statements.

// What is owned is dropped by hand before an error goes on. Over a `?` its drop would be written out at each exit,
// variant by variant (CONTRIBUTING.md, "How to keep proofs cheap", 3). The order of the drops means nothing.

ghost use Rattle.std.specs.Prelude.{◌≡◌, Ok, map};
ghost use Rattle.check_rules.specs.StatementRules as statements;
ghost use Rattle.check_rules.specs.Walks.{Reads};
ghost use Rattle.check_walk.specs.Kinds as kinds;
ghost use Rattle.check_rules.specs.Walk as spec;

use crate::declarations::locals;
use crate::expressions::{expression, optional};
use check_forms::has_form;
use check_operands::Operand;
use check_rules::{Around, State};
use check_statements::{
    Tested, alone, appended, body, break_entry, case_entry, case_node, continue_entry,
    default_node, do_node, empty_node, for_node, if_else_node, inside, looped, one, pushed,
    return_node, switch_entered, switch_node, switched, tested_around, tested_node, with_effect,
};
use sqlite_items::{Boxed, Items};
use std::alloc::Global;
use tick_tree::{self as syntax, Deny, Expr, OptionalExpr};
use typed_tree::Stmt;

/// The nodes of the items of a block.
#[cycle(walk)]
#[tactic(auto, using(crate::proofs::Behind::behind_more, crate::proofs::Behind::behind_fails))]
pub fn items(
    alloc: Global,
    state: &mut State,
    around: Around,
    list: &[syntax::Stmt],
) -> Result<Items<Stmt>, Deny>
    ensures { Reads (spec.items list.now around state.old) result state.new }
{
    let mut nodes = Items::new(alloc);
    for s in list {
        nodes = item_behind(alloc, state, around, nodes, s)?;
    }
    Ok(nodes)
}

// Walks an item, and puts its nodes behind these. An expression's node stands in no list of its own before.
#[cycle(walk)]
#[tactic(auto, using(check_laws::proofs::Equations::item_expr))]
fn item_behind(
    alloc: Global,
    state: &mut State,
    around: Around,
    nodes: Items<Stmt>,
    s: &syntax::Stmt,
) -> Result<Items<Stmt>, Deny>
    ensures { Reads (kinds.item_behind nodes (spec.item s.now) around state.old) result state.new }
{
    match s {
        syntax::Stmt::Expr(e) => match expression(alloc, state, around.stage, e) {
            Ok(o) => Ok(with_effect(alloc, nodes, o)?),
            Err(why) => {
                drop(nodes);
                Err(why)
            }
        },
        _ => match statement(alloc, state, around, s) {
            Ok(found) => Ok(appended(nodes, found)?),
            Err(why) => {
                drop(nodes);
                Err(why)
            }
        },
    }
}

/// A block, with the nodes of its variables.
#[cycle(walk)]
pub fn block(
    alloc: Global,
    state: &mut State,
    around: Around,
    list: &[syntax::Stmt],
) -> Result<Boxed<Stmt>, Deny>
    ensures { Reads (spec.block list.now around state.old) result state.new }
{
    let depth = check_names::depth(state);
    let outer = check_names::enter(alloc, state)?;
    let nodes = match items(alloc, state, around, list) {
        Ok(nodes) => nodes,
        Err(why) => {
            drop(outer);
            return Err(why);
        }
    };
    match check_names::leave(state, depth, outer) {
        Ok(variables) => Ok(Boxed::new(alloc, Stmt::Block(variables, nodes))?),
        Err(why) => {
            drop(nodes);
            Err(why)
        }
    }
}

// Walks the body of a statement, which is one node.
#[cycle(walk)]
#[tactic(auto, using(crate::proofs::Behind::body_block))]
fn body_of(
    alloc: Global,
    state: &mut State,
    around: Around,
    s: &syntax::Stmt,
) -> Result<Boxed<Stmt>, Deny>
    ensures { Reads (statements.body (spec.item s.now) around state.old) result state.new }
{
    match s {
        syntax::Stmt::Block(list) => block(alloc, state, inside(around), list.as_slice()),
        _ => {
            let nodes = statement(alloc, state, around, s)?;
            Ok(body(alloc, nodes)?)
        }
    }
}

// Walks an `if` without `else`, or a `while`.
#[cycle(walk)]
fn tested(
    alloc: Global,
    state: &mut State,
    line: u32,
    around: Around,
    kind: Tested,
    c: &Expr,
    a: &syntax::Stmt,
) -> Result<Items<Stmt>, Deny>
    ensures { Reads (kinds.tested line kind (spec.node c.now) (spec.item a.now) around state.old) result state.new }
{
    let o = expression(alloc, state, around.stage, c)?;
    match body_of(alloc, state, tested_around(kind, around), a) {
        Ok(x) => tested_node(alloc, line, kind, o, x),
        Err(why) => {
            drop(o);
            Err(why)
        }
    }
}

// Walks an `if` with `else`.
#[cycle(walk)]
fn branches(
    alloc: Global,
    state: &mut State,
    line: u32,
    around: Around,
    c: &Expr,
    a: &syntax::Stmt,
    b: &syntax::Stmt,
) -> Result<Items<Stmt>, Deny>
    ensures { Reads (statements.if_else line (spec.node c.now) (spec.item a.now) (spec.item b.now) around state.old)
        result state.new }
{
    let o = expression(alloc, state, around.stage, c)?;
    let x = match body_of(alloc, state, inside(around), a) {
        Ok(x) => x,
        Err(why) => {
            drop(o);
            return Err(why);
        }
    };
    match body_of(alloc, state, inside(around), b) {
        Ok(y) => if_else_node(alloc, line, o, x, y),
        Err(why) => {
            drop(o);
            drop(x);
            Err(why)
        }
    }
}

#[cycle(walk)]
fn done_first(
    alloc: Global,
    state: &mut State,
    line: u32,
    around: Around,
    a: &syntax::Stmt,
    c: &Expr,
) -> Result<Items<Stmt>, Deny>
    ensures { Reads (statements.do_loop line (spec.item a.now) (spec.node c.now) around state.old) result state.new }
{
    let x = body_of(alloc, state, looped(around), a)?;
    match expression(alloc, state, around.stage, c) {
        Ok(o) => do_node(alloc, line, x, o),
        Err(why) => {
            drop(x);
            Err(why)
        }
    }
}

// Walks a `for` behind its first part.
#[cycle(walk)]
fn for_rest(
    alloc: Global,
    state: &mut State,
    line: u32,
    around: Around,
    c: &OptionalExpr,
    s: &OptionalExpr,
    a: &syntax::Stmt,
) -> Result<Boxed<Stmt>, Deny>
    ensures { Reads (statements.for_rest line (spec.optional c.now) (spec.optional s.now)
        (spec.item a.now) around state.old) result state.new }
{
    let test = optional(alloc, state, around.stage, c)?;
    let step = match optional(alloc, state, around.stage, s) {
        Ok(step) => step,
        Err(why) => {
            drop(test);
            return Err(why);
        }
    };
    match body_of(alloc, state, looped(around), a) {
        Ok(x) => for_node(alloc, line, test, step, x),
        Err(why) => {
            drop(test);
            drop(step);
            Err(why)
        }
    }
}

// Walks a `for` with a first part: a block of it and the rest.
#[cycle(walk)]
fn for_block(
    alloc: Global,
    state: &mut State,
    line: u32,
    around: Around,
    first: &syntax::Stmt,
    c: &OptionalExpr,
    s: &OptionalExpr,
    a: &syntax::Stmt,
) -> Result<Items<Stmt>, Deny>
    ensures { Reads (statements.for_block line (spec.item first.now) (spec.optional c.now) (spec.optional s.now)
        (spec.item a.now) around state.old) result state.new }
{
    let depth = check_names::depth(state);
    let outer = check_names::enter(alloc, state)?;
    let nodes = match statement(alloc, state, inside(around), first) {
        Ok(nodes) => nodes,
        Err(why) => {
            drop(outer);
            return Err(why);
        }
    };
    let node = match for_rest(alloc, state, line, around, c, s, a) {
        Ok(node) => node,
        Err(why) => {
            drop(outer);
            drop(nodes);
            return Err(why);
        }
    };
    let nodes = match pushed(nodes, node) {
        Ok(nodes) => nodes,
        Err(why) => {
            drop(outer);
            return Err(why.into());
        }
    };
    match check_names::leave(state, depth, outer) {
        Ok(variables) => Ok(one(alloc, Stmt::Block(variables, nodes))?),
        Err(why) => {
            drop(nodes);
            Err(why)
        }
    }
}

fn is_empty(s: &syntax::Stmt) -> bool
    ensures { result ≡ (spec.item s.now).is_empty }
{
    match s {
        syntax::Stmt::Empty => true,
        syntax::Stmt::Expr(_) => false,
        syntax::Stmt::Block(_) => false,
        syntax::Stmt::Local(_) => false,
        syntax::Stmt::If(_, _, _) => false,
        syntax::Stmt::IfElse(_, _, _, _) => false,
        syntax::Stmt::While(_, _, _) => false,
        syntax::Stmt::Do(_, _, _) => false,
        syntax::Stmt::For(_, _, _, _, _) => false,
        syntax::Stmt::Switch(_, _, _) => false,
        syntax::Stmt::Case(_, _) => false,
        syntax::Stmt::Default(_) => false,
        syntax::Stmt::Break(_) => false,
        syntax::Stmt::Continue(_) => false,
        syntax::Stmt::Return(_, _) => false,
    }
}

#[cycle(walk)]
fn for_all(
    alloc: Global,
    state: &mut State,
    line: u32,
    around: Around,
    first: &syntax::Stmt,
    c: &OptionalExpr,
    s: &OptionalExpr,
    a: &syntax::Stmt,
) -> Result<Items<Stmt>, Deny>
    ensures { Reads (statements.for_loop line (spec.item first.now) (spec.optional c.now) (spec.optional s.now)
        (spec.item a.now) around state.old) result state.new }
{
    if is_empty(first) {
        let node = for_rest(alloc, state, line, around, c, s, a)?;
        Ok(one(alloc, node.into_inner())?)
    } else {
        for_block(alloc, state, line, around, first, c, s, a)
    }
}

// Walks the variables and the items of the block of a switch, with labels of its own.
#[cycle(walk)]
fn switch_block(
    alloc: Global,
    state: &mut State,
    around: Around,
    list: &[syntax::Stmt],
) -> Result<(Items<Stmt>, Items<Stmt>), Deny>
    ensures { Reads (statements.labelled_block (map spec.item list.now) around state.old) result state.new }
{
    let labels = switch_entered(alloc, state)?;
    let depth = check_names::depth(state);
    let outer = match check_names::enter(alloc, state) {
        Ok(outer) => outer,
        Err(why) => {
            drop(labels);
            return Err(why);
        }
    };
    let nodes = match items(alloc, state, switched(around), list) {
        Ok(nodes) => nodes,
        Err(why) => {
            drop(labels);
            drop(outer);
            return Err(why);
        }
    };
    match check_names::leave(state, depth, outer) {
        Ok(variables) => {
            state.labels = labels;
            Ok((variables, nodes))
        }
        Err(why) => {
            drop(labels);
            drop(nodes);
            Err(why)
        }
    }
}

#[cycle(walk)]
fn switch(
    alloc: Global,
    state: &mut State,
    line: u32,
    around: Around,
    e: &Expr,
    list: &[syntax::Stmt],
) -> Result<Items<Stmt>, Deny>
    ensures { Reads (statements.switch line (spec.node e.now) (map spec.item list.now) around state.old)
        result state.new }
{
    let o = expression(alloc, state, around.stage, e)?;
    match switch_block(alloc, state, around, list) {
        Ok(p) => switch_node(alloc, line, o, p.0, p.1),
        Err(why) => {
            drop(o);
            Err(why)
        }
    }
}

#[cycle(walk)]
#[tactic(auto, using(check_laws::proofs::Written::forms_of))]
fn case(
    alloc: Global,
    state: &mut State,
    line: u32,
    around: Around,
    e: &Expr,
) -> Result<Items<Stmt>, Deny>
    ensures { Reads (statements.case line (spec.node e.now) around state.old) result state.new }
{
    case_entry(line, has_form(e), around)?;
    let o = expression(alloc, state, around.stage, e)?;
    case_node(alloc, state, line, o)
}

#[cycle(walk)]
#[tactic(auto, using(check_laws::proofs::Equations::optionals))]
fn returned(
    alloc: Global,
    state: &mut State,
    line: u32,
    around: Around,
    e: &OptionalExpr,
) -> Result<Items<Stmt>, Deny>
    ensures { Reads (statements.returning line (spec.optional e.now) around state.old) result state.new }
{
    match e {
        OptionalExpr::Absent => Ok(one(alloc, Stmt::Return)?),
        OptionalExpr::Present(e) => {
            let o = expression(alloc, state, around.stage, e)?;
            return_node(alloc, state, line, around.stage, o)
        }
    }
}

/// The nodes of a statement, one but for a declaration, or the first fault.
#[cycle(walk)]
#[tactic(auto, using(check_laws::proofs::Equations::statements))]
pub fn statement(
    alloc: Global,
    state: &mut State,
    around: Around,
    s: &syntax::Stmt,
) -> Result<Items<Stmt>, Deny>
    ensures { Reads ((spec.item s.now).walk around state.old) result state.new }
{
    match s {
        syntax::Stmt::Empty => empty_node(alloc),
        syntax::Stmt::Expr(e) => {
            let o = expression(alloc, state, around.stage, e)?;
            Ok(alone(alloc, o)?)
        }
        syntax::Stmt::Block(list) => {
            let node = block(alloc, state, inside(around), list.as_slice())?;
            Ok(one(alloc, node.into_inner())?)
        }
        syntax::Stmt::Local(d) => {
            locals(
                alloc,
                state,
                around.stage,
                d.line,
                d.base,
                d.inits.as_slice(),
            )
        }
        syntax::Stmt::If(line, c, a) => {
            tested(alloc, state, *line, around, Tested::If, c, a.get())
        }
        syntax::Stmt::IfElse(line, c, a, b) => {
            branches(alloc, state, *line, around, c, a.get(), b.get())
        }
        syntax::Stmt::While(line, c, a) => {
            tested(alloc, state, *line, around, Tested::While, c, a.get())
        }
        syntax::Stmt::Do(line, a, c) => done_first(alloc, state, *line, around, a.get(), c),
        syntax::Stmt::For(line, first, c, s, a) => {
            for_all(alloc, state, *line, around, first.get(), c, s, a.get())
        }
        syntax::Stmt::Switch(line, e, list) => {
            switch(alloc, state, *line, around, e, list.as_slice())
        }
        syntax::Stmt::Case(line, e) => case(alloc, state, *line, around, e),
        syntax::Stmt::Default(line) => default_node(alloc, state, *line, around),
        syntax::Stmt::Break(line) => break_entry(alloc, *line, around),
        syntax::Stmt::Continue(line) => continue_entry(alloc, *line, around),
        syntax::Stmt::Return(line, e) => returned(alloc, state, *line, around, e),
    }
}

//! The walk over expressions.

// What is owned is dropped by hand before an error goes on. Over a `?` its drop would be written out at each exit,
// variant by variant (CONTRIBUTING.md, "How to keep proofs cheap", 3). The order of the drops means nothing.

ghost use Rattle.std.specs.Prelude.{◌≡◌, map};
ghost use Rattle.check_operands.specs.Calls as calls;
ghost use Rattle.check_rules.specs.ExpressionRules as rules;
ghost use Rattle.check_rules.specs.StatementRules as statements;
ghost use Rattle.check_rules.specs.Walks.{Reads};
ghost use Rattle.check_walk.specs.Kinds as kinds;
ghost use Rattle.check_rules.specs.Walk as spec;

use crate::statements::block;
use crate::types::typename;
use c_type_refs::TypeRef;
use check_expressions::{
    Naming, Pair, Typing, argument, call_node, character_leaf, choice_node, compile_node,
    library_of, naming_entry, naming_node, number_leaf, pair_node, post_node, staging_entry,
    string_leaf, tick_around, tick_entered, tick_entry, typing_entry, typing_node, unary_entry,
    unary_node,
};
use check_operands::{Arguments, Operand};
use check_rules::{Stage, State};
use std::alloc::Global;
use tick_tree::{Deny, Expr, OptionalExpr, StepOp, Stmt, Typename, UnaryOp};

// Walks the arguments of a call.
#[cycle(walk)]
fn arguments(
    alloc: Global,
    state: &mut State,
    stage: Stage,
    list: &[Expr],
) -> Result<Arguments, Deny>
    ensures { Reads (spec.arguments list.now calls.no_arguments stage state.old) result state.new }
{
    let mut found = Arguments::new(alloc);
    for e in list {
        match expression(alloc, state, stage, e) {
            Ok(o) => found = argument(alloc, found, o)?,
            Err(why) => {
                drop(found);
                return Err(why);
            }
        }
    }
    Ok(found)
}

#[cycle(walk)]
fn plain_call(
    alloc: Global,
    state: &mut State,
    line: u32,
    stage: Stage,
    f: &Expr,
    list: &[Expr],
) -> Result<Operand, Deny>
    ensures { Reads (rules.plain_call line (spec.node f.now) (map spec.node list.now) stage state.old)
        result state.new }
{
    let o = expression(alloc, state, stage, f)?;
    match arguments(alloc, state, stage, list) {
        Ok(found) => call_node(alloc, line, stage, o, found),
        Err(why) => {
            drop(o);
            Err(why)
        }
    }
}

#[cycle(walk)]
#[tactic(auto, using(check_laws::proofs::Written::forms_of))]
fn call(
    alloc: Global,
    state: &mut State,
    line: u32,
    stage: Stage,
    f: &Expr,
    list: &[Expr],
) -> Result<Operand, Deny>
    ensures { Reads (rules.call line (spec.node f.now) (map spec.node list.now) stage state.old) result state.new }
{
    match library_of(alloc, state, f)? {
        Some((n, t)) => match arguments(alloc, state, stage, list) {
            Ok(found) => check_calls::library(alloc, line, n, t, found),
            Err(why) => {
                drop(t);
                Err(why)
            }
        },
        None => plain_call(alloc, state, line, stage, f, list),
    }
}

#[cycle(walk)]
fn tick_expression(
    alloc: Global,
    state: &mut State,
    line: u32,
    stage: Stage,
    a: &Expr,
) -> Result<Operand, Deny>
    ensures { Reads (rules.tick_expression line (spec.node a.now) stage state.old) result state.new }
{
    tick_entry(line, stage)?;
    tick_entered(alloc, state);
    let o = expression(alloc, state, Stage::Tick, a)?;
    Ok(check_expressions::tick_expression(alloc, state, o)?)
}

#[cycle(walk)]
fn tick_block(
    alloc: Global,
    state: &mut State,
    line: u32,
    stage: Stage,
    items: &[Stmt],
) -> Result<Operand, Deny>
    ensures { Reads (rules.tick_block line (map spec.item items.now) stage state.old) result state.new }
{
    tick_entry(line, stage)?;
    tick_entered(alloc, state);
    let body = block(alloc, state, tick_around(), items)?;
    Ok(check_expressions::tick_block(alloc, state, body)?)
}

#[cycle(walk)]
fn compile(
    alloc: Global,
    state: &mut State,
    line: u32,
    stage: Stage,
    a: &Expr,
    t: &Typename,
) -> Result<Operand, Deny>
    ensures { Reads (rules.compile line (spec.node a.now) (spec.named t.now) stage state.old) result state.new }
{
    staging_entry(line, stage)?;
    let o = expression(alloc, state, stage, a)?;
    match typename(alloc, state, line, stage, t) {
        Ok(t) => compile_node(alloc, line, t, o),
        Err(why) => {
            drop(o);
            Err(why)
        }
    }
}

#[cycle(walk)]
fn choice(
    alloc: Global,
    state: &mut State,
    line: u32,
    stage: Stage,
    c: &Expr,
    a: &Expr,
    b: &Expr,
) -> Result<Operand, Deny>
    ensures { Reads (rules.choice line (spec.node c.now) (spec.node a.now) (spec.node b.now) stage state.old)
        result state.new }
{
    let test = expression(alloc, state, stage, c)?;
    let x = match expression(alloc, state, stage, a) {
        Ok(x) => x,
        Err(why) => {
            drop(test);
            return Err(why);
        }
    };
    match expression(alloc, state, stage, b) {
        Ok(y) => choice_node(alloc, line, test, x, y),
        Err(why) => {
            drop(test);
            drop(x);
            Err(why)
        }
    }
}

// Walks an operator before its operand.
#[cycle(walk)]
fn unary(
    alloc: Global,
    state: &mut State,
    line: u32,
    stage: Stage,
    op: UnaryOp,
    a: &Expr,
) -> Result<Operand, Deny>
    ensures { Reads (rules.unary line op (spec.node a.now) stage state.old) result state.new }
{
    let inner = unary_entry(line, op, stage)?;
    let o = expression(alloc, state, inner, a)?;
    unary_node(alloc, state, line, op, stage, o)
}

// Walks `++` or `--` behind its operand.
#[cycle(walk)]
fn post(
    alloc: Global,
    state: &mut State,
    line: u32,
    stage: Stage,
    op: StepOp,
    a: &Expr,
) -> Result<Operand, Deny>
    ensures { Reads (rules.post line op (spec.node a.now) stage state.old) result state.new }
{
    let o = expression(alloc, state, stage, a)?;
    post_node(alloc, line, op, o)
}

// Walks a production of two operands, one after the other.
#[cycle(walk)]
fn pair(
    alloc: Global,
    state: &mut State,
    line: u32,
    stage: Stage,
    kind: Pair,
    parts: &(Expr, Expr),
) -> Result<Operand, Deny>
    ensures { Reads (kinds.pair line kind (spec.node parts.now.0) (spec.node parts.now.1) stage state.old)
        result state.new }
{
    match expression(alloc, state, stage, &parts.0) {
        Ok(x) => match expression(alloc, state, stage, &parts.1) {
            Ok(y) => pair_node(alloc, line, stage, kind, x, y),
            Err(why) => {
                drop(x);
                Err(why)
            }
        },
        Err(why) => Err(why),
    }
}

// Walks a production of a type name alone.
#[cycle(walk)]
fn named(
    alloc: Global,
    state: &mut State,
    line: u32,
    stage: Stage,
    kind: Naming,
    t: &Typename,
) -> Result<Operand, Deny>
    ensures { Reads (kinds.named line kind (spec.named t.now) stage state.old) result state.new }
{
    naming_entry(line, kind, stage)?;
    let t = typename(alloc, state, line, stage, t)?;
    naming_node(alloc, line, kind, t)
}

// Walks a production of a type name and an operand behind it.
#[cycle(walk)]
fn typed(
    alloc: Global,
    state: &mut State,
    line: u32,
    stage: Stage,
    kind: Typing,
    t: &Typename,
    a: &Expr,
) -> Result<Operand, Deny>
    ensures { Reads (kinds.typed line kind (spec.named t.now) (spec.node a.now) stage state.old) result state.new }
{
    typing_entry(line, kind, stage)?;
    let t = typename(alloc, state, line, stage, t)?;
    let o = expression(alloc, state, stage, a)?;
    typing_node(alloc, line, kind, t, o)
}

/// What an expression that may be absent is.
#[cycle(walk)]
#[tactic(auto, using(check_laws::proofs::Equations::optionals))]
pub fn optional(
    alloc: Global,
    state: &mut State,
    stage: Stage,
    e: &OptionalExpr,
) -> Result<Option<Operand>, Deny>
    ensures { Reads (statements.optional (spec.optional e.now) stage state.old) result state.new }
{
    match e {
        OptionalExpr::Absent => Ok(None),
        OptionalExpr::Present(e) => Ok(Some(expression(alloc, state, stage, e)?)),
    }
}

/// What an expression is, or the first fault.
#[cycle(walk)]
#[tactic(auto, using(check_laws::proofs::Equations::expressions))]
pub fn expression(alloc: Global, state: &mut State, stage: Stage, e: &Expr) -> Result<Operand, Deny>
    ensures { Reads ((spec.node e.now).walk stage state.old) result state.new }
{
    match e {
        Expr::Name(line, name) => check_names::named(alloc, state, *line, stage, name.as_slice()),
        Expr::Number(n, unsigned) => number_leaf(alloc, *n, *unsigned),
        Expr::Character(n) => character_leaf(alloc, *n),
        Expr::String(bytes) => string_leaf(alloc, state, bytes.as_slice()),
        Expr::Paren(a) => expression(alloc, state, stage, a.get()),
        Expr::Compile(line, a, t) => compile(alloc, state, *line, stage, a.get(), t.get()),
        Expr::Local(line, t) => named(alloc, state, *line, stage, Naming::Local, t.get()),
        Expr::Param(line, t, a) => {
            typed(
                alloc,
                state,
                *line,
                stage,
                Typing::Parameter,
                t.get(),
                a.get(),
            )
        }
        Expr::Index(line, p) => pair(alloc, state, *line, stage, Pair::Index, p.get()),
        Expr::Call(line, f, list) => call(alloc, state, *line, stage, f.get(), list.as_slice()),
        Expr::Step(line, op, a) => post(alloc, state, *line, stage, *op, a.get()),
        Expr::Unary(line, op, a) => unary(alloc, state, *line, stage, *op, a.get()),
        Expr::Tick(line, a) => tick_expression(alloc, state, *line, stage, a.get()),
        Expr::TickBlock(line, items) => tick_block(alloc, state, *line, stage, items.as_slice()),
        Expr::Cast(line, t, a) => typed(alloc, state, *line, stage, Typing::Cast, t.get(), a.get()),
        Expr::Sizeof(line, t) => named(alloc, state, *line, stage, Naming::Size, t.get()),
        Expr::Binary(line, op, p) => pair(alloc, state, *line, stage, Pair::Binary(*op), p.get()),
        Expr::Choice(line, c, a, b) => {
            choice(alloc, state, *line, stage, c.get(), a.get(), b.get())
        }
        Expr::Assign(line, p) => pair(alloc, state, *line, stage, Pair::Assign, p.get()),
        Expr::Modify(line, op, p) => pair(alloc, state, *line, stage, Pair::Modify(*op), p.get()),
        Expr::Comma(line, p) => pair(alloc, state, *line, stage, Pair::Comma, p.get()),
    }
}

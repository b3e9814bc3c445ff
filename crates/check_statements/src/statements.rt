//! Statements.

ghost use Rattle.std.specs.Prelude.{◌≡◌, IfOk};
ghost use Rattle.tick_tree.specs.Faults.{Checks};
ghost use Rattle.check_rules.specs.Walks.{Reads};
ghost use Rattle.check_rules.specs.Statements as spec;
ghost use Rattle.check_rules.specs.StatementRules as rules;

use check_operands::{Operand, effect, value_of};
use check_rules::{Around, Labels, Stage, State};
use meaning_operators::constant_value;
use sqlite_items::{Boxed, Items};
use std::alloc::{AllocError, Global};
use std::mem;
use tick_tree::{Deny, FaultKind, refused};
use typed_tree::{Expr, Stmt};

/// What stands round a part that is no item of a switch's block.
pub fn inside(around: Around) -> Around
    ensures { result ≡ spec.inside around }
{
    Around {
        is_direct: false,
        ..around
    }
}

/// What stands round the body of a loop.
pub fn looped(around: Around) -> Around
    ensures { result ≡ spec.looped around }
{
    Around {
        in_loop: true,
        is_direct: false,
        ..around
    }
}

/// What stands round the items of a switch's block.
pub fn switched(around: Around) -> Around
    ensures { result ≡ spec.switched around }
{
    Around {
        in_switch: true,
        is_direct: true,
        ..around
    }
}

/// The one node of a statement.
#[inline(always)]
pub fn one(alloc: Global, node: Stmt) -> Result<Items<Stmt>, AllocError>
    ensures { IfOk result (λ nodes. nodes ≡ spec.one node) }
{
    let mut nodes = Items::new(alloc);
    nodes.push(node)?;
    Ok(nodes)
}

// Makes the list of the one node of a statement that a rule let through.
fn checked(alloc: Global, node: Stmt) -> Result<Items<Stmt>, Deny>
    ensures { Checks result (Ok (spec.one node)) }
{
    Ok(one(alloc, node)?)
}

/// `;` alone.
pub fn empty_node(alloc: Global) -> Result<Items<Stmt>, Deny>
    ensures { Checks result (Ok rules.empty) }
{
    checked(alloc, Stmt::Block(Items::new(alloc), Items::new(alloc)))
}

/// An expression as a statement.
pub fn alone(alloc: Global, o: Operand) -> Result<Items<Stmt>, AllocError>
    ensures { IfOk result (λ nodes. nodes ≡ spec.alone o) }
{
    let code = effect(alloc, o)?;
    one(alloc, Stmt::Eval(code))
}

fn body_node(alloc: Global, nodes: Items<Stmt>) -> Stmt
    ensures { result ≡ spec.body nodes }
{
    let mut nodes = nodes;
    if nodes.len() != 1 {
        return Stmt::Block(Items::new(alloc), nodes);
    }
    match nodes.pop() {
        None => Stmt::Block(Items::new(alloc), nodes),
        Some(only) => only,
    }
}

/// The body of a statement, which is one node.
pub fn body(alloc: Global, nodes: Items<Stmt>) -> Result<Boxed<Stmt>, AllocError>
    ensures { IfOk result (λ node. node ≡ spec.body nodes) }
{
    Boxed::new(alloc, body_node(alloc, nodes))
}

/// `break`. Refused where neither a loop nor a switch is round it: BreakOutside.
pub fn break_entry(alloc: Global, line: u32, around: Around) -> Result<Items<Stmt>, Deny>
    ensures { Checks result (spec.break_entry line around) }
{
    if around.in_loop || around.in_switch {
        checked(alloc, Stmt::Break)
    } else {
        refused(FaultKind::BreakOutside, line)
    }
}

/// `continue`. Refused where no loop is round it: ContinueOutside.
pub fn continue_entry(alloc: Global, line: u32, around: Around) -> Result<Items<Stmt>, Deny>
    ensures { Checks result (spec.continue_entry line around) }
{
    if around.in_loop {
        checked(alloc, Stmt::Continue)
    } else {
        refused(FaultKind::ContinueOutside, line)
    }
}

/// Enters a `case` whose value has the form of a constant, or not. Refused where it hasn't, or isn't directly an item
/// of a switch's block: BadCase.
pub fn case_entry(line: u32, has_form: bool, around: Around) -> Result<(), Deny>
    ensures { Checks result (spec.case_entry line has_form around) }
{
    if around.is_direct && has_form {
        Ok(())
    } else {
        refused(FaultKind::BadCase, line)
    }
}

fn labelled_case(
    alloc: Global,
    state: &mut State,
    line: u32,
    value: Option<u32>,
) -> Result<Items<Stmt>, Deny>
    ensures { Reads (spec.case_by line value state.old) result state.new }
{
    match value {
        None => refused(FaultKind::BadCase, line),
        Some(n) => {
            state.labels.case(line, n)?;
            checked(alloc, Stmt::Case(n))
        }
    }
}

/// A `case` with this value. Refused where it has none: BadCase; where the switch has it already: DuplicateCase.
#[tactic(auto, unfolding(check_rules::specs::Statements::case_node))]
pub fn case_node(
    alloc: Global,
    state: &mut State,
    line: u32,
    o: Operand,
) -> Result<Items<Stmt>, Deny>
    ensures { Reads (spec.case_node line o state.old) result state.new }
{
    let code = effect(alloc, o)?;
    labelled_case(alloc, state, line, constant_value(code.get()))
}

/// `default`. Refused where it isn't directly an item of a switch's block: BadCase; where the switch has one already:
/// DuplicateCase.
#[tactic(auto, unfolding(check_rules::specs::Statements::default_node))]
pub fn default_node(
    alloc: Global,
    state: &mut State,
    line: u32,
    around: Around,
) -> Result<Items<Stmt>, Deny>
    ensures { Reads (spec.default_node line around state.old) result state.new }
{
    if !around.is_direct {
        return refused(FaultKind::BadCase, line);
    }
    state.labels.default(line)?;
    checked(alloc, Stmt::Default)
}

/// Enters a switch, which has no labels yet; those of the switch round it.
#[tactic(auto, unfolding(check_rules::specs::Statements::switch_entered))]
pub fn switch_entered(alloc: Global, state: &mut State) -> Result<Labels, Deny>
    ensures { Reads (spec.switch_entered state.old) result state.new }
{
    Ok(mem::replace(&mut state.labels, Labels::new(alloc)))
}

fn condition_node(alloc: Global, line: u32, o: Operand) -> Result<Boxed<Expr>, Deny>
    ensures { Checks result (spec.condition_node line o) }
{
    let v = value_of(alloc, o)?;
    check_nodes::condition(line, v)
}

/// `if` without `else`. Its test is refused as by `check_nodes::condition`.
#[tactic(auto, unfolding(check_rules::specs::Statements::if_node))]
pub fn if_node(alloc: Global, line: u32, o: Operand, body: Boxed<Stmt>) -> Result<Items<Stmt>, Deny>
    ensures { Checks result (spec.if_node line o body) }
{
    let test = condition_node(alloc, line, o)?;
    checked(alloc, Stmt::If(test, body))
}

/// `if` with `else`. Its test is refused as by `check_nodes::condition`.
#[tactic(auto, unfolding(check_rules::specs::Statements::if_else_node))]
pub fn if_else_node(
    alloc: Global,
    line: u32,
    o: Operand,
    a: Boxed<Stmt>,
    b: Boxed<Stmt>,
) -> Result<Items<Stmt>, Deny>
    ensures { Checks result (spec.if_else_node line o a b) }
{
    let test = condition_node(alloc, line, o)?;
    checked(alloc, Stmt::IfElse(test, a, b))
}

/// `while`. Its test is refused as by `check_nodes::condition`.
#[tactic(auto, unfolding(check_rules::specs::Statements::while_node))]
pub fn while_node(
    alloc: Global,
    line: u32,
    o: Operand,
    body: Boxed<Stmt>,
) -> Result<Items<Stmt>, Deny>
    ensures { Checks result (spec.while_node line o body) }
{
    let test = condition_node(alloc, line, o)?;
    checked(alloc, Stmt::While(test, body))
}

/// `do`. Its test is refused as by `check_nodes::condition`.
#[tactic(auto, unfolding(check_rules::specs::Statements::do_node))]
pub fn do_node(alloc: Global, line: u32, body: Boxed<Stmt>, o: Operand) -> Result<Items<Stmt>, Deny>
    ensures { Checks result (spec.do_node line body o) }
{
    let test = condition_node(alloc, line, o)?;
    checked(alloc, Stmt::Do(body, test))
}

fn for_condition(alloc: Global, line: u32, o: Option<Operand>) -> Result<Boxed<Expr>, Deny>
    ensures { Checks result (spec.for_condition line o) }
{
    match o {
        None => Ok(Boxed::new(alloc, Expr::Const(1))?),
        Some(o) => condition_node(alloc, line, o),
    }
}

fn for_by(
    alloc: Global,
    test: Boxed<Expr>,
    step: Option<Operand>,
    body: Boxed<Stmt>,
) -> Result<Boxed<Stmt>, AllocError>
    ensures { IfOk result (λ node. node ≡ spec.for_by test step body) }
{
    match step {
        None => typed_tree::for_loop(alloc, test, body),
        Some(o) => {
            let step = effect(alloc, o)?;
            typed_tree::for_step(alloc, test, step, body)
        }
    }
}

/// A `for` behind its first part, with its test, which is 1 where it is absent, and its step. The test is refused as by
/// `check_nodes::condition`.
#[tactic(auto, unfolding(check_rules::specs::Statements::for_node))]
pub fn for_node(
    alloc: Global,
    line: u32,
    test: Option<Operand>,
    step: Option<Operand>,
    body: Boxed<Stmt>,
) -> Result<Boxed<Stmt>, Deny>
    ensures { Checks result (spec.for_node line test step body) }
{
    let test = for_condition(alloc, line, test)?;
    Ok(for_by(alloc, test, step, body)?)
}

fn switched_node(alloc: Global, line: u32, o: Operand) -> Result<Boxed<Expr>, Deny>
    ensures { Checks result (spec.switched_node line o) }
{
    let v = value_of(alloc, o)?;
    check_nodes::switched(line, v)
}

/// A switch whose block has these variables and these items. Its value is refused as by `check_nodes::switched`.
#[tactic(auto, unfolding(check_rules::specs::Statements::switch_node))]
pub fn switch_node(
    alloc: Global,
    line: u32,
    o: Operand,
    variables: Items<Stmt>,
    items: Items<Stmt>,
) -> Result<Items<Stmt>, Deny>
    ensures { Checks result (spec.switch_node line o variables items) }
{
    let value = switched_node(alloc, line, o)?;
    checked(alloc, Stmt::Switch(value, variables, items))
}

fn returned_by(
    alloc: Global,
    state: &State,
    line: u32,
    stage: Stage,
    o: Operand,
) -> Result<Boxed<Expr>, Deny>
    ensures { Checks result (spec.returned_by line stage o state.now) }
{
    let v = value_of(alloc, o)?;
    match stage {
        Stage::Function => check_calls::returned(alloc, line, &state.frame.result, v),
        Stage::Tick | Stage::Dollar => check_calls::tick_returned(line, v),
    }
}

/// `return` with its value, as `check_calls::returned` in a function and `check_calls::tick_returned` in a tick.
#[tactic(auto, unfolding(check_rules::specs::Statements::return_node))]
pub fn return_node(
    alloc: Global,
    state: &State,
    line: u32,
    stage: Stage,
    o: Operand,
) -> Result<Items<Stmt>, Deny>
    ensures { Checks result (spec.return_node line stage o state.now) }
{
    let e = returned_by(alloc, state, line, stage, o)?;
    checked(alloc, Stmt::ReturnValue(e))
}

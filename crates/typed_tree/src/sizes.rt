//! How many nodes an expression or a statement has, and whether an expression leaves a value.

ghost use Rattle.std.specs.Prelude.{◌≡◌, ◌+◌, min};
ghost use Rattle.limits.specs.declared.program.TheConstants.{NODE_TOP};
ghost use Rattle.typed_tree.specs.Sizes as spec;

use crate::expression::{Answer, Expr, Library, Stmt};
use crate::program::TickBody;
use limits::program::NODE_TOP;

// The sum, or `NODE_TOP` where it is more.
fn plus(a: u32, b: u32) -> u32
    ensures { result ≡ min (a + b) NODE_TOP }
{
    (u64::from(a) + u64::from(b)).min(u64::from(NODE_TOP)) as u32
}

/// How many nodes an expression has, or `NODE_TOP` where it has more.
#[cycle(size)]
#[tactic(auto, using(crate::proofs::SizeLaws::expressions))]
pub fn size(e: &Expr) -> u32
    ensures { result ≡ min (spec.size e.now) NODE_TOP }
{
    match e {
        Expr::Const(_) | Expr::Captured(_, _) | Expr::Var(_) | Expr::PostVar(_, _, _) => 1,
        Expr::VGet(_) | Expr::VPost(_, _) | Expr::Frame(_) => 1,
        Expr::Getchar | Expr::Splice(_, _) | Expr::Local => 1,
        Expr::SetVar(_, a) | Expr::VSet(_, a) | Expr::Load(_, a) | Expr::Post(_, _, a) => {
            plus(1, size(a.get()))
        }
        Expr::Un(_, a) | Expr::Void(a) | Expr::Lib(_, a) | Expr::Capture(_, a) => {
            plus(1, size(a.get()))
        }
        Expr::Compile(a) | Expr::ParamOf(a) => plus(1, size(a.get())),
        Expr::Store(_, a, b) | Expr::Modify(_, _, a, b) | Expr::Bin(_, a, b) => {
            plus(plus(1, size(a.get())), size(b.get()))
        }
        Expr::And(a, b) | Expr::Or(a, b) | Expr::Comma(a, b) => {
            plus(plus(1, size(a.get())), size(b.get()))
        }
        Expr::Cond(c, a, b) => {
            let both = plus(size(a.get()), size(b.get()));
            plus(plus(1, size(c.get())), both)
        }
        Expr::Call(_, _, list) | Expr::Tick(_, list) => plus(1, list_size(list.as_slice())),
        Expr::CallNumber(_, a, list) => { plus(plus(1, size(a.get())), list_size(list.as_slice())) }
    }
}

// How many nodes these expressions have together, or `NODE_TOP` where they have more.
#[cycle(size)]
#[tactic(auto, using(crate::proofs::Totals::one_more))]
fn list_size(list: &[Expr]) -> u32
    ensures { result ≡ min (spec.size_list list.now) NODE_TOP }
{
    let mut found = 0;
    for e in list {
        found = plus(found, size(e));
    }
    found
}

/// How many nodes a statement has, or `NODE_TOP` where it has more.
#[cycle(statement_size)]
#[tactic(auto, using(crate::proofs::SizeLaws::statements))]
pub fn statement_size(s: &Stmt) -> u32
    ensures { result ≡ min (spec.statement_size s.now) NODE_TOP }
{
    match s {
        Stmt::Variable(_) | Stmt::Object(_, _) | Stmt::Parameter(_, _) => 1,
        Stmt::ParameterObject(_, _, _) | Stmt::Case(_) | Stmt::Default => 1,
        Stmt::Break | Stmt::Continue | Stmt::Return => 1,
        Stmt::Eval(e) | Stmt::ReturnValue(e) => plus(1, size(e.get())),
        Stmt::Block(variables, items) => {
            let first = plus(1, statements_size(variables.as_slice()));
            plus(first, statements_size(items.as_slice()))
        }
        Stmt::If(test, a) | Stmt::While(test, a) | Stmt::Do(a, test) | Stmt::For(test, a) => {
            plus(plus(1, size(test.get())), statement_size(a.get()))
        }
        Stmt::IfElse(test, a, b) => {
            let both = plus(statement_size(a.get()), statement_size(b.get()));
            plus(plus(1, size(test.get())), both)
        }
        Stmt::ForStep(test, step, a) => {
            let both = plus(size(test.get()), size(step.get()));
            plus(plus(1, both), statement_size(a.get()))
        }
        Stmt::Switch(value, variables, items) => {
            let first = plus(
                plus(2, size(value.get())),
                statements_size(variables.as_slice()),
            );
            plus(first, statements_size(items.as_slice()))
        }
    }
}

// How many nodes these statements have together, or `NODE_TOP` where they have more.
#[cycle(statement_size)]
#[tactic(auto, using(crate::proofs::Totals::one_statement_more))]
fn statements_size(list: &[Stmt]) -> u32
    ensures { result ≡ min (spec.statements_size list.now) NODE_TOP }
{
    let mut found = 0;
    for s in list {
        found = plus(found, statement_size(s));
    }
    found
}

/// How many nodes the body of a tick has, or `NODE_TOP` where it has more.
pub fn body_size(body: &TickBody) -> u32
    ensures { result ≡ min (spec.body_size body.now) NODE_TOP }
{
    match body {
        TickBody::Expression(e) => size(e.get()),
        TickBody::Statement(s) => statement_size(s.get()),
    }
}

fn answers(function: Library) -> bool
    ensures { result ≡ spec.answers function }
{
    matches!(function, Library::Putchar | Library::Malloc)
}

fn is_value(answer: Answer) -> bool
    ensures { result ≡ spec.is_value answer }
{
    matches!(answer, Answer::Value)
}

/// Whether an expression leaves a value.
#[tactic(auto, using(crate::proofs::ValueLaws::values))]
pub fn has_value(e: &Expr) -> bool
    ensures { result ≡ spec.has_value e.now }
{
    match e {
        Expr::Cond(_, a, _) => has_value(a.get()),
        Expr::Comma(_, b) => has_value(b.get()),
        Expr::Void(_) => false,
        Expr::Call(answer, _, _) | Expr::CallNumber(answer, _, _) => is_value(*answer),
        Expr::Splice(answer, _) => is_value(*answer),
        Expr::Lib(function, _) => answers(*function),
        Expr::Const(_) | Expr::Captured(_, _) | Expr::Frame(_) | Expr::Getchar => true,
        Expr::Var(_) | Expr::SetVar(_, _) | Expr::PostVar(_, _, _) => true,
        Expr::VGet(_) | Expr::VSet(_, _) | Expr::VPost(_, _) => true,
        Expr::Load(_, _) | Expr::Store(_, _, _) | Expr::Modify(_, _, _, _) => true,
        Expr::Post(_, _, _) | Expr::Bin(_, _, _) | Expr::Un(_, _) => true,
        Expr::And(_, _) | Expr::Or(_, _) | Expr::Tick(_, _) | Expr::Capture(_, _) => true,
        Expr::Compile(_) | Expr::Local | Expr::ParamOf(_) => true,
    }
}

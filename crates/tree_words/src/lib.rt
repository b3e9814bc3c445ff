//! That each number in a typed tree is a word. Its type says so, and reading it is what tells the proof.
#![tactic(auto)]

ghost use Rattle.std.specs.Prelude.{◌≡◌, map, true};
ghost use Rattle.typed_tree.specs.View.{expr_view, args_of, body_view, stmt_view, items_of, function_view};
ghost use Rattle.tree_words.specs.Words as spec;

use typed_tree::{Expr, Function, Stmt, TickBody};

// Reads a number.
fn read_word(number: &u32)
    ensures { spec.is_word number.now ≡ true }
{
    let _word = *number;
}

// Reads each number in an expression.
#[cycle(read_expression)]
#[tactic(auto, using(typed_tree::proofs::Views::expressions))]
fn read_expression(e: &Expr)
    ensures { spec.has_words_expr (expr_view e.now) ≡ true }
{
    match e {
        Expr::Const(number) | Expr::PostVar(_, _, number) | Expr::VPost(_, number) => {
            read_word(number);
        }
        Expr::Var(_) | Expr::Frame(_) | Expr::Getchar | Expr::Local => (),
        Expr::Captured(_, _) | Expr::VGet(_) | Expr::Splice(_, _) => (),
        Expr::SetVar(_, a) | Expr::VSet(_, a) | Expr::Load(_, a) => read_expression(a.get()),
        Expr::Un(_, a) | Expr::Void(a) | Expr::Lib(_, a) => read_expression(a.get()),
        Expr::Capture(_, a) | Expr::ParamOf(a) | Expr::Compile(a) => read_expression(a.get()),
        Expr::Store(_, a, b) | Expr::Modify(_, _, a, b) | Expr::Bin(_, a, b) => {
            read_expression(a.get());
            read_expression(b.get());
        }
        Expr::And(a, b) | Expr::Or(a, b) | Expr::Comma(a, b) => {
            read_expression(a.get());
            read_expression(b.get());
        }
        Expr::Cond(test, a, b) => {
            read_expression(test.get());
            read_expression(a.get());
            read_expression(b.get());
        }
        Expr::Post(_, step, a) => {
            read_word(step);
            read_expression(a.get());
        }
        Expr::Call(_, _, arguments) => read_arguments(arguments.as_slice()),
        Expr::CallNumber(_, a, arguments) => {
            read_expression(a.get());
            read_arguments(arguments.as_slice());
        }
        Expr::Tick(_, captures) => read_arguments(captures.as_slice()),
    }
}

// The same of each of these arguments.
#[cycle(read_expression)]
fn read_arguments(list: &[Expr])
    ensures { spec.have_words_args (args_of (map expr_view list.now)) ≡ true }
{
    for e in list {
        read_expression(e);
    }
}

// Reads each number in a statement.
#[cycle(read_statement)]
#[tactic(auto, using(typed_tree::proofs::Views::statements))]
fn read_statement(s: &Stmt)
    ensures { spec.has_words_stmt (stmt_view s.now) ≡ true }
{
    match s {
        Stmt::Eval(e) | Stmt::ReturnValue(e) => read_expression(e.get()),
        Stmt::Block(variables, items) => {
            read_statements(variables.as_slice());
            read_statements(items.as_slice());
        }
        Stmt::If(test, a) | Stmt::While(test, a) | Stmt::For(test, a) => {
            read_expression(test.get());
            read_statement(a.get());
        }
        Stmt::IfElse(test, a, b) => {
            read_expression(test.get());
            read_statement(a.get());
            read_statement(b.get());
        }
        Stmt::Do(a, test) => {
            read_statement(a.get());
            read_expression(test.get());
        }
        Stmt::ForStep(test, step, a) => {
            read_expression(test.get());
            read_expression(step.get());
            read_statement(a.get());
        }
        Stmt::Switch(value, variables, items) => {
            read_expression(value.get());
            read_statements(variables.as_slice());
            read_statements(items.as_slice());
        }
        Stmt::Case(value) => read_word(value),
        Stmt::Variable(_) | Stmt::Object(_, _) => (),
        Stmt::Parameter(_, _) | Stmt::ParameterObject(_, _, _) => (),
        Stmt::Default | Stmt::Break | Stmt::Continue | Stmt::Return => (),
    }
}

// The same of each of these statements.
#[cycle(read_statement)]
fn read_statements(list: &[Stmt])
    ensures { spec.have_words (items_of (map stmt_view list.now)) ≡ true }
{
    for s in list {
        read_statement(s);
    }
}

/// Reads each number in a function.
pub fn read_function(function: &Function)
    ensures { spec.has_words (function_view function.now) ≡ true }
{
    read_statement(function.body.get());
}

/// Reads each number in what stands behind a backquote.
pub fn read_body(body: &TickBody)
    ensures { spec.has_words_body (body_view body.now) ≡ true }
{
    match body {
        TickBody::Expression(e) => read_expression(e.get()),
        TickBody::Statement(s) => read_statement(s.get()),
    }
}

//! How many register variables the text of a function has.

ghost use Rattle.std.specs.Prelude.{◌≡◌, ◌<◌, ◌^◌, map};
ghost use Rattle.staged_meaning.specs.Size.{variables_in, variables_of};
ghost use Rattle.typed_tree.specs.View.{stmt_view, items_of};

use typed_tree::Stmt;

/// One more than the greatest variable that a statement declares, or 0 where it declares none.
#[cycle(variables)]
#[tactic(auto, using(typed_tree::proofs::Views::statements))]
pub fn variables(s: &Stmt) -> u32
    requires { variables_in (stmt_view s.now) < 2 ^ 32 }
    ensures { result ≡ variables_in (stmt_view s.now) }
{
    match s {
        Stmt::Variable(i) | Stmt::Parameter(i, _) => *i + 1,
        Stmt::Block(first, items) => {
            most_variables(first.as_slice()).max(most_variables(items.as_slice()))
        }
        Stmt::Switch(_, first, items) => {
            most_variables(first.as_slice()).max(most_variables(items.as_slice()))
        }
        Stmt::If(_, a) => variables(a.get()),
        Stmt::While(_, a) => variables(a.get()),
        Stmt::Do(a, _) => variables(a.get()),
        Stmt::For(_, a) => variables(a.get()),
        Stmt::ForStep(_, _, a) => variables(a.get()),
        Stmt::IfElse(_, a, b) => variables(a.get()).max(variables(b.get())),
        Stmt::Eval(_) | Stmt::Object(_, _) | Stmt::ParameterObject(_, _, _) => 0,
        Stmt::Case(_) | Stmt::Default | Stmt::Break | Stmt::Continue => 0,
        Stmt::Return | Stmt::ReturnValue(_) => 0,
    }
}

// The same of all these statements.
#[cycle(variables)]
fn most_variables(list: &[Stmt]) -> u32
    requires { variables_of (items_of (map stmt_view list.now)) < 2 ^ 32 }
    ensures { result ≡ variables_of (items_of (map stmt_view list.now)) }
{
    let mut most = 0;
    for s in list {
        most = most.max(variables(s));
    }
    most
}

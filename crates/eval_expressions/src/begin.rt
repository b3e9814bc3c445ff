//! Begins expressions.

ghost use Rattle.std.specs.Prelude.{◌≡◌, ◌<◌, ◌≤◌, IfOk};
ghost use Rattle.typed_tree.specs.View.{expr_view};
ghost use Rattle.eval_state.specs.Less.{heft};
ghost use Rattle.eval_state.specs.Run.{outcome, run_of};
ghost use Rattle.eval_state.specs.declared.parts.Now.TheVariants as now;
ghost use Rattle.eval_state.specs.Views.{now_view};
ghost use Rattle.eval_simple.specs.Stepped.{IsBegun};

use crate::arguments::first_argument;
use crate::leaves::{getchar, object, post_generated, post_variable};
use crate::next::{give, open};
use crate::operands::binary;
use eval_stages::{specify_local, splice};
use eval_state::{ExpressionFrame, Machine, Now, Target};
use std::alloc::AllocError;
use typed_tree::Expr;

/// Begins an expression.
///
/// # Errors
/// Where memory is wanting.
pub fn eval<'a>(m: &mut Machine<'a>, e: &'a Expr) -> Result<Now<'a>, AllocError>
    ensures same { IfOk result (λ n. outcome (now_view n) (run_of m.new)
        ≡ outcome (now_view (now.Eval e.entry)) (run_of m.old)) }
    ensures units { IfOk result (λ n. (run_of m.new).state.units ≤ (run_of m.old).state.units) }
    ensures less { IfOk result (λ n. (run_of m.new).state.units ≡ (run_of m.old).state.units
        → heft (now_view n) (run_of m.new) < heft (now_view (now.Eval e.entry)) (run_of m.old)) }
{
    begin(m, e)
}

// Begins an expression by its kind: a leaf gives its value, and of a node with parts the first is evaluated.
fn begin<'a>(m: &mut Machine<'a>, e: &'a Expr) -> Result<Now<'a>, AllocError>
    ensures { IfOk result (λ n. IsBegun (expr_view e.entry.now) (now_view n) (run_of m.old) (run_of m.new)) }
{
    match e {
        Expr::Const(word) => Ok(give(m, *word)),
        Expr::Captured(_, i) => {
            let word = m.captured(*i);
            Ok(give(m, word))
        }
        Expr::Var(i) => {
            let v = m.variable(*i);
            Ok(give(m, v))
        }
        Expr::SetVar(i, a) => open(m, ExpressionFrame::SetVar(*i), a),
        Expr::PostVar(i, width, step) => post_variable(m, *i, *width, *step),
        Expr::VGet(i) => {
            let v = m.generated(*i);
            Ok(give(m, v))
        }
        Expr::VSet(i, a) => open(m, ExpressionFrame::SetGenerated(*i), a),
        Expr::VPost(i, step) => post_generated(m, *i, *step),
        Expr::Frame(offset) => object(m, *offset),
        Expr::Load(width, a) => open(m, ExpressionFrame::Load(*width), a),
        Expr::Store(width, a, b) => { open(m, ExpressionFrame::StoreAddress(*width, b.get()), a) }
        Expr::Modify(width, kind, a, b) => open(
            m,
            ExpressionFrame::ModifyAddress(*width, *kind, b.get()),
            a,
        ),
        Expr::Post(width, step, a) => open(m, ExpressionFrame::Post(*width, *step), a),
        Expr::Bin(kind, a, b) => binary(m, *kind, a.get(), b.get()),
        Expr::Un(kind, a) => open(m, ExpressionFrame::Un(*kind), a),
        Expr::And(a, b) => open(m, ExpressionFrame::And(b.get()), a),
        Expr::Or(a, b) => open(m, ExpressionFrame::Or(b.get()), a),
        Expr::Cond(test, a, b) => open(m, ExpressionFrame::Cond(a.get(), b.get()), test),
        Expr::Comma(a, b) => open(m, ExpressionFrame::Comma(b.get()), a),
        Expr::Void(a) => open(m, ExpressionFrame::Void, a),
        Expr::Call(answer, f, list) => {
            first_argument(m, Target::Direct(*answer, *f), list.as_slice())
        }
        Expr::CallNumber(answer, a, list) => open(
            m,
            ExpressionFrame::Function(*answer, list.as_slice()),
            a,
        ),
        Expr::Getchar => getchar(m),
        Expr::Lib(kind, a) => open(m, ExpressionFrame::Lib(*kind), a),
        Expr::Tick(tick, list) => first_argument(
            m,
            Target::Specified(*tick, list.as_slice()),
            list.as_slice(),
        ),
        Expr::Capture(_, a) => open(m, ExpressionFrame::Spend, a),
        Expr::Splice(answer, i) => splice(m, *answer, *i),
        Expr::Compile(a) => open(m, ExpressionFrame::Compile, a),
        Expr::Local => specify_local(m),
        Expr::ParamOf(a) => open(m, ExpressionFrame::ParamOf, a),
    }
}

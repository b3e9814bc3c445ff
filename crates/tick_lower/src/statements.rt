//! The pieces of a statement.

ghost use Rattle.std.specs.Prelude.{◌≡◌, None, IfOk, OnOk, map};
ghost use Rattle.staged_meaning.specs.Statements.{case_of};
ghost use Rattle.lowering_pieces.specs.Steps.{default_of, op, or_else, put, targets_of, valued, walk_default, walk_items};
ghost use Rattle.lowering_pieces.specs.Steps.{walk_stmt, walk_tests, with_apart};
ghost use Rattle.tick_lower_spec.specs.Lower.{case_ops};
ghost use Rattle.tick_lower_spec.specs.TickPieces.{plain};
ghost use Rattle.tick_lower.specs.Viewed.{addresses_view};
ghost use Rattle.typed_tree.specs.View.{expr_view, stmt_view, items_of};

use crate::addresses::Addresses;
use crate::calls::parameter_of;
use crate::expressions::expression;
use icode_ir::BuildOp;
use icode_ops::BinKind;
use lowering_pieces::{Exits, Pieces, Selector};
use std::alloc::AllocError;
use tick_lower_spec::Piece;
use typed_tree::{Expr, Stmt, has_value};

// The value of a switch goes to a variable, which the tests of the cases compare.
fn selected(e: &Expr, addresses: &Addresses<'_>, out: &mut Pieces) -> Result<Selector, AllocError>
    ensures selector { IfOk result (λ s. s ≡ record { end = out.old.label; value = out.old.variable }) }
    ensures pieces { OnOk result (out.new ≡ valued (addresses_view addresses.now) (expr_view e.now) out.old) }
{
    let end = out.take_label()?;
    let value = out.take_variable()?;
    expression(e, addresses, out)?;
    out.op(BuildOp::SetVariable { variable: value })?;
    out.op(BuildOp::Drop)?;
    out.push(Piece::Nothing)?;
    Ok(Selector { end, value })
}

// The jump to the default behind the tests, the items, and the label behind the switch.
fn closed(default: u32, end: u32, inside: Pieces, out: &mut Pieces) -> Result<(), AllocError>
    ensures { OnOk result (out.new ≡ op (BuildOp.Label end) (with_apart inside (op (BuildOp.Jump default) out.old))) }
{
    out.op(BuildOp::Jump { label: default })?;
    out.append(inside)?;
    out.op(BuildOp::Label { label: end })
}

/// Adds the pieces of a statement, whose breaks and continues go where the exits say. The static functions are at these
/// addresses. It fails for want of memory, and where a number in the tree is too great for an op or a closure, which
/// none in an accepted text is.
#[cycle(statement)]
#[tactic(auto, using(crate::proofs::Viewed::statements))]
pub fn statement(
    s: &Stmt,
    exits: Exits,
    addresses: &Addresses<'_>,
    out: &mut Pieces,
) -> Result<(), AllocError>
    ensures { OnOk result (
        out.new ≡ walk_stmt (addresses_view addresses.now) (targets_of exits) (stmt_view s.now) out.old) }
{
    match s {
        Stmt::Eval(e) => {
            expression(e.get(), addresses, out)?;
            out.own_dropping(has_value(e.get()))
        }
        Stmt::Block(variables, items) => {
            out.push(Piece::Nothing)?;
            statements(variables.as_slice(), exits, addresses, out)?;
            statements(items.as_slice(), exits, addresses, out)
        }
        Stmt::Variable(i) => out.ops(&[
            BuildOp::Const { word: 0 },
            BuildOp::SetVariable { variable: *i },
            BuildOp::Drop,
        ]),
        Stmt::Object(offset, words) => out.op(BuildOp::Clear {
            offset: *offset,
            words: *words,
        }),
        Stmt::Parameter(k, width) => {
            let index = parameter_of(*k)?;
            out.op(BuildOp::Parameter { index })?;
            out.narrowing(*width)?;
            out.ops(&[BuildOp::SetVariable { variable: *k }, BuildOp::Drop])
        }
        Stmt::ParameterObject(k, width, offset) => {
            let index = parameter_of(*k)?;
            out.ops(&[
                BuildOp::FrameAddress { offset: *offset },
                BuildOp::Parameter { index },
            ])?;
            out.narrowing(*width)?;
            out.ops(&[BuildOp::Store { width: *width }, BuildOp::Drop])
        }
        Stmt::If(test, a) => {
            let past = out.take_label()?;
            expression(test.get(), addresses, out)?;
            out.op(BuildOp::BranchZero { label: past })?;
            statement(a.get(), exits, addresses, out)?;
            out.op(BuildOp::Label { label: past })
        }
        Stmt::IfElse(test, a, b) => {
            let join = out.take_join()?;
            expression(test.get(), addresses, out)?;
            out.op(BuildOp::BranchZero { label: join.other })?;
            statement(a.get(), exits, addresses, out)?;
            out.turn(join.end, join.other)?;
            statement(b.get(), exits, addresses, out)?;
            out.op(BuildOp::Label { label: join.end })
        }
        Stmt::While(test, a) => {
            // a turn begins where the ways of a test would meet
            let join = out.take_join()?;
            let within = Exits {
                on_break: join.other,
                on_continue: join.end,
            };
            out.op(BuildOp::Label { label: join.end })?;
            expression(test.get(), addresses, out)?;
            out.op(BuildOp::BranchZero { label: join.other })?;
            statement(a.get(), within, addresses, out)?;
            out.turn(join.end, join.other)
        }
        Stmt::Do(a, test) => {
            let turn = out.take_turn()?;
            out.op(BuildOp::Label { label: turn.start })?;
            statement(a.get(), turn.exits(), addresses, out)?;
            out.op(BuildOp::Label { label: turn.next })?;
            expression(test.get(), addresses, out)?;
            out.op(BuildOp::BranchNonzero { label: turn.start })?;
            out.op(BuildOp::Label { label: turn.end })
        }
        Stmt::For(test, a) => {
            let turn = out.take_turn()?;
            out.op(BuildOp::Label { label: turn.start })?;
            expression(test.get(), addresses, out)?;
            out.op(BuildOp::BranchZero { label: turn.end })?;
            statement(a.get(), turn.exits(), addresses, out)?;
            out.op(BuildOp::Label { label: turn.next })?;
            out.turn(turn.start, turn.end)
        }
        Stmt::ForStep(test, step, a) => {
            let turn = out.take_turn()?;
            out.op(BuildOp::Label { label: turn.start })?;
            expression(test.get(), addresses, out)?;
            out.op(BuildOp::BranchZero { label: turn.end })?;
            statement(a.get(), turn.exits(), addresses, out)?;
            out.op(BuildOp::Label { label: turn.next })?;
            expression(step.get(), addresses, out)?;
            out.dropping(has_value(step.get()))?;
            out.turn(turn.start, turn.end)
        }
        Stmt::Switch(e, variables, items) => {
            let selector = selected(e.get(), addresses, out)?;
            statements(variables.as_slice(), exits, addresses, out)?;
            let within = Exits {
                on_break: selector.end,
                on_continue: exits.on_continue,
            };
            let mut inside = out.apart();
            let default = cases(
                items.as_slice(),
                selector.value,
                within,
                addresses,
                &mut inside,
                out,
            )?;
            closed(default, selector.end, inside, out)
        }
        Stmt::Case(_) | Stmt::Default => {
            let label = out.take_label()?;
            out.op(BuildOp::Label { label })
        }
        Stmt::Break => out.op(BuildOp::Jump {
            label: exits.on_break,
        }),
        Stmt::Continue => out.op(BuildOp::Jump {
            label: exits.on_continue,
        }),
        Stmt::Return => out.op(BuildOp::ReturnZero),
        Stmt::ReturnValue(e) => {
            expression(e.get(), addresses, out)?;
            out.op(BuildOp::Return)
        }
    }
}

// The pieces of statements, one after another.
#[cycle(statement)]
#[tactic(auto, using(lowering_pieces::proofs::Lists::one_statement_more))]
fn statements(
    list: &[Stmt],
    exits: Exits,
    addresses: &Addresses<'_>,
    out: &mut Pieces,
) -> Result<(), AllocError>
    ensures { OnOk result (
        out.new ≡ walk_items (addresses_view addresses.now) (targets_of exits) (items_of (map stmt_view list.now))
        out.old) }
{
    for s in list {
        statement(s, exits, addresses, out)?;
    }
    Ok(())
}

// The pieces of the items of a switch, apart, and the tests of its cases. The label of its default, or what is behind
// the switch where it has none.
#[cycle(statement)]
#[tactic(auto, using(lowering_pieces::proofs::Lists::one_case_more))]
fn cases(
    items: &[Stmt],
    value: u32,
    exits: Exits,
    addresses: &Addresses<'_>,
    inside: &mut Pieces,
    out: &mut Pieces,
) -> Result<u32, AllocError>
    ensures label { IfOk result (λ label. label ≡ or_else exits.on_break (walk_default (addresses_view addresses.now)
        (targets_of exits) (items_of (map stmt_view items.now)) inside.old None)) }
    ensures tests { OnOk result (out.new ≡ walk_tests (addresses_view addresses.now) (targets_of exits) (items_of
        (map stmt_view items.now)) inside.old value out.old) }
    ensures pieces { OnOk result (inside.new ≡ walk_items (addresses_view addresses.now) (targets_of exits)
        (items_of (map stmt_view items.now)) inside.old) }
{
    let mut default = None;
    for s in items {
        test(s, value, inside.label, out)?;
        default = default.or(default_at(s, inside.label));
        statement(s, exits, addresses, inside)?;
    }
    Ok(default.unwrap_or(exits.on_break))
}

// The test of a case that stands at this label.
fn test(s: &Stmt, value: u32, label: u32, out: &mut Pieces) -> Result<(), AllocError>
    ensures { OnOk result (out.new ≡ put (plain (case_ops (stmt_view s.now) label value)) out.old) }
{
    match case_value(s) {
        Some(word) => out.ops(&[
            BuildOp::GetVariable { variable: value },
            BuildOp::Const { word },
            BuildOp::Bin {
                kind: BinKind::NotEqual,
            },
            BuildOp::BranchZero { label },
        ]),
        None => Ok(()),
    }
}

// The value of a case, where the statement is one.
#[tactic(auto, using(typed_tree::proofs::Views::statements))]
fn case_value(s: &Stmt) -> Option<u32>
    ensures { result ≡ case_of (stmt_view s.now) }
{
    match s {
        Stmt::Case(word) => Some(*word),
        Stmt::Eval(_) | Stmt::Block(_, _) | Stmt::Variable(_) | Stmt::Object(_, _) => None,
        Stmt::Parameter(_, _) | Stmt::ParameterObject(_, _, _) | Stmt::If(_, _) => None,
        Stmt::IfElse(_, _, _) | Stmt::While(_, _) | Stmt::Do(_, _) | Stmt::For(_, _) => None,
        Stmt::ForStep(_, _, _) | Stmt::Switch(_, _, _) | Stmt::Default | Stmt::Break => None,
        Stmt::Continue | Stmt::Return | Stmt::ReturnValue(_) => None,
    }
}

// The label of a switch's default, where the statement at this label is that.
#[tactic(auto, using(typed_tree::proofs::Views::statements))]
fn default_at(s: &Stmt, label: u32) -> Option<u32>
    ensures { result ≡ default_of (stmt_view s.now) label }
{
    match s {
        Stmt::Default => Some(label),
        Stmt::Eval(_) | Stmt::Block(_, _) | Stmt::Variable(_) | Stmt::Object(_, _) => None,
        Stmt::Parameter(_, _) | Stmt::ParameterObject(_, _, _) | Stmt::If(_, _) => None,
        Stmt::IfElse(_, _, _) | Stmt::While(_, _) | Stmt::Do(_, _) | Stmt::For(_, _) => None,
        Stmt::ForStep(_, _, _) | Stmt::Switch(_, _, _) | Stmt::Case(_) | Stmt::Break => None,
        Stmt::Continue | Stmt::Return | Stmt::ReturnValue(_) => None,
    }
}

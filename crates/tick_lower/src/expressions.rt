//! The pieces of an expression.

ghost use Rattle.std.specs.Prelude.{◌≡◌, ◌∷◌, [], OnOk, map};
ghost use Rattle.lowering_pieces.specs.Steps.{library_pieces, op, put, walk, walk_args};
ghost use Rattle.tick_lower_spec.specs.Lower.{dropping, keeping};
ghost use Rattle.tick_lower_spec.specs.TickPieces.{own, plain};
ghost use Rattle.tick_lower.specs.Viewed.{addresses_view};
ghost use Rattle.typed_tree.specs.Nodes as node;
ghost use Rattle.typed_tree.specs.View.{expr_view, args_of};

use crate::addresses::Addresses;
use crate::calls::{called, called_number};
use crate::making::made;
use icode_ir::BuildOp;
use icode_ops::{BinKind, RunKind, SysKind};
use lowering_pieces::Pieces;
use lowering_pieces::places::{
    captured, keep_key, key, loaded, post_key, post_loaded, post_variable, splice, stored,
};
use sqlite_items::Boxed;
use std::alloc::AllocError;
use tick_lower_spec::Piece;
use typed_tree::{Answer, Expr, Library, has_value};
use word32::Width;

/// Adds the pieces of an expression. The static functions are at these addresses. It fails for want of memory, and
/// where a number in the tree is too great for an op or a closure, which none in an accepted text is.
#[cycle(expression)]
#[tactic(auto, using(crate::proofs::Viewed::expressions))]
pub fn expression(e: &Expr, addresses: &Addresses<'_>, out: &mut Pieces) -> Result<(), AllocError>
    ensures { OnOk result (out.new ≡ walk (addresses_view addresses.now) (expr_view e.now) out.old) }
{
    match e {
        Expr::Const(word) => out.op(BuildOp::Const { word: *word }),
        Expr::Captured(_, i) => captured(*i, out),
        Expr::Var(i) => out.op(BuildOp::GetVariable { variable: *i }),
        Expr::SetVar(i, a) => then(a, BuildOp::SetVariable { variable: *i }, addresses, out),
        Expr::PostVar(i, width, step) => post_variable(*i, *width, *step, out),
        Expr::VGet(i) => key(*i, out),
        Expr::VSet(i, a) => set_key(*i, a, addresses, out),
        Expr::VPost(i, step) => post_key(*i, *step, out),
        Expr::Frame(offset) => out.op(BuildOp::FrameAddress { offset: *offset }),
        Expr::Load(width, a) => then(a, BuildOp::Load { width: *width }, addresses, out),
        Expr::Store(width, a, b) => operands(
            a,
            b,
            BuildOp::Store { width: *width },
            addresses,
            out,
        ),
        Expr::Modify(width, kind, a, b) => modify(*width, *kind, a, b, addresses, out),
        Expr::Post(width, step, a) => post(*width, *step, a, addresses, out),
        Expr::Bin(kind, a, b) => operands(a, b, BuildOp::Bin { kind: *kind }, addresses, out),
        Expr::Un(kind, a) => then(a, BuildOp::Un { kind: *kind }, addresses, out),
        Expr::And(a, b) => both(a, b, addresses, out),
        Expr::Or(a, b) => either(a, b, addresses, out),
        Expr::Cond(test, a, b) => choice(test, a, b, addresses, out),
        Expr::Comma(a, b) => comma(a, b, addresses, out),
        Expr::Void(a) => effect(a, addresses, out),
        Expr::Call(answer, function, args) => call(
            *answer,
            *function,
            args.as_slice(),
            addresses,
            out,
        ),
        Expr::CallNumber(answer, a, args) => call_number(
            *answer,
            a,
            args.as_slice(),
            addresses,
            out,
        ),
        Expr::Getchar => out.on_zero(BuildOp::Sys {
            kind: SysKind::GetByte,
        }),
        Expr::Lib(function, a) => library(*function, a, addresses, out),
        Expr::Tick(tick, args) => specified(*tick, args.as_slice(), addresses, out),
        Expr::Capture(_, a) => capture(a, addresses, out),
        Expr::Splice(_, i) => splice(*i, out),
        Expr::Compile(a) => then(
            a,
            BuildOp::Run {
                routine: RunKind::Compile,
            },
            addresses,
            out,
        ),
        Expr::Local => out.on_zero(BuildOp::Run {
            routine: RunKind::Local,
        }),
        Expr::ParamOf(a) => then(
            a,
            BuildOp::Run {
                routine: RunKind::Parameter,
            },
            addresses,
            out,
        ),
    }
}

/// Adds the pieces of an expression, and an op that takes or keeps its value. It fails as those of the expression do.
#[cycle(expression)]
pub fn then(
    e: &Boxed<Expr>,
    last: BuildOp,
    addresses: &Addresses<'_>,
    out: &mut Pieces,
) -> Result<(), AllocError>
    ensures { OnOk result (out.new ≡ op last (walk (addresses_view addresses.now) (expr_view e.now) out.old)) }
{
    expression(e.get(), addresses, out)?;
    out.op(last)
}

/// Adds the pieces of an expression for its effects: its value, if it has one, is taken away. It fails as those of the
/// expression do.
#[cycle(expression)]
#[tactic(auto, using(crate::proofs::Viewed::expressions))]
pub fn effect(
    e: &Boxed<Expr>,
    addresses: &Addresses<'_>,
    out: &mut Pieces,
) -> Result<(), AllocError>
    ensures { OnOk result (out.new ≡ put (own (dropping (node.has_value (expr_view e.now))))
        (walk (addresses_view addresses.now) (expr_view e.now) out.old)) }
{
    expression(e.get(), addresses, out)?;
    out.own_dropping(has_value(e.get()))
}

// The pieces of two expressions, and an op that takes both values.
#[cycle(expression)]
fn operands(
    a: &Boxed<Expr>,
    b: &Boxed<Expr>,
    last: BuildOp,
    addresses: &Addresses<'_>,
    out: &mut Pieces,
) -> Result<(), AllocError>
    ensures { OnOk result (out.new ≡ op last (walk (addresses_view addresses.now) (expr_view b.now)
        (walk (addresses_view addresses.now) (expr_view a.now) out.old))) }
{
    expression(a.get(), addresses, out)?;
    then(b, last, addresses, out)
}

// The pieces of an assignment to a captured variable.
#[cycle(expression)]
fn set_key(
    capture: u32,
    a: &Boxed<Expr>,
    addresses: &Addresses<'_>,
    out: &mut Pieces,
) -> Result<(), AllocError>
    ensures { OnOk result (
        out.new ≡ put (Piece.SetKey capture ∷ []) (walk (addresses_view addresses.now) (expr_view a.now) out.old)) }
{
    expression(a.get(), addresses, out)?;
    keep_key(capture, out)
}

// The pieces of `a op= b` at an address.
#[cycle(expression)]
fn modify(
    width: Width,
    kind: BinKind,
    a: &Boxed<Expr>,
    b: &Boxed<Expr>,
    addresses: &Addresses<'_>,
    out: &mut Pieces,
) -> Result<(), AllocError>
    ensures { OnOk result (out.new ≡ walk (addresses_view addresses.now)
        (node.Modify width kind (expr_view a.now) (expr_view b.now)) out.old) }
{
    expression(a.get(), addresses, out)?;
    loaded(width, out)?;
    then(b, BuildOp::Bin { kind }, addresses, out)?;
    stored(width, out)
}

// The pieces of `a++` and `a--` at an address.
#[cycle(expression)]
fn post(
    width: Width,
    step: u32,
    a: &Boxed<Expr>,
    addresses: &Addresses<'_>,
    out: &mut Pieces,
) -> Result<(), AllocError>
    ensures { OnOk result (
        out.new ≡ walk (addresses_view addresses.now) (node.Post width step (expr_view a.now)) out.old) }
{
    expression(a.get(), addresses, out)?;
    post_loaded(width, step, out)
}

// The pieces of `a && b`.
#[cycle(expression)]
fn both(
    a: &Boxed<Expr>,
    b: &Boxed<Expr>,
    addresses: &Addresses<'_>,
    out: &mut Pieces,
) -> Result<(), AllocError>
    ensures { OnOk result (
        out.new ≡ walk (addresses_view addresses.now) (node.And (expr_view a.now) (expr_view b.now)) out.old) }
{
    let join = out.take_join()?;
    let value = out.take_variable()?;
    then(a, BuildOp::BranchZero { label: join.other }, addresses, out)?;
    then(b, BuildOp::BranchZero { label: join.other }, addresses, out)?;
    out.joins(1, 0, join, value)
}

// The pieces of `a || b`.
#[cycle(expression)]
fn either(
    a: &Boxed<Expr>,
    b: &Boxed<Expr>,
    addresses: &Addresses<'_>,
    out: &mut Pieces,
) -> Result<(), AllocError>
    ensures { OnOk result (
        out.new ≡ walk (addresses_view addresses.now) (node.Or (expr_view a.now) (expr_view b.now)) out.old) }
{
    let join = out.take_join()?;
    let value = out.take_variable()?;
    then(
        a,
        BuildOp::BranchNonzero { label: join.other },
        addresses,
        out,
    )?;
    then(
        b,
        BuildOp::BranchNonzero { label: join.other },
        addresses,
        out,
    )?;
    out.joins(0, 1, join, value)
}

// The pieces of `test ? a : b`.
#[cycle(expression)]
fn choice(
    test: &Boxed<Expr>,
    a: &Boxed<Expr>,
    b: &Boxed<Expr>,
    addresses: &Addresses<'_>,
    out: &mut Pieces,
) -> Result<(), AllocError>
    ensures { OnOk result (out.new ≡ walk (addresses_view addresses.now)
        (node.Cond (expr_view test.now) (expr_view a.now) (expr_view b.now)) out.old) }
{
    let join = out.take_join()?;
    let value = out.take_variable()?;
    let left = has_value(a.get());
    then(
        test,
        BuildOp::BranchZero { label: join.other },
        addresses,
        out,
    )?;
    way(a, left, value, addresses, out)?;
    out.turn(join.end, join.other)?;
    way(b, left, value, addresses, out)?;
    out.met(left, join.end, value)
}

// The pieces of one of two ways, whose value goes to a variable where there is one.
#[cycle(expression)]
fn way(
    e: &Boxed<Expr>,
    left: bool,
    value: u32,
    addresses: &Addresses<'_>,
    out: &mut Pieces,
) -> Result<(), AllocError>
    ensures { OnOk result (out.new ≡ put (plain (keeping left value))
        (walk (addresses_view addresses.now) (expr_view e.now) out.old)) }
{
    expression(e.get(), addresses, out)?;
    out.keeping(left, value)
}

// The pieces of `a, b`.
#[cycle(expression)]
fn comma(
    a: &Boxed<Expr>,
    b: &Boxed<Expr>,
    addresses: &Addresses<'_>,
    out: &mut Pieces,
) -> Result<(), AllocError>
    ensures { OnOk result (
        out.new ≡ walk (addresses_view addresses.now) (node.Comma (expr_view a.now) (expr_view b.now)) out.old) }
{
    effect(a, addresses, out)?;
    expression(b.get(), addresses, out)
}

// The pieces of expressions, one after another.
#[cycle(expression)]
#[tactic(auto, using(lowering_pieces::proofs::Lists::one_more))]
fn expressions(list: &[Expr], addresses: &Addresses<'_>, out: &mut Pieces) -> Result<(), AllocError>
    ensures { OnOk result (
        out.new ≡ walk_args (addresses_view addresses.now) (args_of (map expr_view list.now)) out.old) }
{
    for e in list {
        expression(e, addresses, out)?;
    }
    Ok(())
}

// The pieces of a call of a static function.
#[cycle(expression)]
fn call(
    answer: Answer,
    function: u32,
    args: &[Expr],
    addresses: &Addresses<'_>,
    out: &mut Pieces,
) -> Result<(), AllocError>
    ensures { OnOk result (out.new ≡ walk (addresses_view addresses.now)
        (node.Call answer function (args_of (map expr_view args.now))) out.old) }
{
    expressions(args, addresses, out)?;
    called(answer, function, args, addresses, out)
}

// The pieces of a call of the function whose number is evaluated first.
#[cycle(expression)]
fn call_number(
    answer: Answer,
    a: &Boxed<Expr>,
    args: &[Expr],
    addresses: &Addresses<'_>,
    out: &mut Pieces,
) -> Result<(), AllocError>
    ensures { OnOk result (out.new ≡ walk (addresses_view addresses.now)
        (node.CallNumber answer (expr_view a.now) (args_of (map expr_view args.now))) out.old) }
{
    expression(a.get(), addresses, out)?;
    expressions(args, addresses, out)?;
    called_number(answer, args, out)
}

// The pieces of a call of a library function.
#[cycle(expression)]
fn library(
    function: Library,
    a: &Boxed<Expr>,
    addresses: &Addresses<'_>,
    out: &mut Pieces,
) -> Result<(), AllocError>
    ensures { OnOk result (
        out.new ≡ put (library_pieces function) (walk (addresses_view addresses.now) (expr_view a.now) out.old)) }
{
    expression(a.get(), addresses, out)?;
    out.library(function)
}

// The pieces of a tick expression: its captures, and what makes its specification of them.
#[cycle(expression)]
fn specified(
    tick: u32,
    captures: &[Expr],
    addresses: &Addresses<'_>,
    out: &mut Pieces,
) -> Result<(), AllocError>
    ensures { OnOk result (out.new ≡ walk (addresses_view addresses.now)
        (node.Tick tick (args_of (map expr_view captures.now))) out.old) }
{
    expressions(captures, addresses, out)?;
    made(tick, captures, addresses, out)
}

// The pieces of a capture's value, behind the piece of the capture.
#[cycle(expression)]
fn capture(a: &Boxed<Expr>, addresses: &Addresses<'_>, out: &mut Pieces) -> Result<(), AllocError>
    ensures { OnOk result (
        out.new ≡ walk (addresses_view addresses.now) (expr_view a.now) (put (Piece.Nothing ∷ []) out.old)) }
{
    out.push(Piece::Nothing)?;
    expression(a.get(), addresses, out)
}

//! The pieces that make the specification of a tick, behind those of what it captures.

ghost use Rattle.std.specs.Prelude.{◌≡◌, IfOk, OnOk, length, map};
ghost use Rattle.lowering_pieces.specs.Steps.{put};
ghost use Rattle.staged_meaning.specs.Specifications.{kind_of, kinds_of};
ghost use Rattle.tick_lower_spec.specs.Lower.{check_run, checking, checking_all, making_ops, nipping, putting};
ghost use Rattle.tick_lower_spec.specs.TickPieces.{plain};
ghost use Rattle.tick_lower.specs.Viewed.{addresses_view};
ghost use Rattle.typed_tree.specs.View.{args_of, expr_view};

use crate::addresses::Addresses;
use icode_ir::BuildOp;
use icode_ops::RunKind;
use lowering_pieces::Pieces;
use lowering_pieces::places::capture_of;
use std::alloc::AllocError;
use typed_tree::{Answer, CaptureKind, Expr};

// The kind of a capture, which is a node of its own.
#[tactic(auto, using(typed_tree::proofs::Views::expressions))]
fn kind_of(e: &Expr) -> CaptureKind
    ensures { result ≡ kind_of (expr_view e.now) }
{
    match e {
        Expr::Capture(kind, _) => *kind,
        Expr::Const(_) | Expr::Captured(_, _) | Expr::Var(_) | Expr::SetVar(_, _) =>
            CaptureKind::Dollar,
        Expr::PostVar(_, _, _) | Expr::VGet(_) | Expr::VSet(_, _) | Expr::VPost(_, _) =>
            CaptureKind::Dollar,
        Expr::Frame(_) | Expr::Load(_, _) | Expr::Store(_, _, _) => CaptureKind::Dollar,
        Expr::Modify(_, _, _, _) | Expr::Post(_, _, _) | Expr::Bin(_, _, _) => CaptureKind::Dollar,
        Expr::Un(_, _) | Expr::And(_, _) | Expr::Or(_, _) | Expr::Cond(_, _, _) =>
            CaptureKind::Dollar,
        Expr::Comma(_, _) | Expr::Void(_) | Expr::Call(_, _, _) => CaptureKind::Dollar,
        Expr::CallNumber(_, _, _) | Expr::Getchar | Expr::Lib(_, _) => CaptureKind::Dollar,
        Expr::Tick(_, _) | Expr::Splice(_, _) | Expr::Compile(_) => CaptureKind::Dollar,
        Expr::Local | Expr::ParamOf(_) => CaptureKind::Dollar,
    }
}

// What a captured number is checked as; a value or an address is not checked.
fn check_run(kind: CaptureKind) -> Option<RunKind>
    ensures { result ≡ check_run kind }
{
    match kind {
        CaptureKind::Splice(Answer::Value) => Some(RunKind::Expression),
        CaptureKind::Splice(Answer::Void) => Some(RunKind::Statement),
        CaptureKind::Variable => Some(RunKind::Variable),
        CaptureKind::Dollar | CaptureKind::Address => None,
    }
}

// How many captures these are. It fails where a word has no number for so many, which no memory has room for.
#[tactic(auto, using(crate::proofs::Captures::counted))]
fn count_of(captures: &[Expr]) -> Result<u32, AllocError>
    ensures { IfOk result (λ n. n ≡ length (kinds_of (args_of (map expr_view captures.now)))) }
{
    match u32::try_from(captures.len()) {
        Ok(count) => Ok(count),
        Err(_) => Err(AllocError),
    }
}

// The check of a captured number that lies so deep, where it is checked.
fn check(kind: CaptureKind, depth: u32, out: &mut Pieces) -> Result<(), AllocError>
    ensures { OnOk result (out.new ≡ put (plain (checking (check_run kind) depth)) out.old) }
{
    match check_run(kind) {
        Some(routine) => out.ops(&[
            BuildOp::Pick { depth },
            BuildOp::Run { routine },
            BuildOp::Drop,
        ]),
        None => Ok(()),
    }
}

// The checks of all captures, in their order: so many words lie above each.
#[tactic(auto, using(crate::proofs::Captures::one_check_more))]
fn checks(captures: &[Expr], out: &mut Pieces) -> Result<(), AllocError>
    ensures { OnOk result (
        out.new ≡ put (plain (checking_all (kinds_of (args_of (map expr_view captures.now))))) out.old) }
{
    let mut above = count_of(captures)?;
    for capture in captures {
        above -= 1;
        check(kind_of(capture), above, out)?;
    }
    Ok(())
}

// The captured words go into the closure, from the first on.
#[tactic(auto, using(crate::proofs::Captures::one_put_more))]
fn puts(captures: &[Expr], out: &mut Pieces) -> Result<(), AllocError>
    ensures { OnOk result (
        out.new ≡ put (plain (putting 0 (kinds_of (args_of (map expr_view captures.now))))) out.old) }
{
    let count = count_of(captures)?;
    for i in 0..count {
        let index = capture_of(i)?;
        let depth = count - i;
        out.ops(&[BuildOp::Pick { depth }, BuildOp::Put { index }])?;
    }
    Ok(())
}

// The captured words go from below the new number.
#[tactic(auto, using(crate::proofs::Captures::one_nip_more))]
fn nips(captures: &[Expr], out: &mut Pieces) -> Result<(), AllocError>
    ensures { OnOk result (
        out.new ≡ put (plain (nipping (kinds_of (args_of (map expr_view captures.now))))) out.old) }
{
    let count = count_of(captures)?;
    for _taken in 0..count {
        out.op(BuildOp::Nip)?;
    }
    Ok(())
}

/// The pieces that make the specification of a tick, whose captured words are the operands on top. It fails for want of
/// memory, and where a closure has no place for so many captures, which no accepted text has.
pub fn made(
    tick: u32,
    captures: &[Expr],
    addresses: &Addresses<'_>,
    out: &mut Pieces,
) -> Result<(), AllocError>
    ensures { OnOk result (out.new ≡ put (plain (making_ops (addresses_view addresses.now) tick
        (kinds_of (args_of (map expr_view captures.now))))) out.old) }
{
    out.ops(&[
        BuildOp::Const {
            word: addresses.size(tick),
        },
        BuildOp::Run {
            routine: RunKind::Begin,
        },
        BuildOp::Drop,
    ])?;
    checks(captures, out)?;
    out.op(BuildOp::New {
        address: addresses.generator(tick),
        kind: addresses.kind(tick),
        captures: count_of(captures)?,
    })?;
    puts(captures, out)?;
    nips(captures, out)
}

//! The pieces of what reads and writes a place: a variable, an address, a capture.

ghost use Rattle.std.specs.Prelude.{◌≡◌, ◌∷◌, [], IfOk, OnOk};
ghost use Rattle.icode_ops.specs.declared.kind.BinKind.TheVariants.{Add};
ghost use Rattle.lowering_pieces.specs.Steps.{op, put};
ghost use Rattle.tick_lower_spec.specs.Lower.{narrowing, step_ops};
ghost use Rattle.tick_lower_spec.specs.TickPieces.{plain};

use crate::pieces::Pieces;
use icode_ir::BuildOp;
use icode_ops::{BinKind, CaptureIndex};
use std::alloc::AllocError;
use tick_lower_spec::Piece;
use word32::Width;

/// The capture of this number. It fails where a closure has no place for it, which no accepted text has.
pub fn capture_of(capture: u32) -> Result<CaptureIndex, AllocError>
    ensures { IfOk result (λ n. n ≡ capture) }
{
    match CaptureIndex::new(capture) {
        Some(index) => Ok(index),
        None => Err(AllocError),
    }
}

/// The constant of a captured word. It fails for want of memory, and where a closure has no place for the capture.
pub fn captured(capture: u32, out: &mut Pieces) -> Result<(), AllocError>
    ensures { OnOk result (out.new ≡ put (Piece.Captured capture ∷ []) out.old) }
{
    out.push(Piece::Captured(capture_of(capture)?))
}

/// The value of a captured variable. It fails for want of memory, and where a closure has no place for the capture.
pub fn key(capture: u32, out: &mut Pieces) -> Result<(), AllocError>
    ensures { OnOk result (out.new ≡ put (Piece.GetKey capture ∷ []) out.old) }
{
    out.push(Piece::GetKey(capture_of(capture)?))
}

/// The value on top becomes that of a captured variable, and stays. It fails for want of memory, and where a closure
/// has no place for the capture.
pub fn keep_key(capture: u32, out: &mut Pieces) -> Result<(), AllocError>
    ensures { OnOk result (out.new ≡ put (Piece.SetKey capture ∷ []) out.old) }
{
    out.push(Piece::SetKey(capture_of(capture)?))
}

/// The ops of a captured specification. It fails for want of memory, and where a closure has no place for the capture.
pub fn splice(capture: u32, out: &mut Pieces) -> Result<(), AllocError>
    ensures { OnOk result (out.new ≡ put (Piece.Splice capture ∷ []) out.old) }
{
    out.push(Piece::Splice(capture_of(capture)?))
}

/// Adds a step to a variable, and leaves the old value. The only error is want of memory.
pub fn post_variable(
    variable: u32,
    width: Width,
    step: u32,
    out: &mut Pieces,
) -> Result<(), AllocError>
    ensures { OnOk result (out.new ≡ put (plain (BuildOp.SetVariable variable ∷ BuildOp.Drop ∷ []))
        (put (plain (step_ops step width)) (put (plain (BuildOp.GetVariable variable ∷ BuildOp.Pick 0 ∷ []))
        out.old))) }
{
    out.ops(&[
        BuildOp::GetVariable { variable },
        BuildOp::Pick { depth: 0 },
    ])?;
    out.step(step, width)?;
    out.ops(&[BuildOp::SetVariable { variable }, BuildOp::Drop])
}

/// Adds a step to a captured variable, and leaves the old value. It fails for want of memory, and where a closure has
/// no place for the capture.
pub fn post_key(capture: u32, step: u32, out: &mut Pieces) -> Result<(), AllocError>
    ensures { OnOk result (out.new ≡ op BuildOp.Drop (put (Piece.SetKey capture ∷ [])
        (put (plain (BuildOp.Pick 0 ∷ BuildOp.Const step ∷ BuildOp.Bin Add ∷ []))
        (put (Piece.GetKey capture ∷ []) out.old)))) }
{
    let key = capture_of(capture)?;
    out.push(Piece::GetKey(key))?;
    out.ops(&[
        BuildOp::Pick { depth: 0 },
        BuildOp::Const { word: step },
        BuildOp::Bin { kind: BinKind::Add },
    ])?;
    out.push(Piece::SetKey(key))?;
    out.op(BuildOp::Drop)
}

/// Loads the value at the address on top, which stays below it. The only error is want of memory.
pub fn loaded(width: Width, out: &mut Pieces) -> Result<(), AllocError>
    ensures { OnOk result (out.new ≡ put (plain (BuildOp.Pick 0 ∷ BuildOp.Load width ∷ [])) out.old) }
{
    out.ops(&[BuildOp::Pick { depth: 0 }, BuildOp::Load { width }])
}

/// Stores the value on top, narrowed, at the address below it. The only error is want of memory.
pub fn stored(width: Width, out: &mut Pieces) -> Result<(), AllocError>
    ensures { OnOk result (out.new ≡ op (BuildOp.Store width) (put (plain (narrowing width)) out.old)) }
{
    out.narrowing(width)?;
    out.op(BuildOp::Store { width })
}

/// Adds a step to the value at the address on top, and leaves the old value. The only error is want of memory.
pub fn post_loaded(width: Width, step: u32, out: &mut Pieces) -> Result<(), AllocError>
    ensures { OnOk result (out.new ≡ put (plain (BuildOp.Store width ∷ BuildOp.Drop ∷ BuildOp.Nip ∷ []))
        (put (plain (step_ops step width)) (put (plain (BuildOp.Pick 0 ∷ BuildOp.Load width ∷ BuildOp.Pick 1
        ∷ BuildOp.Pick 1 ∷ [])) out.old))) }
{
    out.ops(&[
        BuildOp::Pick { depth: 0 },
        BuildOp::Load { width },
        BuildOp::Pick { depth: 1 },
        BuildOp::Pick { depth: 1 },
    ])?;
    out.step(step, width)?;
    out.ops(&[BuildOp::Store { width }, BuildOp::Drop, BuildOp::Nip])
}

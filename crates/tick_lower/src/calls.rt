//! The numbers that ops and pieces have of their own kinds, and the ops that call.

ghost use Rattle.std.specs.Prelude.{◌≡◌, IfOk, OnOk, map};
ghost use Rattle.lowering_pieces.specs.Steps.{op, put};
ghost use Rattle.tick_lower_spec.specs.Lower.{dropping_call};
ghost use Rattle.tick_lower_spec.specs.TickPieces.{plain};
ghost use Rattle.tick_lower.specs.Viewed.{addresses_view};
ghost use Rattle.typed_tree.specs.Nodes as node;
ghost use Rattle.typed_tree.specs.View.{expr_view, args_of};

use crate::addresses::Addresses;
use icode_ir::BuildOp;
use icode_ops::{ArgumentCount, ArgumentIndex};
use lowering_pieces::Pieces;
use std::alloc::AllocError;
use typed_tree::{Answer, Expr};

/// How many arguments these are. It fails where a call has no number for so many, which no accepted text has.
#[tactic(auto, using(lowering_pieces::proofs::Lists::counted))]
pub fn count_of(args: &[Expr]) -> Result<ArgumentCount, AllocError>
    ensures { IfOk result (λ n. n ≡ node.count (args_of (map expr_view args.now))) }
{
    match u32::try_from(args.len()) {
        Ok(count) => match ArgumentCount::new(count) {
            Some(count) => Ok(count),
            None => Err(AllocError),
        },
        Err(_) => Err(AllocError),
    }
}

/// The parameter of this number. It fails where there is none, which no accepted text has.
pub fn parameter_of(parameter: u32) -> Result<ArgumentIndex, AllocError>
    ensures { IfOk result (λ n. n ≡ parameter) }
{
    match ArgumentIndex::new(parameter) {
        Some(index) => Ok(index),
        None => Err(AllocError),
    }
}

/// A call of a static function, whose arguments these are, behind them. It fails for want of memory, and where a call
/// has no number for so many.
pub fn called(
    answer: Answer,
    function: u32,
    args: &[Expr],
    addresses: &Addresses<'_>,
    out: &mut Pieces,
) -> Result<(), AllocError>
    ensures { OnOk result (out.new ≡ put (plain (dropping_call answer)) (op (BuildOp.Call
        ((addresses_view addresses.now).function_at function) (node.count (args_of (map expr_view args.now))))
        out.old)) }
{
    let address = addresses.function(function);
    let count = count_of(args)?;
    out.op(BuildOp::Call { address, count })?;
    out.dropping_call(answer)
}

/// A call of a function by its number, which stands below these arguments, behind them. It fails for want of memory,
/// and where a call has no number for so many.
pub fn called_number(answer: Answer, args: &[Expr], out: &mut Pieces) -> Result<(), AllocError>
    ensures { OnOk result (out.new ≡ put (plain (dropping_call answer))
        (op (BuildOp.CallNumber (node.count (args_of (map expr_view args.now)))) out.old)) }
{
    let count = count_of(args)?;
    out.op(BuildOp::CallNumber { count })?;
    out.dropping_call(answer)
}

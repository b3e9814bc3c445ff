//! The ops of a function, and a builder that takes them.

ghost use Rattle.std.specs.Prelude.{◌≡◌, OnOk};
ghost use Rattle.tick_lower_spec.specs.TickPieces.{pieces_with};
ghost use Rattle.icode_ir.specs.Build.{empty};
ghost use Rattle.icode_ir.specs.Runs.{EmitsAll, run_ops};
ghost use Rattle.staged_meaning.specs.Scope.{IsReady};
ghost use Rattle.tick_lower_spec.specs.Lower.{no_holes, function_ops as ops_of};
ghost use Rattle.tick_lower.specs.Viewed.{addresses_view};
ghost use Rattle.typed_tree.specs.View.{function_view};

use icode_ir::{BuildFault, Builder, Phase};
use lowering_pieces::Pieces;
use sqlite_items::Items;
use std::alloc::{AllocError, Global};
use tick_lower::{Addresses, statement_body};
use tick_lower_proof::lowering_is_accepted;
use tick_lower_spec::Piece;
use typed_tree::Function;

// How many pieces a list has room for as it begins: those of a function of a few lines, so that it seldom grows.
const ROOM: usize = 48;

// Gives the ops of pieces to a builder, up to the first that is refused: the builder then has those before it. A
// function of the text captures nothing, so its pieces are ops.
fn take(pieces: &[Piece], builder: &mut Builder) -> Result<(), BuildFault>
    requires { builder.old.phase ≡ Phase.Begun }
    ensures phase { builder.new.phase ≡ Phase.Begun }
    ensures emits { EmitsAll (pieces_with no_holes pieces.now) builder.old.build builder.new.build result }
{
    for piece in pieces {
        match piece {
            Piece::Plain(op) => builder.emit(*op)?,
            Piece::Captured(_) | Piece::GetKey(_) | Piece::SetKey(_) => {}
            Piece::Splice(_) | Piece::Nothing => {}
        }
    }
    Ok(())
}

/// Gives the ops of a function to a builder that is begun for it. A call of a static function whose address isn't known
/// yet goes to 0. The builder takes all ops, and can then be finished.
///
/// # Errors
/// Where memory is wanting.
pub fn lower(
    alloc: Global,
    addresses: &Addresses<'_>,
    function: &Function,
    builder: &mut Builder,
) -> Result<(), AllocError>
    requires begun { builder.old ≡ record { build = empty function.now.params; phase = Phase.Begun } }
    requires ready { IsReady (function_view function.now) }
    ensures phase { builder.new.phase ≡ Phase.Begun }
    ensures taken { OnOk result (
        builder.new.build ≡ run_ops (ops_of (addresses_view addresses.now) (function_view function.now))
        builder.old.build) }
{
    let room = Vec::with_capacity(alloc, ROOM)?;
    let mut pieces = Pieces {
        alloc,
        list: Items::from_vec(room),
        label: 0,
        variable: 0,
    };
    statement_body(addresses, function.body.get(), &mut pieces)?;
    lowering_is_accepted();
    match take(pieces.list.as_slice(), builder) {
        Ok(()) => Ok(()),
        Err(_) => unreachable!(),
    }
}

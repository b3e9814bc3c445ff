//! The pieces round those of a tick's body: what enters it, with its own variables and labels, and what leaves it.

ghost use Rattle.std.specs.Prelude.{◌≡◌, ◌<◌, ◌++◌, ◌∷◌, [], OnOk, length, slice_set};

use crate::pieces::Pieces;
use icode_ir::BuildOp;
use sqlite_items::Items;
use std::alloc::AllocError;
use tick_lower_spec::Piece;

// Takes all pieces away.
#[tactic(auto, using(crate::proofs::Lists::shorter))]
fn clear(list: &mut Items<Piece>)
    ensures { list.new ≡ [] }
{
    while let Some(_) = list.pop() {}
}

/// Begins a body whose own variables are numbered from this one on. How many there are, and how many labels, is known
/// behind it; so a place is kept for the op that enters it. The only error is want of memory.
pub fn begin(variable: u32, out: &mut Pieces) -> Result<(), AllocError>
    ensures { OnOk result (
        out.new ≡ record out.old { list = Piece.Nothing ∷ []; label = 0; variable = variable }) }
{
    clear(&mut out.list);
    out.label = 0;
    out.variable = variable;
    out.push(Piece::Nothing)
}

/// Ends the body: what enters it gives each splice of its tick variables and labels of its own. The only error is want
/// of memory.
pub fn end(out: &mut Pieces) -> Result<(), AllocError>
    requires { 0 < length out.old.list }
    ensures { OnOk result (out.new.list ≡ slice_set (out.old.list ++ Piece.Plain BuildOp.Leave ∷ []) 0
        (Piece.Plain (BuildOp.Enter out.old.variable out.old.label))) }
{
    out.op(BuildOp::Leave)?;
    let enter = BuildOp::Enter {
        variables: out.variable,
        labels: out.label,
    };
    out.list.set(0, Piece::Plain(enter));
    Ok(())
}

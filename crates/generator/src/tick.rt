//! The words of the function that generates the code of a tick.

ghost use Rattle.std.specs.Prelude.{◌≡◌, IfOk, OnOk};
ghost use Rattle.routine_spec.specs.Written.{HasWords};
ghost use Rattle.routine_spec.specs.Generator.{generator_code};
ghost use Rattle.icode_ir.specs.Sound.{Each};
ghost use Rattle.icode_templates.specs.Words.{words as words_of};
ghost use Rattle.staged_meaning.specs.Source.{tick_view};
ghost use Rattle.generator.specs.Ticks.{HasNumbers, pieces_of};
ghost use Rattle.tick_lower_spec.specs.TickPieces.{tick_pieces};
ghost use Rattle.tick_lower.specs.Viewed.{addresses_view};

use generator_emitter::words;
use lowering_pieces::Pieces;
use sqlite_items::{Items, at};
use std::alloc::{AllocError, Global};
use tick_lower::{Addresses, expression_body, statement_body};
use typed_tree::TickBody;
use wellformed::Typed;

/// Room for the pieces of a tick, which serves for one tick after another.
#[derive(Drop)]
pub struct Room {
    pieces: Pieces,
}

impl Room {
    /// Room that grows as it is used.
    pub fn new(alloc: Global) -> Room {
        Room {
            pieces: Pieces {
                alloc,
                list: Items::new(alloc),
                label: 0,
                variable: 0,
            },
        }
    }
}

// The pieces of a tick's body.
fn body(addresses: &Addresses<'_>, body: &TickBody, out: &mut Pieces) -> Result<(), AllocError>
    requires { HasNumbers body.now }
    ensures { OnOk result (out.new.list ≡ tick_pieces (addresses_view addresses.now) (tick_view body.now)) }
{
    match body {
        TickBody::Expression(e) => expression_body(addresses, e.get(), out),
        TickBody::Statement(s) => statement_body(addresses, s.get(), out),
    }
}

/// The words of the function that generates the code of the tick of this number; of a tick that isn't there, those of
/// one without pieces. A call of a static function whose address isn't known goes to 0. It fails for want of memory,
/// and where a number in the tick is too great for an op or a closure, which none in an accepted text is.
#[tactic(auto, using(crate::proofs::Numbers::few))]
pub fn tick_words(
    alloc: Global,
    typed: &Typed,
    tick: u32,
    addresses: &Addresses<'_>,
    room: &mut Room,
) -> Result<Items<u32>, AllocError>
    ensures words { IfOk result (λ found.
        found ≡ words_of (generator_code (pieces_of (addresses_view addresses.now) typed.now.ticks tick))) }
    ensures fits { OnOk result (Each HasWords (pieces_of (addresses_view addresses.now) typed.now.ticks tick)) }
{
    typed.keeps_law();
    match at(typed.ticks(), tick as usize) {
        None => words(alloc, &[]),
        Some(tick) => {
            body(addresses, &tick.body, &mut room.pieces)?;
            words(alloc, room.pieces.list.as_slice())
        }
    }
}

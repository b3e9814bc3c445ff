//! The functions that generate the code of ticks.

ghost use Rattle.std.specs.Prelude.{◌≡◌, ◌+◌, ◌*◌, ◌%◌, ◌++◌, ◌∷◌, [], ◌≤◌, IfOk, OnOk, length};
ghost use Rattle.icode_templates.specs.Words.{words as words_of};
ghost use Rattle.routine_spec.specs.Generator.{generator_code};
ghost use Rattle.staged_meaning.specs.Source.{tick_view};
ghost use Rattle.static_backend.specs.Ticks.{HasNumbers, HaveNumbers, ticks_view};
ghost use Rattle.static_image.specs.Layout as layout;
ghost use Rattle.tick_lower.specs.Viewed.{addresses_view};
ghost use Rattle.tick_lower_spec.specs.TickPieces.{tick_pieces};
ghost use Rattle.word32.specs.declared.map.TheConstants.{ARENA};

use generator_emitter::words;
use icode_ops::CallAddress;
use lowering_pieces::Pieces;
use sqlite_items::Items;
use std::alloc::{AllocError, Global};
use tick_lower::{Addresses, expression_body, statement_body};
use typed_tree::{Tick, TickBody};

/// The functions that generate the code of ticks, in the order of these.
#[derive(Drop)]
pub struct Generators {
    /// The address of each.
    pub starts: Vec<CallAddress>,
    /// Their words, one behind another.
    pub words: Vec<u32>,
}

// The pieces of a tick's body.
fn lowered(addresses: &Addresses<'_>, body: &TickBody, out: &mut Pieces) -> Result<(), AllocError>
    requires { HasNumbers body.now }
    ensures { OnOk result (out.new.list ≡ tick_pieces (addresses_view addresses.now) (tick_view body.now)) }
{
    match body {
        TickBody::Expression(e) => expression_body(addresses, e.get(), out),
        TickBody::Statement(s) => statement_body(addresses, s.get(), out),
    }
}

// The words of the function of one tick more.
fn add(
    alloc: Global,
    addresses: &Addresses<'_>,
    tick: &Tick,
    pieces: &mut Pieces,
    out: &mut Vec<u32>,
) -> Result<(), AllocError>
    requires { HasNumbers tick.now.body }
    ensures { OnOk result (out.new.items ≡ out.old.items
        ++ words_of (generator_code (tick_pieces (addresses_view addresses.now) (tick_view tick.now.body)))) }
{
    lowered(addresses, &tick.body, pieces)?;
    let own = words(alloc, pieces.list.as_slice())?;
    out.extend_from_slice(own.as_slice())
}

/// The functions that generate the code of these ticks, one behind another from an address on. The static functions are
/// at these addresses.
///
/// # Errors
/// Where memory is wanting.
pub fn generated(
    alloc: Global,
    starts: &[CallAddress],
    end: u32,
    ticks: &[Tick],
) -> Result<Generators, AllocError>
    requires aligned { end % 4 ≡ 0 }
    requires room { end + 4 * length (layout.generators starts.now (ticks_view ticks.now)) ≤ ARENA }
    requires numbers { HaveNumbers ticks.now }
    ensures starts { IfOk result (λ made.
        made.starts.items ≡ layout.generator_starts starts.now end (ticks_view ticks.now)) }
    ensures words { IfOk result (λ made. made.words.items ≡ layout.generators starts.now (ticks_view ticks.now)) }
{
    let addresses = Addresses::of_functions(starts);
    let mut pieces = Pieces {
        alloc,
        list: Items::new(alloc),
        label: 0,
        variable: 0,
    };
    let mut made = Generators {
        starts: Vec::new(alloc),
        words: Vec::new(alloc),
    };
    let mut at = end;
    for tick in ticks {
        match CallAddress::new(at) {
            Some(start) => made.starts.push(start)?,
            None => unreachable!(),
        }
        let filled = made.words.len();
        add(alloc, &addresses, tick, &mut pieces, &mut made.words)?;
        at += 4 * (made.words.len() - filled) as u32;
    }
    Ok(made)
}

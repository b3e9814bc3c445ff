//! What the walk knows besides the tree: where the image has its functions, and the ticks.

ghost use Rattle.std.specs.Prelude.{◌≡◌, Some};
ghost use Rattle.staged_meaning.specs.Program.{is_expression};
ghost use Rattle.staged_meaning.specs.Source.{tick_view};
ghost use Rattle.tick_lower_spec.specs.Lower.{kind_of_tick};
ghost use Rattle.tick_lower.specs.Sized.{AreSized};

use icode_ops::{CallAddress, ClosureKind};
use sqlite_items::at;
use typed_tree::{Tick, TickBody, has_value};

/// Where the image has its functions, and the ticks: their sizes and kinds stand in the ops that make their
/// specifications.
#[derive(Drop)]
pub struct Addresses<'a> {
    /// The address of each static function, in the order of the text; the first has the number 1.
    pub starts: &'a [CallAddress],
    /// For each tick the address of the function that generates its code.
    pub generators: &'a [CallAddress],
    /// The ticks, in the order of the text.
    pub ticks: &'a [Tick],
    ghost sized: { AreSized ticks.now },
}

// What a tick of this body specifies.
#[tactic(auto, using(typed_tree::proofs::Fusion::value_viewed))]
fn kind_of(body: &TickBody) -> ClosureKind
    ensures { result ≡ kind_of_tick (is_expression (Some (tick_view body.now))) }
{
    match body {
        TickBody::Expression(e) => {
            if has_value(e.get()) {
                ClosureKind::Expression
            } else {
                ClosureKind::Statement
            }
        }
        TickBody::Statement(_) => ClosureKind::Statement,
    }
}

impl<'a> Addresses<'a> {
    ghost use Rattle.std.specs.Prelude.{◌≡◌, [], slice_get};
    ghost use Rattle.staged_meaning.specs.Program.{is_expression, tick_size};
    ghost use Rattle.tick_lower_spec.specs.Lower.{kind_of_tick, listed};
    ghost use Rattle.tick_lower.specs.Viewed.{addresses_view};

    /// Those of a program without ticks, whose static functions are at these addresses.
    pub fn of_functions(starts: &'a [CallAddress]) -> Addresses<'a>
        ensures { addresses_view result ≡ listed starts.now [] [] }
    {
        Addresses {
            starts,
            generators: &[],
            ticks: &[],
        }
    }

    /// The address of the function of this number, counted from 1; 0 where none is known.
    pub fn function(&self, number: u32) -> CallAddress
        ensures { result ≡ (addresses_view self.now).function_at number }
    {
        let index = number.saturating_sub(1) as usize;
        if index < self.starts.len() {
            return self.starts[index];
        }
        match CallAddress::new(0) {
            Some(nowhere) => nowhere,
            None => unreachable!(),
        }
    }

    /// The address of the function that generates the code of a tick; 0 where none is known.
    pub fn generator(&self, tick: u32) -> u32
        ensures { result ≡ (addresses_view self.now).generator_at tick }
    {
        let index = tick as usize;
        if index < self.generators.len() {
            return self.generators[index].get();
        }
        0
    }

    /// How many nodes a tick has; none where it isn't there.
    pub fn size(&self, tick: u32) -> u32
        ensures { result ≡ tick_size (slice_get (addresses_view self.now).ticks tick) }
    {
        match at(self.ticks, tick as usize) {
            None => 0,
            Some(tick) => tick.size,
        }
    }

    /// What a tick specifies: a statement where it leaves no value, or isn't there.
    pub fn kind(&self, tick: u32) -> ClosureKind
        ensures { result ≡ kind_of_tick (is_expression (slice_get (addresses_view self.now).ticks tick)) }
    {
        match at(self.ticks, tick as usize) {
            None => ClosureKind::Statement,
            Some(tick) => kind_of(&tick.body),
        }
    }
}

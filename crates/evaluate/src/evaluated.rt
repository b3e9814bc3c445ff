//! What comes of a program.

ghost use Rattle.std.specs.Prelude.{◌≡◌, false, IfOk, Some, option_map};
ghost use Rattle.history.specs.Events.{Ended, output};
ghost use Rattle.staged_meaning.specs.Meaning.{Program, meant};
ghost use Rattle.staged_meaning.specs.Source.{program_view};
ghost use Rattle.evaluate.specs.Seen.{seen_of, units_left};

use crate::run::finish;
use eval_state::{Machine, Now};
use host_edge::Ending;
use sqlite_items::Items;
use std::alloc::{AllocError, Global};
use wellformed::Typed;

/// A run that is over, or that has no unit left.
#[derive(Drop)]
pub struct Evaluated<'a> {
    /// The state that it ended in.
    pub(crate) machine: Machine<'a>,
    /// What was done last.
    pub(crate) last: Now<'a>,
}

impl<'a> Evaluated<'a> {
    /// How the run ended; none, where its units didn't suffice.
    pub fn ending(&self) -> Option<Ending>
        ensures { option_map Ended result ≡ (seen_of self.now).ending }
    {
        match self.last {
            Now::Ended(ending) => Some(ending),
            Now::Stopped => None,
            Now::Value(v) | Now::Returned(v) => Some(Ending::Done((v % 256) as u8)),
            Now::Left(_) | Now::Eval(_) | Now::Exec(_) | Now::Run(_) => Some(Ending::Done(0)),
        }
    }

    /// The bytes that it put out.
    ///
    /// # Errors
    /// Where memory is wanting.
    pub fn output(&self, alloc: Global) -> Result<Items<u8>, AllocError>
        ensures { IfOk result (λ bytes. bytes ≡ output (seen_of self.now).history) }
    {
        self.machine.output(alloc)
    }

    /// The units that are left.
    pub fn units(&self) -> u64
        ensures { result ≡ units_left self.now }
    {
        self.machine.units()
    }
}

/// What comes of a program on an input within so many units of work: its history and its ending are those of its
/// meaning.
///
/// # Errors
/// Where memory is wanting.
pub fn evaluate<'a>(
    alloc: Global,
    typed: &'a Typed,
    input: &'a [u8],
    units: u64,
) -> Result<Evaluated<'a>, AllocError>
    ensures { IfOk result (λ it. (p : Program) → program_view typed.entry.now ≡ Some p
        → seen_of it ≡ meant p (record { bytes = input.entry.now; failing = false }) units) }
{
    let mut machine = Machine::new(alloc, typed, input, units)?;
    let main = machine.main();
    let first = machine.spend(Now::Exec(main));
    let last = finish(&mut machine, first)?;
    Ok(Evaluated { machine, last })
}

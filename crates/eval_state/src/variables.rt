//! Register variables, and what a call was passed.

ghost use Rattle.std.specs.Prelude.{◌≡◌, ℕ, OnOk, get_or};
ghost use Rattle.word32.specs.Space.{update};
ghost use Rattle.staged_meaning.specs.Statements.{argument};
ghost use Rattle.staged_meaning.specs.World.{with_variable};
ghost use Rattle.eval_state.specs.Run.{in_world, run_of, world};

use crate::state::Machine;
use sqlite_items::Items;
use std::alloc::AllocError;

// The word at a place, or 0.
pub(crate) fn at(words: &[u32], i: u32) -> u32
    ensures { result ≡ get_or words.now i 0 }
{
    match words.get(i as usize) {
        Some(v) => *v,
        None => 0,
    }
}

// Sets the word at a place, behind as many 0 as it takes.
fn put(words: &mut Items<u32>, i: u32, v: u32) -> Result<(), AllocError>
    ensures { OnOk result ((k : ℕ) → get_or words.new k 0 ≡ update i v (λ j. get_or words.old j 0) k) }
{
    while words.len() <= i as usize {
        words.push(0)?;
    }
    words.set(i as usize, v);
    Ok(())
}

impl<'a> Machine<'a> {
    /// The value of a register variable.
    #[tactic(auto, using(crate::proofs::Changes::reads))]
    pub fn variable(&self, i: u32) -> u32
        ensures { result ≡ (world (run_of self.now)).variables i }
    {
        at(self.parts.body.variables.as_slice(), i)
    }

    /// What the active call was passed at a place, or 0.
    #[tactic(auto, using(crate::proofs::Changes::reads))]
    pub fn argument(&self, k: u32) -> u32
        ensures { result ≡ argument (world (run_of self.now)).arguments k }
    {
        at(self.parts.body.arguments.as_slice(), k)
    }

    /// Sets a register variable.
    ///
    /// # Errors
    /// Where memory is wanting.
    #[tactic(auto, using(crate::proofs::Changes::sets))]
    pub fn set_variable(&mut self, i: u32, v: u32) -> Result<(), AllocError>
        ensures { OnOk result (run_of self.new
            ≡ in_world (with_variable i v (world (run_of self.old))) (run_of self.old)) }
    {
        put(&mut self.parts.body.variables, i, v)
    }
}

//! What the code that is active captured.

ghost use Rattle.std.specs.Prelude.{◌≡◌};
ghost use Rattle.staged_meaning.specs.Expressions.{key_of, word_of};
ghost use Rattle.meaning_state.specs.Rows.{numbered};
ghost use Rattle.std.specs.Option.{option_copied};
ghost use Rattle.eval_state.specs.Sound.{IsSound};
ghost use Rattle.eval_state.specs.Numbered.{kept_at};
ghost use Rattle.eval_state.specs.Run.{here, run_of};

use crate::state::{Kept, Machine, Row};

impl<'a> Machine<'a> {
    // That the law of the state holds of it.
    pub fn keeps_law(&self)
        ensures { IsSound self.now }
    {
        let _ = &self.parts;
    }

    /// The captured word of a number, of the code that is active; 0, where there is none.
    #[tactic(auto, using(crate::proofs::Named::word_here))]
    pub fn captured(&self, capture: u32) -> u32
        ensures { result ≡ word_of (here (run_of self.now)).captures capture }
    {
        self.keeps_law();
        match self.kept(capture) {
            Some(Kept::Word(word)) => word,
            Some(Kept::Key(_) | Kept::Number(_)) | None => 0,
        }
    }

    // The key of the variable of generated code that a capture names; 0, where it names none.
    #[tactic(auto, using(crate::proofs::Named::key_here))]
    pub(crate) fn key(&self, capture: u32) -> u32
        ensures { result ≡ key_of (here (run_of self.now)).captures capture }
    {
        self.keeps_law();
        match self.kept(capture) {
            Some(Kept::Key(key)) => key,
            Some(Kept::Word(_) | Kept::Number(_)) | None => 0,
        }
    }

    /// What is kept of a capture of the code that is active.
    pub fn kept(&self, capture: u32) -> Option<Kept>
        ensures { result ≡ kept_at self.now capture }
    {
        match self.row(self.parts.body.row) {
            None => None,
            Some(row) => row.kept.get(capture as usize).copied(),
        }
    }

    /// The specification of a number.
    pub fn row(&self, number: u32) -> Option<&Row>
        ensures { option_copied result ≡ numbered number self.now.rows }
    {
        if number == 0 {
            return None;
        }
        self.parts.rows.get((number - 1) as usize)
    }
}

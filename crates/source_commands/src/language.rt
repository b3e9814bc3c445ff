//! What the commands on texts ask of the language: the syntax tree of a text, its typed tree, and what a program means.
ghost use Rattle.std.specs.Prelude.{◌≤◌, length, IfOk};
ghost use Rattle.tick_tree.specs.Faults.{Answers, Checks};
ghost use Rattle.parse_spelling.specs.Trees.{parsed};
ghost use Rattle.check_globals.specs.Program.{checked};
ghost use Rattle.staged_meaning.specs.Meaning.{Program};
ghost use Rattle.source_commands.specs.Texts.{Means};
ghost use Rattle.source_commands.specs.Evaluated.{IsEvaluated};
ghost use Rattle.limits.specs.declared.text.TheConstants.{LONGEST_TEXT, MAX_TOKENS};

use host_edge::Ending;
use sqlite_items::Items;
use std::alloc::{AllocError, Global};
use tick_tree::{Deny, Token, Tree};
use wellformed::Typed;

/// What an evaluation within so many units of work came to.
#[derive(Drop)]
pub struct Evaluation {
    /// The bytes that the program puts out.
    pub output: Items<u8>,
    /// How it ends, or nothing where it doesn't within these units.
    pub ending: Option<Ending>,
}

/// A parser, a checker and an evaluator. There is one of each, `tick_parser`, `tick_checker` and `evaluate`, which
/// `tick_top` puts here; what stands behind them rests on these contracts alone.
pub trait Language {
    /// The syntax tree of a text of at most 1,048,576 bytes, from its at most 262,144 tokens.
    ///
    /// # Errors
    /// `Refused` exactly for the fault of the first token that is wrong, Syntax or TooDeep, and `NoMemory` where memory
    /// was not found.
    fn parse(alloc: Global, text: &[u8], tokens: &[Token]) -> Result<Tree, Deny>
        requires small { length text.now ≤ LONGEST_TEXT }
        requires few { length tokens.now ≤ MAX_TOKENS }
        ensures exact { Answers (λ tree. tree) result (parsed text.now tokens.now) };

    /// The typed tree of a program.
    ///
    /// # Errors
    /// `Refused` exactly for the first static fault from Undeclared on, and `NoMemory` where memory was not found.
    fn check(alloc: Global, tree: &Tree) -> Result<Typed, Deny>
        ensures { Checks result (checked tree.now) };

    /// What the meaning of a program on an input comes to within so many units of work.
    ///
    /// # Errors
    /// Where memory is wanting.
    fn evaluate(
        alloc: Global,
        tree: &Typed,
        input: &[u8],
        units: u64,
    ) -> Result<Evaluation, AllocError>
        ensures { IfOk result (λ it. (program : Program) → Means tree.now program
            → IsEvaluated units program input.now it) };
}

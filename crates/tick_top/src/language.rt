//! The parser, the checker and the evaluator under the commands on texts.
ghost use Rattle.std.specs.Prelude.{IfOk};
ghost use Rattle.staged_meaning.specs.Meaning.{Program};
ghost use Rattle.source_commands.specs.Texts.{Means};
ghost use Rattle.source_commands.specs.Evaluated.{IsEvaluated};

use source_commands::{Evaluation, Language};
use std::alloc::{AllocError, Global};
use tick_checker::check;
use tick_parser::parse;
use tick_tree::{Deny, Token, Tree};
use wellformed::Typed;

/// Tick C, with the one parser, the one checker and the one evaluator of it.
pub struct TickC;

// What an evaluation came to, without the state that it leaves.
fn evaluate(alloc: Global, tree: &Typed, input: &[u8], units: u64) -> Result<Evaluation, AllocError>
    ensures { IfOk result (λ it. (program : Program) → Means tree.now program
        → IsEvaluated units program input.now it) }
{
    let evaluated = evaluate::evaluate(alloc, tree, input, units)?;
    let output = evaluated.output(alloc)?;
    Ok(Evaluation {
        output,
        ending: evaluated.ending(),
    })
}

impl Language for TickC {
    fn parse(alloc: Global, text: &[u8], tokens: &[Token]) -> Result<Tree, Deny> {
        parse(alloc, text, tokens)
    }

    fn check(alloc: Global, tree: &Tree) -> Result<Typed, Deny> {
        check(alloc, tree)
    }

    fn evaluate(
        alloc: Global,
        tree: &Typed,
        input: &[u8],
        units: u64,
    ) -> Result<Evaluation, AllocError> {
        evaluate(alloc, tree, input, units)
    }
}

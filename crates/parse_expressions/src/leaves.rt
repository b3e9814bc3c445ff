//! Expressions that need no room for nesting.

ghost use Rattle.std.specs.Prelude.{◌≡◌, []};
ghost use Rattle.parse_grammar.specs.Expressions as spec;
ghost use Rattle.parse_grammar.specs.Input.{Reads, and_then, pure};

use lex_literals::append_string;
use parse_grammar::{Kind, Stop, Tokens};
use sqlite_items::Items;
use std::alloc::Global;
use tick_tree::{Expr, Name};

// Parses a name.
pub fn name(alloc: Global, tokens: &mut Tokens<'_>) -> Result<Expr, Stop>
    ensures { Reads (spec.name tokens.old) result tokens.new }
{
    let line = tokens.line();
    let text = Name::new(alloc, tokens.text())?;
    tokens.take();
    Ok(Expr::Name(line, text))
}

#[tactic(auto, unfolding(parse_grammar::specs::Expressions::is_string))]
fn is_string(kind: Kind) -> bool
    ensures { result ≡ spec.is_string kind }
{
    matches!(kind, Kind::String)
}

// Parses the strings that stand next, as one.
#[tactic(auto, using(crate::proofs::Strings::string_steps))]
pub fn string(alloc: Global, tokens: &mut Tokens<'_>) -> Result<Expr, Stop>
    ensures { Reads (and_then (spec.strings [] tokens.old) (λ bytes. pure (Expr.String bytes))) result tokens.new }
{
    let mut found = Vec::new(alloc);
    while is_string(tokens.peek()) {
        append_string(tokens.text(), &mut found)?;
        tokens.take();
    }
    Ok(Expr::String(Items::from_vec(found)))
}

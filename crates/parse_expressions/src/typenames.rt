//! Type names.

ghost use Rattle.std.specs.Prelude.{◌≡◌, ◌<◌};
ghost use Rattle.parse_grammar.specs.Input.{Reads};
ghost use Rattle.parse_grammar.specs.Declarators as declarators;
ghost use Rattle.parse_grammar.specs.Ends.{before};
ghost use Rattle.parse_grammar.specs.Statements.{inner, room_of};

use parse_grammar::{Deeper, Mark, Mode, Stop, Tokens, base, ended};
use sqlite_items::Boxed;
use tick_tree::Typename;

// Parses a type name, and this mark behind it.
#[tactic(auto, unfolding(parse_grammar::specs::Declarators::typename))]
pub(crate) fn typename_before<G: Deeper>(
    grammar: &G,
    tokens: &mut Tokens<'_>,
    room: usize,
    mark: Mark,
) -> Result<Boxed<Typename>, Stop>
    requires nests { G.nests grammar.now }
    requires room { room < G.limit grammar.now }
    ensures { Reads (before mark (declarators.typename (inner (room_of room))) tokens.old) result tokens.new }
{
    let base = base(tokens)?;
    let declarator = grammar.inner_declarator(tokens, room, Mode::Nameless)?;
    let found = Boxed::new(grammar.alloc(), Typename { base, declarator })?;
    ended(tokens, found, mark)
}

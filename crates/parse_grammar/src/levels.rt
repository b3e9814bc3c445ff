//! Steps to the next level of nesting.

ghost use Rattle.std.specs.Prelude.{◌≡◌};
ghost use Rattle.parse_grammar.specs.Nests.{Entered};
ghost use Rattle.parse_grammar.specs.Statements.{room_of};
ghost use Rattle.parse_grammar.specs.Steps as spec;

use crate::kind::Mark;
use crate::stop::Stop;
use crate::tokens::Tokens;

/// Whether one more level may open at the next token; TooDeep exactly where none may.
pub fn descend(tokens: &Tokens<'_>, room: usize) -> Result<(), Stop>
    ensures { Entered (spec.descend (room_of room) tokens.now) room result tokens.now }
{
    if room == 0 {
        return Err(tokens.too_deep());
    }
    Ok(())
}

/// Takes the token that opens a level; TooDeep exactly where none may open.
#[tactic(auto, unfolding(crate::specs::Steps::enter))]
pub fn enter(tokens: &mut Tokens<'_>, room: usize) -> Result<(), Stop>
    ensures { Entered (spec.enter (room_of room) tokens.old) room result tokens.new }
{
    descend(tokens, room)?;
    tokens.take();
    Ok(())
}

/// Takes the `(` that opens a level; Syntax exactly at another token, and then TooDeep exactly where none may open.
#[tactic(auto, unfolding(crate::specs::Steps::enter_paren))]
pub fn enter_paren(tokens: &mut Tokens<'_>, room: usize) -> Result<(), Stop>
    ensures { Entered (spec.enter_paren (room_of room) tokens.old) room result tokens.new }
{
    if !tokens.sees(Mark::ParenOpen) {
        return Err(tokens.refuse());
    }
    enter(tokens, room)
}

//! What a mark ends.

ghost use Rattle.parse_grammar.specs.Ends.{before};
ghost use Rattle.parse_grammar.specs.Input.{Reads, pure};

use crate::kind::Mark;
use crate::stop::Stop;
use crate::tokens::Tokens;

/// What was found, if this mark comes next, which is taken.
pub fn ended<T: Drop>(tokens: &mut Tokens<'_>, found: T, mark: Mark) -> Result<T, Stop>
    ensures { Reads (before mark (pure found) tokens.old) result tokens.new }
{
    tokens.expect(mark)?;
    Ok(found)
}

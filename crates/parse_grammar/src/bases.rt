//! The words that begin a declaration or a type name.

ghost use Rattle.std.specs.Prelude.{◌≡◌, Ok};
ghost use Rattle.parse_grammar.specs.Bases as spec;
ghost use Rattle.parse_grammar.specs.Input.{Reads};

use crate::kind::{BaseWord, Kind};
use crate::stop::Stop;
use crate::tokens::Tokens;
use tick_tree::{Base, Signedness};

/// Whether the kind begins a base.
#[tactic(auto, unfolding(crate::specs::Bases::is_base))]
pub fn is_base(kind: Kind) -> bool
    ensures { result ≡ spec.is_base kind }
{
    matches!(kind, Kind::Base(_))
}

/// Whether the kind is `void`.
#[tactic(auto, unfolding(crate::specs::Bases::is_void))]
pub fn is_void(kind: Kind) -> bool
    ensures { result ≡ spec.is_void kind }
{
    matches!(kind, Kind::Base(BaseWord::Void))
}

#[tactic(auto, unfolding(crate::specs::Bases::eat_int, crate::specs::Bases::is_int))]
fn eat_int(tokens: &mut Tokens<'_>) -> bool
    ensures { spec.eat_int tokens.old ≡ Ok (result, tokens.new) }
{
    let found = matches!(tokens.peek(), Kind::Base(BaseWord::Int));
    if found {
        tokens.take();
    }
    found
}

/// The words that a sign may stand before.
#[tactic(auto, unfolding(crate::specs::Bases::sized))]
fn sized(tokens: &mut Tokens<'_>, sign: Option<Signedness>) -> Result<Base, Stop>
    ensures { Reads (spec.sized sign tokens.old) result tokens.new }
{
    match tokens.peek() {
        Kind::Base(BaseWord::Char) => {
            tokens.take();
            Ok(Base::Char(sign))
        }
        Kind::Base(BaseWord::Short) => {
            tokens.take();
            Ok(Base::Short(sign, eat_int(tokens)))
        }
        Kind::Base(BaseWord::Long) => {
            tokens.take();
            Ok(Base::Long(sign, eat_int(tokens)))
        }
        Kind::Base(BaseWord::Int) => {
            tokens.take();
            Ok(Base::Int(sign))
        }
        _ => match sign {
            None => Err(tokens.refuse()),
            Some(sign) => Ok(Base::Alone(sign)),
        },
    }
}

/// A base.
///
/// Syntax exactly at the first token that no base takes.
#[tactic(auto, unfolding(crate::specs::Bases::base))]
pub fn base(tokens: &mut Tokens<'_>) -> Result<Base, Stop>
    ensures { Reads (spec.base tokens.old) result tokens.new }
{
    match tokens.peek() {
        Kind::Base(BaseWord::Void) => {
            tokens.take();
            Ok(Base::Void)
        }
        Kind::Base(BaseWord::Signed) => {
            tokens.take();
            sized(tokens, Some(Signedness::Signed))
        }
        Kind::Base(BaseWord::Unsigned) => {
            tokens.take();
            sized(tokens, Some(Signedness::Unsigned))
        }
        _ => sized(tokens, None),
    }
}

//! What needs no room for nesting.

ghost use Rattle.std.specs.Prelude.{◌≡◌, []};
ghost use Rattle.parse_grammar.specs.Declarators as spec;
ghost use Rattle.parse_grammar.specs.Input.{Reads};

use parse_grammar::{Kind, Mark, Mode, Stop, Tokens};
use sqlite_items::Items;
use std::alloc::Global;
use tick_tree::{BinaryOp, Prefix};

#[tactic(auto, unfolding(parse_grammar::specs::Declarators::prefix_of))]
fn prefix_of(kind: Kind) -> Option<Prefix>
    ensures { result ≡ spec.prefix_of kind }
{
    match kind {
        Kind::Operator(BinaryOp::Mul) => Some(Prefix::Star),
        Kind::Cspec => Some(Prefix::Cspec),
        Kind::Vspec => Some(Prefix::Vspec),
        _ => None,
    }
}

/// The prefixes that stand next, from left to right.
#[tactic(auto, using(crate::proofs::Steps::prefix_steps))]
pub fn prefixes(alloc: Global, tokens: &mut Tokens<'_>) -> Result<Items<Prefix>, Stop>
    ensures { Reads (spec.prefixes [] tokens.old) result tokens.new }
{
    let mut found = Items::new(alloc);
    while let Some(prefix) = prefix_of(tokens.peek()) {
        tokens.take();
        found.push(prefix)?;
    }
    Ok(found)
}

#[tactic(auto, unfolding(parse_grammar::specs::Declarators::begins_inner))]
fn begins_inner(kind: Kind) -> bool
    ensures { result ≡ spec.begins_inner kind }
{
    matches!(
        kind,
        Kind::Cspec
            | Kind::Vspec
            | Kind::Operator(BinaryOp::Mul)
            | Kind::Mark(Mark::ParenOpen | Mark::BracketOpen)
    )
}

/// Whether a `(` opens an inner declarator, by the kind of the token behind it.
#[tactic(auto, unfolding(parse_grammar::specs::Declarators::opens))]
pub fn opens(mode: Mode, kind: Kind) -> bool
    ensures { result ≡ spec.opens mode kind }
{
    match mode {
        Mode::Named => true,
        Mode::Either => match kind {
            Kind::Name => true,
            _ => begins_inner(kind),
        },
        Mode::Nameless => begins_inner(kind),
    }
}

/// Whether the kind begins a suffix.
#[tactic(auto, unfolding(parse_grammar::specs::Declarators::begins_suffix))]
pub fn begins_suffix(kind: Kind) -> bool
    ensures { result ≡ spec.begins_suffix kind }
{
    matches!(kind, Kind::Mark(Mark::BracketOpen | Mark::ParenOpen))
}

/// Whether the first name among the tokens is followed at once by `(`.
///
/// At the start of a declarator that has a name, this is the declared name, and the `(` that of its parameter list.
#[tactic(auto, unfolding(parse_grammar::specs::Declarators::is_name), using(crate::proofs::Steps::name_steps))]
pub fn declares_function(tokens: &Tokens<'_>) -> bool
    ensures { result ≡ spec.declares_function tokens.now }
{
    let mut rest = tokens.copy();
    while rest.left() > 0 {
        let found = matches!(rest.peek(), Kind::Name);
        rest.take();
        if found {
            return rest.sees(Mark::ParenOpen);
        }
    }
    false
}

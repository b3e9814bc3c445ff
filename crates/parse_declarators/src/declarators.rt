//! Declarators and type names. Why their loops count their turns is said at `Tokens::left`.

ghost use Rattle.std.specs.Prelude.{◌≡◌, ◌<◌, ◌≤◌};
ghost use Rattle.parse_grammar.specs.Input.{Reads};
ghost use Rattle.parse_grammar.specs.Steps as steps;
ghost use Rattle.parse_grammar.specs.Declarators as spec;
ghost use Rattle.parse_grammar.specs.Statements.{inner, room_of};

use crate::lists::{begins_suffix, opens, prefixes};
use parse_grammar::{Deeper, Kind, Mark, Mode, Part, Stop, Tokens, base, ended, enter, is_void};
use sqlite_items::{Boxed, Items};
use tick_tree::{Core, Declarator, Name, OptionalExpr, Parameter, Prefix, Suffix};

fn parenthesized<G: Deeper>(
    grammar: &G,
    tokens: &mut Tokens<'_>,
    room: usize,
    mode: Mode,
) -> Result<Core, Stop>
    requires nests { G.nests grammar.now }
    requires room { room ≤ G.limit grammar.now }
    ensures { Reads (spec.inner_declarator mode (room_of room) tokens.old) result tokens.new }
{
    enter(tokens, room)?;
    let found = grammar.inner_declarator(tokens, room - 1, mode)?;
    let inner = Boxed::new(grammar.alloc(), found)?;
    ended(tokens, Core::Paren(inner), Mark::ParenClose)
}

#[tactic(auto, unfolding(parse_grammar::specs::Declarators::core))]
fn core<G: Deeper>(
    grammar: &G,
    tokens: &mut Tokens<'_>,
    room: usize,
    mode: Mode,
) -> Result<Core, Stop>
    requires nests { G.nests grammar.now }
    requires room { room ≤ G.limit grammar.now }
    ensures { Reads (spec.core mode (room_of room) tokens.old) result tokens.new }
{
    match (mode, tokens.peek()) {
        (Mode::Nameless, Kind::Name) => Ok(Core::Absent),
        (_, Kind::Name) => {
            let line = tokens.line();
            let name = Name::new(grammar.alloc(), tokens.text())?;
            tokens.take();
            Ok(Core::Name(line, name))
        }
        (_, Kind::Mark(Mark::ParenOpen)) if opens(mode, tokens.peek_second()) => {
            parenthesized(grammar, tokens, room, mode)
        }
        (Mode::Named, _) => Err(tokens.refuse()),
        _ => Ok(Core::Absent),
    }
}

#[tactic(auto, unfolding(parse_grammar::specs::Declarators::parameter))]
fn parameter<G: Deeper>(
    grammar: &G,
    tokens: &mut Tokens<'_>,
    room: usize,
) -> Result<Parameter, Stop>
    requires nests { G.nests grammar.now }
    requires room { room < G.limit grammar.now }
    ensures { Reads (spec.parameter (inner (room_of room)) tokens.old) result tokens.new }
{
    let line = tokens.line();
    let base = base(tokens)?;
    let declarator = grammar.inner_declarator(tokens, room, Mode::Either)?;
    Ok(Parameter {
        line,
        base,
        declarator,
    })
}

#[tactic(auto, unfolding(parse_grammar::specs::Steps::separated, parse_grammar::specs::Steps::following_from))]
fn separated<G: Deeper>(
    grammar: &G,
    tokens: &mut Tokens<'_>,
    room: usize,
) -> Result<Items<Parameter>, Stop>
    requires nests { G.nests grammar.now }
    requires room { room < G.limit grammar.now }
    ensures { Reads (steps.separated (spec.parameter (inner (room_of room))) tokens.old) result tokens.new }
{
    let mut found = Items::new(grammar.alloc());
    found.push(parameter(grammar, tokens, room)?)?;
    for _turn in 0..tokens.left() {
        if !tokens.eat(Mark::Comma) {
            return Ok(found);
        }
        found.push(parameter(grammar, tokens, room)?)?;
    }
    Ok(found)
}

// Parses a suffix of a declarator: the length of an array in its brackets, or a list of parameters.
#[tactic(auto, unfolding(parse_grammar::specs::Declarators::suffix, parse_grammar::specs::Declarators::array, parse_grammar::specs::Declarators::list, parse_grammar::specs::Declarators::parameters))]
fn suffix<G: Deeper>(grammar: &G, tokens: &mut Tokens<'_>, room: usize) -> Result<Suffix, Stop>
    requires nests { G.nests grammar.now }
    requires room { room ≤ G.limit grammar.now }
    ensures { Reads (spec.suffix (room_of room) tokens.old) result tokens.new }
{
    if tokens.sees(Mark::BracketOpen) {
        enter(tokens, room)?;
        if tokens.eat(Mark::BracketClose) {
            return Ok(Suffix::Array(OptionalExpr::Absent));
        }
        let length = grammar.inner(tokens, room - 1, Part::Cond)?;
        let found = Suffix::Array(OptionalExpr::Present(length));
        return ended(tokens, found, Mark::BracketClose);
    }
    enter(tokens, room)?;
    if tokens.eat(Mark::ParenClose) {
        return Ok(Suffix::Unlisted);
    }
    if is_void(tokens.peek()) && tokens.second_is(Mark::ParenClose) {
        tokens.take();
        tokens.take();
        return Ok(Suffix::Nothing);
    }
    let found = separated(grammar, tokens, room - 1)?;
    ended(tokens, Suffix::Listed(found), Mark::ParenClose)
}

#[tactic(auto, unfolding(parse_grammar::specs::Declarators::suffixes, parse_grammar::specs::Steps::many, parse_grammar::specs::Steps::many_from))]
fn suffixes<G: Deeper>(
    grammar: &G,
    tokens: &mut Tokens<'_>,
    room: usize,
) -> Result<Items<Suffix>, Stop>
    requires nests { G.nests grammar.now }
    requires room { room ≤ G.limit grammar.now }
    ensures { Reads (spec.suffixes (room_of room) tokens.old) result tokens.new }
{
    let mut found = Items::new(grammar.alloc());
    for _turn in 0..tokens.left() {
        if !begins_suffix(tokens.peek()) {
            return Ok(found);
        }
        found.push(suffix(grammar, tokens, room)?)?;
    }
    Ok(found)
}

/// A declarator, with a name or without as the mode says.
///
/// Syntax or TooDeep exactly at the first token that no declarator takes, or that nests too deep.
pub fn declarator<G: Deeper>(
    grammar: &G,
    tokens: &mut Tokens<'_>,
    room: usize,
    mode: Mode,
) -> Result<Declarator, Stop>
    requires nests { G.nests grammar.now }
    requires room { room ≤ G.limit grammar.now }
    ensures { Reads (spec.declarator mode (room_of room) tokens.old) result tokens.new }
{
    let prefixes = prefixes(grammar.alloc(), tokens)?;
    let core = core(grammar, tokens, room, mode)?;
    let suffixes = suffixes(grammar, tokens, room)?;
    Ok(Declarator {
        prefixes,
        core,
        suffixes,
    })
}

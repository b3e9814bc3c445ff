//! Declarations. Why their loops count their turns is said at `Tokens::left`.

ghost use Rattle.std.specs.Prelude.{◌≡◌, ◌<◌, ◌≤◌, [], ◌∷◌};
ghost use Rattle.parse_grammar.specs.Input.{Reads};
ghost use Rattle.parse_grammar.specs.Steps as steps;
ghost use Rattle.parse_grammar.specs.Expressions.{assign};
ghost use Rattle.parse_grammar.specs.Statements as spec;
ghost use Rattle.parse_grammar.specs.Statements.{room_of};

use parse_declarators::declarator;
use parse_expressions::assign;
use parse_grammar::{Deeper, Mark, Mode, Part, Stop, Tokens, base, ended, enter};
use sqlite_items::Items;
use tick_tree::{Declaration, Init, Initializer};

// Parses the elements of a list in braces, from behind its opening brace to its closing one, which it takes too.
#[tactic(auto, unfolding(parse_grammar::specs::Statements::elements, parse_grammar::specs::Statements::elements_from))]
fn elements<G: Deeper>(
    grammar: &G,
    tokens: &mut Tokens<'_>,
    room: usize,
) -> Result<Initializer, Stop>
    requires nests { G.nests grammar.now }
    requires room { room < G.limit grammar.now }
    ensures { Reads (spec.elements (assign (room_of room)) tokens.old) result tokens.new }
{
    let mut found = Items::new(grammar.alloc());
    for _turn in 0..tokens.left() {
        found.push(grammar.inner(tokens, room, Part::Assign)?)?;
        let comma = tokens.eat(Mark::Comma);
        if tokens.eat(Mark::BraceClose) {
            return Ok(Initializer::List(found, comma));
        }
        if !comma {
            return Err(tokens.refuse());
        }
    }
    Err(tokens.refuse())
}

#[tactic(auto, unfolding(parse_grammar::specs::Statements::initializer, parse_grammar::specs::Statements::initial))]
pub(crate) fn initializer<G: Deeper>(
    grammar: &G,
    tokens: &mut Tokens<'_>,
    room: usize,
) -> Result<Initializer, Stop>
    requires nests { G.nests grammar.now }
    requires room { room ≤ G.limit grammar.now }
    ensures { Reads (spec.initializer (room_of room) tokens.old) result tokens.new }
{
    if !tokens.eat(Mark::Assign) {
        return Ok(Initializer::Absent);
    }
    if tokens.sees(Mark::BraceOpen) {
        enter(tokens, room)?;
        return elements(grammar, tokens, room - 1);
    }
    Ok(Initializer::Value(assign(grammar, tokens, room)?))
}

#[tactic(auto, unfolding(parse_grammar::specs::Statements::init))]
fn init<G: Deeper>(grammar: &G, tokens: &mut Tokens<'_>, room: usize) -> Result<Init, Stop>
    requires nests { G.nests grammar.now }
    requires room { room ≤ G.limit grammar.now }
    ensures { Reads (spec.init (room_of room) tokens.old) result tokens.new }
{
    let declarator = declarator(grammar, tokens, room, Mode::Named)?;
    let value = initializer(grammar, tokens, room)?;
    Ok(Init { declarator, value })
}

// Parses the declarators of a declaration that follow the first, each behind a comma.
#[tactic(auto, unfolding(parse_grammar::specs::Steps::following_from))]
pub(crate) fn following<G: Deeper>(
    grammar: &G,
    tokens: &mut Tokens<'_>,
    room: usize,
    first: Init,
) -> Result<Items<Init>, Stop>
    requires nests { G.nests grammar.now }
    requires room { room ≤ G.limit grammar.now }
    ensures { Reads (steps.following (spec.init (room_of room)) (first ∷ []) tokens.old) result tokens.new }
{
    let mut found = Items::new(grammar.alloc());
    found.push(first)?;
    for _turn in 0..tokens.left() {
        if !tokens.eat(Mark::Comma) {
            return Ok(found);
        }
        found.push(init(grammar, tokens, room)?)?;
    }
    Ok(found)
}

/// A declaration: a base and its declarators, with their initializers and the `;`.
///
/// Syntax or TooDeep exactly at the first token that the production doesn't take, or that nests too deep.
#[tactic(auto, unfolding(parse_grammar::specs::Statements::declaration, parse_grammar::specs::Steps::separated))]
pub(crate) fn declaration<G: Deeper>(
    grammar: &G,
    tokens: &mut Tokens<'_>,
    room: usize,
) -> Result<Declaration, Stop>
    requires nests { G.nests grammar.now }
    requires room { room ≤ G.limit grammar.now }
    ensures { Reads (spec.declaration (room_of room) tokens.old) result tokens.new }
{
    let line = tokens.line();
    let base = base(tokens)?;
    let first = init(grammar, tokens, room)?;
    let inits = following(grammar, tokens, room, first)?;
    ended(tokens, Declaration { line, base, inits }, Mark::Semicolon)
}

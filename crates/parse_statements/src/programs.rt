//! Programs. Why their loops count their turns is said at `Tokens::left`.

ghost use Rattle.std.specs.Prelude.{◌≡◌, ◌≤◌};
ghost use Rattle.parse_grammar.specs.Input.{Reads};
ghost use Rattle.parse_grammar.specs.Statements as spec;
ghost use Rattle.parse_grammar.specs.Statements.{room_of};

use crate::declarations::{following, initializer};
use parse_declarators::{declarator, declares_function};
use parse_expressions::block;
use parse_grammar::{Deeper, Mark, Mode, Stop, Tokens, base, ended};
use sqlite_items::Items;
use tick_tree::{Base, Declaration, Declarator, External, Init};

// Whether the text ends.
#[tactic(auto, using(crate::proofs::Ends::at_end_is))]
fn is_at_end(tokens: &Tokens<'_>) -> bool
    ensures { result ≡ spec.at_end tokens.now }
{
    tokens.left() == 0
}

// Parses the rest of a declaration of variables, from behind its first declarator on.
#[tactic(auto, unfolding(parse_grammar::specs::Statements::variables))]
fn variables<G: Deeper>(
    grammar: &G,
    tokens: &mut Tokens<'_>,
    room: usize,
    line: u32,
    base: Base,
    declarator: Declarator,
) -> Result<External, Stop>
    requires nests { G.nests grammar.now }
    requires room { room ≤ G.limit grammar.now }
    ensures { Reads (spec.variables (room_of room) line base declarator tokens.old) result tokens.new }
{
    let value = initializer(grammar, tokens, room)?;
    let inits = following(grammar, tokens, room, Init { declarator, value })?;
    let found = External::Declaration(Declaration { line, base, inits });
    ended(tokens, found, Mark::Semicolon)
}

// Parses an item of a program: a declaration or a function.
#[tactic(auto, unfolding(parse_grammar::specs::Statements::external, parse_grammar::specs::Statements::first_declared))]
fn external<G: Deeper>(grammar: &G, tokens: &mut Tokens<'_>, room: usize) -> Result<External, Stop>
    requires nests { G.nests grammar.now }
    requires room { room ≤ G.limit grammar.now }
    ensures { Reads (spec.external (room_of room) tokens.old) result tokens.new }
{
    let line = tokens.line();
    let base = base(tokens)?;
    if tokens.eat(Mark::Semicolon) {
        let inits = Items::new(grammar.alloc());
        return Ok(External::Declaration(Declaration { line, base, inits }));
    }
    let is_function = declares_function(tokens);
    let declarator = declarator(grammar, tokens, room, Mode::Named)?;
    if is_function && tokens.sees(Mark::BraceOpen) {
        let items = block(grammar, tokens, room)?;
        return Ok(External::Function(line, base, declarator, items));
    }
    variables(grammar, tokens, room, line, base, declarator)
}

/// The items of a program, up to the end of the text.
///
/// Syntax or TooDeep exactly at the first token that no program takes, or that nests too deep.
#[tactic(auto, unfolding(parse_grammar::specs::Statements::program, parse_grammar::specs::Statements::program_from))]
pub fn program<G: Deeper>(
    grammar: &G,
    tokens: &mut Tokens<'_>,
    room: usize,
) -> Result<Items<External>, Stop>
    requires nests { G.nests grammar.now }
    requires room { room ≤ G.limit grammar.now }
    ensures { Reads (spec.program (room_of room) tokens.old) result tokens.new }
{
    let mut found = Items::new(grammar.alloc());
    for _turn in 0..tokens.left() {
        if is_at_end(tokens) {
            return Ok(found);
        }
        found.push(external(grammar, tokens, room)?)?;
    }
    if is_at_end(tokens) {
        Ok(found)
    } else {
        Err(tokens.refuse())
    }
}

//! Numbers, characters and strings.

ghost use Rattle.std.specs.Prelude.{◌≡◌, Ok};
ghost use Rattle.check_rules.specs.Names.{Gives};
ghost use Rattle.check_rules.specs.Productions as productions;
ghost use Rattle.check_operands.specs.Operands as operands;
ghost use Rattle.check_rules.specs.Walks.{Reads};
ghost use Rattle.tick_tree.specs.Faults.{Checks};

use check_nodes::{character, number};
use check_operands::Operand;
use check_rules::State;
use std::alloc::{AllocError, Global};
use tick_tree::Deny;

/// A number.
pub fn number_leaf(alloc: Global, n: u32, unsigned: bool) -> Result<Operand, Deny>
    ensures { Checks result (Ok (operands.number n unsigned)) }
{
    Ok(number(alloc, n, unsigned)?)
}

/// A character literal.
pub fn character_leaf(alloc: Global, n: u32) -> Result<Operand, Deny>
    ensures { Checks result (Ok (operands.character n)) }
{
    Ok(character(alloc, n)?)
}

/// A string.
pub fn string_leaf(alloc: Global, state: &mut State, bytes: &[u8]) -> Result<Operand, Deny>
    ensures { Reads (Ok (productions.string_node bytes.now state.old)) result state.new }
{
    Ok(string_node(alloc, state, bytes)?)
}

// Makes the node of a string, which takes its place behind the strings so far.
fn string_node(alloc: Global, state: &mut State, bytes: &[u8]) -> Result<Operand, AllocError>
    ensures { Gives result state.new (productions.string_node bytes.now state.old) }
{
    let address = state.image.string(alloc, bytes)?;
    check_nodes::string(alloc, address)
}

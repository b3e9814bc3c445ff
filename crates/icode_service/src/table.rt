//! The services that change the arena and the function table alone.

ghost use Rattle.std.specs.Prelude.{◌≡◌};
ghost use Rattle.code_arena.specs.Kept.{arena_of, rows_of};
ghost use Rattle.mips_model.specs.CodeServices as services;
ghost use Rattle.mips_model.specs.CodeServices.{Generator, Rows};
ghost use Rattle.icode_service.specs.Served.{Did};
ghost use Rattle.code_arena.specs.Arena.{Arena};

use code_arena::{CodeArena, FunctionRows};
use limits::program::MOST_ARGUMENTS;
use mips_model::BadService;
use word32::map;

/// Whether so many words from an address on are in the arena, and the address is that of one.
pub(crate) fn is_arena_range(at: u32, count: u32) -> bool
    ensures { result ≡ services.is_arena_range at count }
{
    at % 4 == 0
        && at >= map::ARENA
        && at < map::ARENA + map::ARENA_BYTES
        && u64::from(at) + 4 * u64::from(count) <= u64::from(map::ARENA + map::ARENA_BYTES)
}

// Whether the function table has the row, and may hold this address and count in it.
fn is_entry(row: u32, at: u32, count: u32) -> bool
    ensures { result ≡ services.is_entry row at count }
{
    row > 0
        && row < map::FUNCTION_ROWS
        && at % 4 == 0
        && at >= map::TEXT
        && at < map::ARENA + map::ARENA_BYTES
        && count <= MOST_ARGUMENTS
}

/// Flushes so many words from an address on, and answers 0.
pub fn flush(arena: &mut CodeArena, at: u32, count: u32) -> Result<u32, BadService>
    ensures { (g : Generator) (r : Rows) →
        Did (services.flush at count g) g g (arena_of arena.old) (arena_of arena.new) r r result }
{
    if is_arena_range(at, count) {
        arena.flush(at / 4 - map::ARENA / 4, count);
        Ok(0)
    } else {
        Err(BadService::OutsideArena)
    }
}

/// Publishes the function at an address, of so many parameters, as a row of the function table, and answers 0.
pub fn publish(rows: &mut FunctionRows, row: u32, at: u32, count: u32) -> Result<u32, BadService>
    ensures { (g : Generator) (a : Arena) →
        Did (services.publish row at count g) g g a a (rows_of rows.old) (rows_of rows.new) result }
{
    if is_entry(row, at, count) {
        rows.set(row, at, count);
        Ok(0)
    } else {
        Err(BadService::BadRow)
    }
}

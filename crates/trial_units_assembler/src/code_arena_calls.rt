//! An arena and a table with ample room, each call once.

ghost use Rattle.std.specs.Prelude.{◌<◌};
ghost use Rattle.word32.specs.declared.map.TheConstants.{ARENA_WORDS};

use code_arena::{CodeArena, FunctionRows};
use std::alloc::{AllocError, Global};
use word32::map;

// The word of the arena that is executed there, or None where it is stale.
fn fetched(arena: &CodeArena, at: u32) -> Option<u32>
    requires { at < ARENA_WORDS }
{
    arena.fetch(at).ok()
}

// Whether the word 7 is executed once it is flushed, and neither as it was at first nor as it is written, and of its
// neighbours the one that is flushed with it; and words are read unflushed, as they are written.
fn words_are_flushed_before_they_run(alloc: Global) -> Result<bool, AllocError> {
    let mut arena = CodeArena::new(alloc)?;
    let last = arena.read(map::ARENA_WORDS - 1);
    let fresh = fetched(&arena, 7);
    arena.write(7, 0x03e0_0008);
    let written = fetched(&arena, 7);
    arena.flush(6, 2);
    let before = fetched(&arena, 6);
    let flushed = fetched(&arena, 7);
    let behind = fetched(&arena, 8);
    arena.write(7, 5);
    let again = fetched(&arena, 7);
    let read = [last, arena.read(7)];
    drop(arena);
    let found = [fresh, written, before, flushed, behind, again];
    Ok(found == [None, None, Some(0), Some(0x03e0_0008), None, None] && read == [0, 5])
}

const UNPUBLISHED: (u32, u32) = (0, 0xffff_ffff);

// Whether all rows are unpublished at first.
fn rows_are_unpublished(alloc: Global) -> Result<bool, AllocError> {
    let mut rows = FunctionRows::new(alloc)?;
    let last = rows.get(map::FUNCTION_ROWS - 1);
    rows.set(3, 0x0400_0000, 2);
    let found = [last, rows.get(3), rows.get(4)];
    drop(rows);
    Ok(found == [UNPUBLISHED, (0x0400_0000, 2), UNPUBLISHED])
}

#[test]
fn words_and_rows_are_as_they_were_set(rt: HostRuntime) {
    let are_so = [
        words_are_flushed_before_they_run(rt.alloc()),
        rows_are_unpublished(rt.alloc()),
    ];
    assert!(rt; are_so == [Ok(true), Ok(true)]);
}

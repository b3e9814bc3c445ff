//! Words that are written into the arena.

ghost use Rattle.std.specs.Prelude.{◌≡◌, ◌+◌, ◌≤◌, length};
ghost use Rattle.word32.specs.declared.map.TheConstants.{ARENA_WORDS};
ghost use Rattle.code_arena.specs.Kept.{arena_of};
ghost use Rattle.mips_model.specs.CodeServices.{written_from};

use code_arena::CodeArena;

/// Writes words one behind another, from word `first` of the arena on.
pub(crate) fn write_words(arena: &mut CodeArena, first: u32, words: &[u32])
    requires { first + length words.now ≤ ARENA_WORDS }
    ensures { arena_of arena.new ≡ written_from first words.now (arena_of arena.old) }
{
    let mut at = first;
    for word in words {
        arena.write(at, *word);
        at += 1;
    }
}

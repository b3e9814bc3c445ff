//! The words of the arena, and whether each is written and flushed.

ghost use Rattle.std.specs.Prelude.{◌≡◌, ◌+◌, ℕ, ◌<◌, ◌≤◌, IfOk, Ok, Err, length, slice_index, slice_index_or, nat_le};
ghost use Rattle.std.specs.Prelude.{nat_lt, ◌&&◌, if◌then◌else◌};
ghost use Rattle.word32.specs.declared.map.TheConstants.{ARENA_WORDS};
ghost use Rattle.code_arena.specs.Arena as spec;
ghost use Rattle.code_arena.specs.Kept.{arena_of};

use std::alloc::{AllocError, Global};
use std::marker::Model;
use thiserror::Error;
use word32::map;

/// What was done to a word of the arena last.
#[derive(Clone, Copy)]
pub enum WordState {
    /// Nothing: the word is 0.
    Unwritten,
    /// It was written, and not flushed since.
    Written,
    /// It was flushed, and not written since.
    Flushed,
}

/// The word isn't flushed, so it can't be executed.
#[derive(Clone, Copy, Debug, PartialEq, Eq, Drop, Error)]
#[error("a word of the arena isn't flushed")]
pub struct Stale;

/// The arena: `ARENA_WORDS` words, by their numbers from 0.
pub struct CodeArena {
    words: Vec<u32>,
    states: Vec<WordState>,
}

impl Drop for CodeArena {
    fn drop(self) {
        let CodeArena {
            words: _,
            states: _,
        } = self;
    }
}

impl Model for CodeArena {
    ghost use Rattle.code_arena.specs.Kept.{Kept, Sized};

    ghost Value = { Kept };

    ghost view = { λ a. record { words = a.words.items; states = a.states.items } };

    ghost invariant = { λ a. Sized (record { words = a.words.items; states = a.states.items }) };
}

/// So many words that are 0.
fn zero_words(alloc: Global, count: usize) -> Result<Vec<u32>, AllocError>
    ensures length { IfOk result (λ v. length v.items ≡ count) }
    ensures zero { IfOk result (λ v. (i : ℕ) → slice_index v.items i ≡ 0) }
{
    vec![in alloc; 0; count]
}

/// The states of so many unwritten words.
fn unwritten(alloc: Global, count: usize) -> Result<Vec<WordState>, AllocError>
    ensures length { IfOk result (λ v. length v.items ≡ count) }
    ensures unwritten { IfOk result
        (λ v. (i : ℕ) → slice_index_or v.items i WordState.Unwritten ≡ WordState.Unwritten) }
{
    vec![in alloc; WordState::Unwritten; count]
}

/// Makes all words 0. It takes no memory.
fn clear(words: &mut Vec<u32>)
    ensures length { length words.new.items ≡ length words.old.items }
    ensures zero { (i : ℕ) → slice_index words.new.items i ≡ 0 }
{
    let count = words.len();
    words.clear();
    let _ = words.resize(count, 0);
}

/// Makes all states those of unwritten words. It takes no memory.
fn forget(states: &mut Vec<WordState>)
    ensures length { length states.new.items ≡ length states.old.items }
    ensures unwritten { (i : ℕ) → slice_index_or states.new.items i WordState.Unwritten ≡ WordState.Unwritten }
{
    let count = states.len();
    states.clear();
    let _ = states.resize(count, WordState::Unwritten);
}

/// Marks so many words as flushed.
fn mark_flushed(states: &mut [WordState], from: usize, count: usize)
    requires { from + count ≤ length states.old }
    ensures { (j : ℕ) → slice_index_or states.new j WordState.Unwritten
        ≡ spec.flushed_state from count j (slice_index_or states.old j WordState.Unwritten) }
{
    for i in from..from + count {
        states[i] = WordState::Flushed;
    }
}

impl CodeArena {
    /// An arena of unwritten words, which are 0. It takes all the memory that it ever needs.
    ///
    /// # Errors
    /// Where memory is wanting; nothing was made then.
    pub fn new(alloc: Global) -> Result<Self, AllocError>
        ensures { IfOk result (λ a. arena_of a ≡ spec.first) }
    {
        Ok(CodeArena {
            words: zero_words(alloc, map::ARENA_WORDS as usize)?,
            states: unwritten(alloc, map::ARENA_WORDS as usize)?,
        })
    }

    /// Makes all words 0 and unwritten, as in a new arena. It takes no memory.
    pub fn reset(&mut self)
        ensures { arena_of self.new ≡ spec.first }
    {
        clear(&mut self.words);
        forget(&mut self.states);
    }

    /// Writes word i, which is then written and not flushed.
    #[inline]
    pub fn write(&mut self, i: u32, w: u32)
        requires { i < ARENA_WORDS }
        ensures { arena_of self.new ≡ spec.written i w (arena_of self.old) }
    {
        self.words[i as usize] = w;
        self.states[i as usize] = WordState::Written;
    }

    /// Flushes `count` words from word `first` on, unwritten ones too.
    pub fn flush(&mut self, first: u32, count: u32)
        requires { first + count ≤ ARENA_WORDS }
        ensures { arena_of self.new ≡ spec.flushed first count (arena_of self.old) }
    {
        mark_flushed(&mut self.states, first as usize, count as usize);
    }

    /// Word i, whatever its state.
    #[inline(always)]
    pub fn read(&self, i: u32) -> u32
        requires { i < ARENA_WORDS }
        ensures { result ≡ (arena_of self.now).words i }
    {
        self.words[i as usize]
    }

    /// Word i, to be executed.
    ///
    /// # Errors
    /// `Stale` exactly where the word isn't flushed.
    #[inline(always)]
    pub fn fetch(&self, i: u32) -> Result<u32, Stale>
        requires { i < ARENA_WORDS }
        ensures { result ≡ spec.fetch i (arena_of self.now) }
    {
        match self.states[i as usize] {
            WordState::Flushed => Ok(self.words[i as usize]),
            WordState::Written | WordState::Unwritten => Err(Stale),
        }
    }
}

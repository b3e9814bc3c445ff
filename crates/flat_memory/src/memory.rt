//! Memory by regions: a vector of words for each.

ghost use Rattle.std.specs.Prelude.{◌≡◌, ◌+◌, ◌*◌, ◌/◌, ◌%◌, ◌-◌, ℕ, ◌<◌, ◌≤◌, true, false, length, slice_index};
ghost use Rattle.std.specs.Prelude.{MatchResult, IfOk, IfSome, Ok, Err};
ghost use Rattle.word32.specs.Space.{words_from, bytes_from};
ghost use Rattle.word32.specs.Space as space;
ghost use Rattle.word32.specs.Parts as parts;
ghost use Rattle.word32.specs.declared.map.TheConstants.{ARENA, GLOBAL_BYTES, TEXT_WORDS};
ghost use Rattle.flat_memory.specs.Map as maps;
ghost use Rattle.flat_memory.specs.Spaces as spaces;
ghost use Rattle.flat_memory.specs.Regions.{spaces_of};

use crate::access::Access;
use crate::initial::{clear, make_room, object_words, refill, replace, zero_words};
use std::alloc::{AllocError, Global};
use std::marker::Model;
use word32::{Width, is_aligned, loaded_part, map, stored_part};

/// The memory of a machine, but for the arena and the function table.
pub struct Memory {
    text: Vec<u32>,
    objects: Vec<u32>,
    closures: Vec<u32>,
    spec_rows: Vec<u32>,
    cells: Vec<u32>,
    emit_stack: Vec<u32>,
    stack: Vec<u32>,
}

impl Drop for Memory {
    fn drop(self) {
        let Memory {
            text: _,
            objects: _,
            closures: _,
            spec_rows: _,
            cells: _,
            emit_stack: _,
            stack: _,
        } = self;
    }
}

impl Model for Memory {
    ghost use Rattle.flat_memory.specs.Regions.{Regions, Sized};

    ghost Value = { Regions };

    ghost view = { λ m. record {
      text = m.text.items;
      objects = m.objects.items;
      closures = m.closures.items;
      spec_rows = m.spec_rows.items;
      cells = m.cells.items;
      emit_stack = m.emit_stack.items;
      stack = m.stack.items;
    } };

    ghost invariant = { λ m. Sized (record {
      text = m.text.items;
      objects = m.objects.items;
      closures = m.closures.items;
      spec_rows = m.spec_rows.items;
      cells = m.cells.items;
      emit_stack = m.emit_stack.items;
      stack = m.stack.items;
    }) };
}

/// Whether the region from `first` on, of so many bytes, has this address.
#[inline(always)]
fn is_within(first: u32, bytes: u32, at: u32) -> bool
    requires { first + bytes < 4294967296 }
    ensures { result ≡ maps.is_within first bytes at }
{
    at >= first && at < first + bytes
}

/// The word of a region that holds the byte at an address; `first` is where the region begins.
#[inline(always)]
fn word(words: &[u32], first: u32, at: u32) -> u32
    requires from { first ≤ at }
    requires to { at < first + 4 * length words.now }
    requires even { first % 4 ≡ 0 }
    ensures { result ≡ words_from (first / 4) words.now (at / 4) }
{
    words[(at / 4 - first / 4) as usize]
}

/// Stores in a region that begins at `first`.
#[inline(always)]
fn put(words: &mut [u32], first: u32, at: u32, width: Width, w: u32) -> Result<(), Access>
    requires from { first ≤ at }
    requires to { at < first + 4 * length words.old }
    requires even { first % 4 ≡ 0 }
    ensures { MatchResult result
        (λ _. (parts.is_aligned at width ≡ true)
        × (words_from (first / 4) words.new ≡ space.store at width w (words_from (first / 4) words.old)))
        (λ e. (parts.is_aligned at width ≡ false) × (e ≡ Access.Misaligned) × (words.new ≡ words.old)) }
{
    if !is_aligned(at, width) {
        return Err(Access::Misaligned);
    }
    let i = (at / 4 - first / 4) as usize;
    words[i] = stored_part(words[i], at, width, w);
    Ok(())
}

impl Memory {
    /// The memory with which a machine starts: this text, the objects beginning with these bytes (the most significant
    /// byte of each word first), and 0 elsewhere. It takes all the memory that it ever needs.
    ///
    /// # Errors
    /// Where memory is wanting; nothing was made then.
    pub fn new(alloc: Global, text: &[u32], bytes: &[u8]) -> Result<Self, AllocError>
        requires text_fits { length text.now ≤ TEXT_WORDS }
        requires bytes_fit { length bytes.now ≤ GLOBAL_BYTES }
        ensures { IfOk result (λ m. spaces_of m ≡ spaces.first text.now bytes.now) }
    {
        let mut words = Vec::new(alloc);
        words.extend_from_slice(text)?;
        Ok(Memory {
            text: words,
            objects: object_words(alloc, bytes)?,
            closures: zero_words(alloc, (map::CLOSURE_BYTES / 4) as usize)?,
            spec_rows: zero_words(alloc, (map::SPEC_ROW_BYTES / 4) as usize)?,
            cells: zero_words(alloc, (map::CELL_BYTES / 4) as usize)?,
            emit_stack: zero_words(alloc, (map::EMIT_STACK_BYTES / 4) as usize)?,
            stack: zero_words(alloc, (map::STACK_BYTES / 4) as usize)?,
        })
    }

    /// Begins anew with another text and other bytes, as `new` says, in the memory that it has.
    ///
    /// # Errors
    /// Where memory is wanting for the text; all is as it was then.
    pub fn reset(&mut self, text: &[u32], bytes: &[u8]) -> Result<(), AllocError>
        requires text_fits { length text.now ≤ TEXT_WORDS }
        requires bytes_fit { length bytes.now ≤ GLOBAL_BYTES }
        ensures { MatchResult result
            (λ _. spaces_of self.new ≡ spaces.first text.now bytes.now)
            (λ _. self.new ≡ self.old) }
    {
        make_room(&mut self.text, text.len())?;
        replace(&mut self.text, text);
        refill(&mut self.objects, bytes);
        clear(&mut self.closures);
        clear(&mut self.spec_rows);
        clear(&mut self.cells);
        clear(&mut self.emit_stack);
        clear(&mut self.stack);
        Ok(())
    }

    /// The word of the text that holds the byte at an address.
    #[inline(always)]
    fn text_word(&self, at: u32) -> Option<u32>
        ensures { result ≡ (spaces_of self.now).text (at / 4) }
    {
        let i = (at / 4).wrapping_sub(map::TEXT / 4) as usize;
        if i < self.text.len() {
            Some(self.text[i])
        } else {
            None
        }
    }

    /// The word that holds the byte at an address, where a region has it.
    #[inline(always)]
    fn word_at(&self, at: u32) -> Option<u32>
        ensures { result ≡ spaces.word_at (spaces_of self.now) at }
    {
        if is_within(map::STACK, map::STACK_BYTES, at) {
            return Some(word(&self.stack, map::STACK, at));
        }
        if is_within(map::OBJECTS, map::OBJECT_BYTES, at) {
            return Some(word(&self.objects, map::OBJECTS, at));
        }
        if is_within(map::CELLS, map::CELL_BYTES, at) {
            return Some(word(&self.cells, map::CELLS, at));
        }
        if is_within(map::CLOSURES, map::CLOSURE_BYTES, at) {
            return Some(word(&self.closures, map::CLOSURES, at));
        }
        if is_within(map::SPEC_ROWS, map::SPEC_ROW_BYTES, at) {
            return Some(word(&self.spec_rows, map::SPEC_ROWS, at));
        }
        if is_within(map::EMIT_STACK, map::EMIT_STACK_BYTES, at) {
            return Some(word(&self.emit_stack, map::EMIT_STACK, at));
        }
        if is_within(map::TEXT, map::TEXT_BYTES, at) {
            return self.text_word(at);
        }
        None
    }

    /// What an access at an address loads: a byte, two or four, widened to a word as the width says.
    ///
    /// # Errors
    /// `Outside` exactly where the address lies in no region of this memory, else `Misaligned` exactly where it is no
    /// multiple of the width's size.
    #[inline(always)]
    pub fn load(&self, at: u32, width: Width) -> Result<u32, Access>
        ensures { result ≡ spaces.load (spaces_of self.now) at width }
    {
        match self.word_at(at) {
            Some(word) => {
                if is_aligned(at, width) {
                    Ok(loaded_part(word, at, width))
                } else {
                    Err(Access::Misaligned)
                }
            }
            None => Err(Access::Outside),
        }
    }

    /// Stores the low byte, the low two bytes or all of w at an address. After a refusal the memory is as before.
    ///
    /// # Errors
    /// `Outside` exactly where the address lies in no region of this memory, else `Misaligned` exactly where it is no
    /// multiple of the width's size, else `ReadOnly` exactly where it lies in the text.
    #[inline(always)]
    pub fn store(&mut self, at: u32, width: Width, w: u32) -> Result<(), Access>
        ensures { MatchResult result
            (λ _. spaces.store (spaces_of self.old) at width w ≡ Ok (spaces_of self.new))
            (λ e. (spaces.store (spaces_of self.old) at width w ≡ Err e) × (self.new ≡ self.old)) }
    {
        if is_within(map::STACK, map::STACK_BYTES, at) {
            return put(&mut self.stack, map::STACK, at, width, w);
        }
        if is_within(map::OBJECTS, map::OBJECT_BYTES, at) {
            return put(&mut self.objects, map::OBJECTS, at, width, w);
        }
        if is_within(map::CELLS, map::CELL_BYTES, at) {
            return put(&mut self.cells, map::CELLS, at, width, w);
        }
        if is_within(map::CLOSURES, map::CLOSURE_BYTES, at) {
            return put(&mut self.closures, map::CLOSURES, at, width, w);
        }
        if is_within(map::SPEC_ROWS, map::SPEC_ROW_BYTES, at) {
            return put(&mut self.spec_rows, map::SPEC_ROWS, at, width, w);
        }
        if is_within(map::EMIT_STACK, map::EMIT_STACK_BYTES, at) {
            return put(&mut self.emit_stack, map::EMIT_STACK, at, width, w);
        }
        if is_within(map::TEXT, map::TEXT_BYTES, at) {
            return Err(self.text_refusal(at, width));
        }
        Err(Access::Outside)
    }

    /// Why a store to an address of the text's range is refused.
    #[inline(always)]
    fn text_refusal(&self, at: u32, width: Width) -> Access
        ensures { spaces.refused ((spaces_of self.now).text (at / 4)) at width ≡ Err result }
    {
        match self.text_word(at) {
            Some(_) => {
                if is_aligned(at, width) {
                    Access::ReadOnly
                } else {
                    Access::Misaligned
                }
            }
            None => Access::Outside,
        }
    }

    /// The word of the text at an address, which is fetched as an instruction: none where the address is no multiple
    /// of 4 or lies outside the text, which ends where the arena begins.
    #[inline(always)]
    pub fn fetch(&self, at: u32) -> Option<u32>
        ensures word { result ≡ spaces.fetch (spaces_of self.now) at }
        ensures below { IfSome result (λ w. at < ARENA) }
    {
        let from = at.wrapping_sub(map::TEXT);
        let i = (from / 4 + from % 4 * 0x4000_0000) as usize;
        if i < self.text.len() {
            Some(self.text[i])
        } else {
            None
        }
    }
}

//! What a run puts out, what it reads, and its heap.

ghost use Rattle.std.specs.Prelude.{◌≡◌, ℕ, IfOk, OnOk};
ghost use Rattle.history.specs.Events.{output};
ghost use Rattle.meaning_state.specs.Shared.{get_byte, malloc, malloc_answer, put_byte, put_number};
ghost use Rattle.staged_meaning.specs.World.{with_shared};
ghost use Rattle.eval_state.specs.Library.{IsRead, put_after};
ghost use Rattle.eval_state.specs.Sound.{AreKnown};
ghost use Rattle.eval_state.specs.Run.{in_world, run_of, world};

use crate::state::{Event, Machine};
use itoa::Buffer;
use sqlite_items::Items;
use std::alloc::{AllocError, Global};
use word32::map;

// Bytes more were put out.
fn put_bytes(events: &mut Items<Event>, bytes: &[u8]) -> Result<(), AllocError>
    ensures all { OnOk result (events.new ≡ put_after events.old bytes.now) }
    ensures known { (n : ℕ) → AreKnown n events.old → AreKnown n events.new }
{
    for b in bytes {
        events.push(Event::Out(*b))?;
    }
    Ok(())
}

impl<'a> Machine<'a> {
    /// Puts out a word modulo 256, as a byte.
    ///
    /// # Errors
    /// Where memory is wanting.
    pub fn put_byte(&mut self, v: u32) -> Result<(), AllocError>
        ensures { OnOk result (run_of self.new
            ≡ in_world (with_shared (put_byte v (world (run_of self.old)).shared) (world (run_of self.old)))
            (run_of self.old)) }
    {
        self.parts.events.push(Event::Out((v % 256) as u8))
    }

    /// Puts out a word as a signed decimal number.
    ///
    /// # Errors
    /// Where memory is wanting.
    pub fn put_number(&mut self, v: u32) -> Result<(), AllocError>
        ensures { OnOk result (run_of self.new
            ≡ in_world (with_shared (put_number v (world (run_of self.old)).shared) (world (run_of self.old)))
            (run_of self.old)) }
    {
        let mut buffer = Buffer::new();
        let text = buffer.format(v.cast_signed());
        put_bytes(&mut self.parts.events, text.as_bytes())
    }

    /// The next byte of the input, or -1 at its end.
    ///
    /// # Errors
    /// Where memory is wanting.
    pub fn get_byte(&mut self) -> Result<u32, AllocError>
        ensures { IfOk result (λ word.
            IsRead word (get_byte (world (run_of self.old)).shared) (run_of self.old) (run_of self.new)) }
    {
        match self.parts.input.split_first() {
            Some((b, rest)) => {
                let word = u32::from(*b);
                self.parts.events.push(Event::In(word))?;
                self.parts.input = rest;
                Ok(word)
            }
            None => {
                self.parts.events.push(Event::In(u32::MAX))?;
                Ok(u32::MAX)
            }
        }
    }

    /// Takes so many bytes of the heap, and answers where they begin; 0, where there is no room.
    pub fn malloc(&mut self, bytes: u32) -> u32
        ensures answer { result ≡ malloc_answer bytes (world (run_of self.old)).shared }
        ensures state { run_of self.new
            ≡ in_world (with_shared (malloc bytes (world (run_of self.old)).shared) (world (run_of self.old)))
            (run_of self.old) }
    {
        let at = self.parts.heap;
        if map::FRAMES.saturating_sub(at) < bytes {
            return 0;
        }
        if bytes != 0 {
            self.parts.heap = at + (bytes + 7) / 8 * 8;
        }
        at
    }

    /// The bytes that were put out.
    ///
    /// # Errors
    /// Where memory is wanting.
    pub fn output(&self, alloc: Global) -> Result<Items<u8>, AllocError>
        ensures { IfOk result (λ bytes. bytes ≡ output (world (run_of self.now)).shared.history) }
    {
        let mut bytes = Items::new(alloc);
        for event in self.parts.events.as_slice() {
            if let Event::Out(b) = event {
                bytes.push(*b)?;
            }
        }
        Ok(bytes)
    }

    /// The units that are left.
    pub fn units(&self) -> u64
        ensures { result ≡ (world (run_of self.now)).units }
    {
        self.parts.units
    }
}

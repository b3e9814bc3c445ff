//! What functions are finished with, one after the other: the tables of live intervals and of linear scan, and room for
//! intervals, for the addresses of labels and for words.

ghost use Rattle.std.specs.Prelude.{◌≡◌, ℕ, ◌<◌, ◌≤◌, true, IfOk, MatchResult, length, slice_index, take};
ghost use Rattle.word32.specs.declared.map.TheConstants.{STACK_BYTES};
ghost use Rattle.code_arena.specs.Kept.{arena_of};
ghost use Rattle.icode_ops.specs.Finished.{Below, IsFinished};
ghost use Rattle.icode_ops.specs.Flow.{label_of, op_at};
ghost use Rattle.icode_ops.specs.Live.{Each};
ghost use Rattle.icode_templates.specs.Expansion.{expanded};
ghost use Rattle.mips_model.specs.Choices.{IsScanned, one_spill, spilled};
ghost use Rattle.mips_model.specs.CodeServices.{arena_word, is_arena_range, written_from};

use crate::words::write_words;
use code_arena::CodeArena;
use icode_expand::{Short, expand, words_are_few};
use icode_liveness::Live;
use icode_ops::{Interval, Op};
use limits::ops::{FRAME_WORDS, MOST_LABELS, MOST_OPS, MOST_REGISTERS, OP_WORDS};
use linear_scan::{SLOT, Scanner};
use linear_scan_spec::intervals_are_scannable;
use std::alloc::{AllocError, Global};
use std::marker::Model;
use word32::map;

// The most words of a function.
const MOST_WORDS: usize = OP_WORDS * MOST_OPS as usize + FRAME_WORDS;

/// The tables, which take all their memory in `new`. Nothing that one function leaves in them bears on the next.
pub(crate) struct Tables {
    live: Live,
    scanner: Scanner,
    intervals: Vec<Interval>,
    labels: Vec<u32>,
    words: Vec<u32>,
}

impl Drop for Tables {
    fn drop(self) {
        let Tables {
            live: _,
            scanner: _,
            intervals: _,
            labels: _,
            words: _,
        } = self;
    }
}

impl Model for Tables {
    ghost use Rattle.icode_service.specs.Held.{HasRooms};

    ghost Value = { Unit {0} };

    ghost view = { λ t. tt };

    ghost invariant = { λ t. HasRooms t.intervals.items t.labels.items t.words.items };
}

// Room for so many words. The only error is want of memory.
fn zeros(alloc: Global, count: usize) -> Result<Vec<u32>, AllocError>
    ensures { IfOk result (λ made. length made.items ≡ count) }
{
    let made = vec![in alloc; 0u32; count]?;
    Ok(made)
}

// Room for so many intervals. The only error is want of memory.
fn no_intervals(alloc: Global, count: usize) -> Result<Vec<Interval>, AllocError>
    ensures { IfOk result (λ made. length made.items ≡ count) }
{
    let none = Interval {
        reg: 0,
        start: 0,
        end: 0,
    };
    let made = vec![in alloc; none; count]?;
    Ok(made)
}

// 1 where the register has a slot, else 0.
fn spill_of(places: &[u8], register: u32) -> u32
    requires { register < length places.now }
    ensures spill { result ≡ one_spill (slice_index places.now register) }
    ensures few { result ≤ 1 }
{
    if places[register as usize] == SLOT {
        1
    } else {
        0
    }
}

// How many of the intervals are of a register that has a slot.
fn count_spills(intervals: &[Interval], places: &[u8]) -> u32
    requires few { length intervals.now < 4294967296 }
    requires registers { Each (λ x. x.reg < length places.now) intervals.now }
    ensures spilled { result ≡ spilled places.now intervals.now }
    ensures few { result ≤ length intervals.now }
{
    let mut count = 0;
    for x in intervals {
        count += spill_of(places, x.reg);
    }
    count
}

// Finds the intervals of a finished list of ops and scans them, and answers how many have a slot. There is a place for
// each register.
fn scan_places(
    live: &mut Live,
    scanner: &mut Scanner,
    ops: &[Op],
    out: &mut [Interval],
    places: &mut [u8],
) -> u32
    requires finished { IsFinished ops.now (length places.old) }
    requires room { length places.old ≤ length out.old }
    ensures scanned { IsScanned ops.now (length places.old) (record { places = places.new; spills = result }) }
    ensures few { result ≤ length places.old }
    ensures length { length places.new ≡ length places.old }
{
    let count = live.intervals(ops, places.len() as u32, out);
    intervals_are_scannable();
    scanner.scan(&out[..count], places);
    count_spills(&out[..count], places)
}

// Expands a compiled function without frame objects to the front of the room for words, where they are at most so many.
fn expand_within(
    ops: &[Op],
    places: &[u8],
    at: u32,
    most: u32,
    frame: u32,
    labels: &mut [u32],
    words: &mut [u32],
) -> Result<usize, Short>
    requires finished { (n : ℕ) × IsFinished ops.now n }
    requires labels { (p : ℕ) → Below (length labels.old) (label_of (op_at ops.now p)) }
    requires room { length (expanded ops.now places.now at frame 0 true) ≤ length words.old }
    requires range { is_arena_range at most ≡ true }
    requires frame { frame ≤ STACK_BYTES }
    ensures { let made = expanded ops.now places.now at frame 0 true in MatchResult result
        (λ n. (n ≡ length made) × (n ≤ most) × (n ≤ length words.new) × (take n words.new ≡ made))
        (λ _. most < length made) }
{
    let room = (most as usize).min(words.len());
    expand(ops, places, at, frame, 0, true, labels, &mut words[..room])
}

impl Tables {
    /// The tables for any number of functions.
    ///
    /// # Errors
    /// Where memory is wanting.
    pub(crate) fn new(alloc: Global) -> Result<Tables, AllocError> {
        // the largest comes last, so that nothing large is given back where memory is wanting
        let words = zeros(alloc, MOST_WORDS)?;
        let labels = zeros(alloc, MOST_LABELS as usize)?;
        let intervals = no_intervals(alloc, MOST_REGISTERS as usize)?;
        let scanner = Scanner::new(alloc)?;
        let live = Live::new(alloc)?;
        Ok(Tables {
            live,
            scanner,
            intervals,
            labels,
            words,
        })
    }

    /// Writes the places that linear scan gives to the registers of a finished list of ops, and answers how many
    /// registers with an interval have a slot. There is a place for each register.
    pub(crate) fn choose(&mut self, ops: &[Op], places: &mut [u8]) -> u32
        requires { IsFinished ops.now (length places.old) }
        ensures scanned { IsScanned ops.now (length places.old) (record { places = places.new; spills = result }) }
        ensures few { result ≤ length places.old }
        ensures length { length places.new ≡ length places.old }
    {
        scan_places(
            &mut self.live,
            &mut self.scanner,
            ops,
            &mut self.intervals,
            places,
        )
    }

    /// Writes the words of a compiled function without frame objects into the arena, from an address on, and answers
    /// how many they are. The error comes exactly where they are more than `most`, and then the arena is as it was.
    pub(crate) fn write(
        &mut self,
        ops: &[Op],
        places: &[u8],
        at: u32,
        most: u32,
        frame: u32,
        arena: &mut CodeArena,
    ) -> Result<u32, Short>
        requires finished { (n : ℕ) × IsFinished ops.now n }
        requires range { is_arena_range at most ≡ true }
        requires frame { frame ≤ STACK_BYTES }
        ensures { let words = expanded ops.now places.now at frame 0 true in MatchResult result
            (λ n. (n ≡ length words) × (n ≤ most) ×
            (arena_of arena.new ≡ written_from (arena_word at) words (arena_of arena.old)))
            (λ _. (most < length words) × (arena.new ≡ arena.old)) }
    {
        words_are_few();
        let count = expand_within(
            ops,
            places,
            at,
            most,
            frame,
            &mut self.labels,
            &mut self.words,
        )?;
        write_words(arena, at / 4 - map::ARENA / 4, &self.words[..count]);
        Ok(count as u32)
    }
}

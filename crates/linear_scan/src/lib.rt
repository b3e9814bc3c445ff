//! Linear scan register allocation: the places of virtual registers, from their intervals.
//!
//! The scan is that of Poletto and Sarkar (Linear Scan Register Allocation, TOPLAS 21(5), 1999) with a row of the
//! active intervals by their ends. The definition of the places and the laws stand in the crate `linear_scan_spec`.
#![tactic(auto)]

ghost use Rattle.std.specs.Prelude.{◌≡◌, ◌≢◌, ℕ, ◌<◌, ◌≤◌, length, Some, [], ◌∷◌, slice_index, List};
ghost use Rattle.icode_ops.specs.Live.{In as InIntervals, Each as EachInterval, AreIntervals};
ghost use Rattle.icode_ops.specs.Places.{IsLegal};
ghost use Rattle.icode_ops.specs.declared.op.Op.{Op};
ghost use Rattle.icode_ops.specs.declared.interval.Interval.{Interval as SpecInterval};
ghost use Rattle.linear_scan_spec.specs.Lists.{Each};
ghost use Rattle.linear_scan_spec.specs.Scan.{Keeper, ScanState, least_free, last_of, but_last, keep, visit, places_of};
ghost use Rattle.linear_scan_spec.specs.Laws.{AreScannable, IsCrowded};
ghost use Rattle.linear_scan.specs.Held.{ids, from_end, ApartIds, Holds, IsFresh};

use icode_ops::Interval;
use linked_row::Row;
use std::alloc::{AllocError, Global};
use std::marker::Model;

/// The place that stands for a slot of the frame. The places below it are the registers of the machine.
pub const SLOT: u8 = 12;

/// The tables of the scan, which are made once and serve any number of scans.
pub struct Scanner {
    // The numbers that are held, by the ends of the intervals that hold them.
    keepers: Row,
    // The register of the interval that holds each number.
    owners: [u32; 13],
}

impl Drop for Scanner {
    fn drop(self) {
        let Scanner {
            keepers: _,
            owners: _,
        } = self;
    }
}

impl Model for Scanner {
    ghost use Rattle.std.specs.Prelude.{◌≤◌};

    // Nothing is kept from one scan to the next.
    ghost Value = { Unit {0} };

    ghost view = { λ s. tt };

    ghost invariant = { λ s. 13 ≤ s.keepers.room };
}

impl Scanner {
    /// The tables. The error is want of memory.
    pub fn new(alloc: Global) -> Result<Self, AllocError> {
        let keepers = Row::new(alloc, 13)?;
        Ok(Scanner {
            keepers,
            owners: [0; 13],
        })
    }

    /// Writes the place of each register below `places.len()`: a number below 12 for a register of the machine, or
    /// 12 for a slot of the frame. A register without an interval gets 12.
    ///
    /// The intervals must come by their starts, those that start together by their registers; none may end before
    /// its start, and each must be of a register of its own below `places.len()`.
    ///
    /// The cost is linear in the intervals and the places, and no memory is taken.
    pub fn scan(&mut self, intervals: &[Interval], places: &mut [u8])
        requires scannable { AreScannable intervals.now }
        requires registers { EachInterval (λ x. x.reg < length places.old) intervals.now }
        // exactly the places of the definition
        ensures exact { places.new ≡ places_of (length places.old) intervals.now }
        // they are legal for each list of ops that has these intervals
        ensures legal { (ops : List Op) → AreIntervals ops intervals.now → IsLegal ops (length places.old) places.new }
        // an interval with a slot shares a point with twelve others, each of which ends no later
        ensures crowded { (x : SpecInterval) → InIntervals x intervals.now → slice_index places.new x.reg ≡ 12 →
            IsCrowded intervals.now x }
    {
        empty(&mut self.keepers);
        for place in places.iter_mut() {
            *place = SLOT;
        }
        for x in intervals {
            visit(&mut self.keepers, &mut self.owners, places, *x);
        }
    }
}

// Takes out the entries that end before the start.
fn expire(keepers: &mut Row, start: u32)
    requires { ApartIds keepers.old.items }
    ensures { keepers.new ≡ record { room = keepers.old.room; items = from_end start keepers.old.items } }
{
    while let Some((number, end)) = keepers.first() {
        if end >= start {
            break;
        }
        keepers.remove(number);
    }
}

// The least number below 12 that no keeper holds, or else 12.
fn free_number(keepers: &Row) -> u32
    ensures { result ≡ least_free 12 0 (ids keepers.now.items) }
{
    for number in 0..12 {
        if !keepers.holds(number) {
            return number;
        }
    }
    12
}

// The interval becomes a keeper, and holds the least number that is free.
fn admit(keepers: &mut Row, owners: &mut [u32], places: &mut [u8], x: Interval, number: u32)
    requires held { (s : ScanState) × Holds s keepers.old owners.old places.old × (length s.keepers < 12) }
    requires reg { x.reg < length places.old }
    requires free { number ≡ least_free 12 0 (ids keepers.old.items) }
    ensures { (s : ScanState) → Holds s keepers.old owners.old places.old → length s.keepers < 12 → IsFresh x s →
        Holds (keep x s.keepers s.numbered s.spilled) keepers.new owners.new places.new }
{
    keepers.insert_sorted(number, x.end);
    owners[number as usize] = x.reg;
    places[x.reg as usize] = number as u8;
}

// The last keeper is spilled.
fn spill_last(keepers: &mut Row, owners: &[u32], places: &mut [u8], number: u32)
    requires held { (s : ScanState) × (w : Keeper) × Holds s keepers.old owners.now places.old ×
        (last_of s.keepers ≡ Some w) × (w.number ≡ number) }
    ensures { (s : ScanState) (w : Keeper) → Holds s keepers.old owners.now places.old → last_of s.keepers ≡ Some w →
        w.number ≡ number →
        Holds
        (record { keepers = but_last s.keepers; numbered = s.numbered; spilled = w.interval ∷ s.spilled })
        keepers.new owners.now places.new }
{
    keepers.remove(number);
    places[owners[number as usize] as usize] = SLOT;
}

// Visits an interval.
fn visit(keepers: &mut Row, owners: &mut [u32], places: &mut [u8], x: Interval)
    requires held { (s : ScanState) × Holds s keepers.old owners.old places.old ×
        Each (λ k. k.interval.reg ≢ x.reg) s.keepers }
    requires reg { x.reg < length places.old }
    ensures { (s : ScanState) → Holds s keepers.old owners.old places.old → IsFresh x s →
        Holds (visit s x) keepers.new owners.new places.new }
{
    expire(keepers, x.start);
    let number = free_number(keepers);
    if number < 12 {
        admit(keepers, owners, places, x, number);
        return;
    }
    match keepers.last() {
        None => {}
        Some((last, end)) => {
            if x.end < end {
                // the number of the last keeper is the only one that is free then
                spill_last(keepers, owners, places, last);
                admit(keepers, owners, places, x, last);
            } else {
                places[x.reg as usize] = SLOT;
            }
        }
    }
}

// Takes all entries out.
fn empty(keepers: &mut Row)
    ensures { keepers.new ≡ record { room = keepers.old.room; items = [] } }
{
    while let Some((number, _)) = keepers.first() {
        keepers.remove(number);
    }
}

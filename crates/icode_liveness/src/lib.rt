//! Live intervals of the registers of a finished list of ops: liveness by a backward search over basic blocks, in time
//! that is linear in the ops and the registers, and for each register in the blocks that it is live into.
#![tactic(auto)]

mod blocks;
mod order;
mod search;
mod tables;

ghost use Rattle.std.specs.Prelude.{◌≡◌, ◌<◌, ◌≤◌, IfOk, length, take};
ghost use Rattle.icode_ops.specs.Finished.{IsFinished};
ghost use Rattle.icode_ops.specs.Live.{AreIntervals, Each};

use collections::{Buckets, SparseSet};
use icode_ops::{Interval, Op};
use icode_ranges::Code;
use limits::ops::{MOST_LABELS, MOST_OPS, MOST_REGISTERS};
use std::alloc::{AllocError, Global};
use std::marker::Model;

// The slots of an op: one for a label or a definition, and one for each of the registers that it uses.
const SLOTS: u32 = 3;

/// The tables for intervals of lists of ops, which take all their memory in `new`. Nothing that one
/// call leaves in them bears on the next.
pub struct Live {
    jumps: Buckets,
    definitions: Buckets,
    exposed: Buckets,
    starts: Buckets,
    found: SparseSet,
    defining: SparseSet,
    blocks: Vec<u32>,
    lasts: Vec<u32>,
    lows: Vec<u32>,
    highs: Vec<u32>,
    ends: Vec<u32>,
}

impl Drop for Live {
    fn drop(self) {
        let Live {
            jumps: _,
            definitions: _,
            exposed: _,
            starts: _,
            found: _,
            defining: _,
            blocks: _,
            lasts: _,
            lows: _,
            highs: _,
            ends: _,
        } = self;
    }
}

impl Model for Live {
    ghost use Rattle.icode_liveness.specs.Rooms.{HasRooms};

    ghost Value = { Unit {0} };

    ghost view = { λ l. tt };

    ghost invariant = { λ l. HasRooms l.jumps l.definitions l.exposed l.starts l.found l.defining l.blocks.items
        l.lasts.items l.lows.items l.highs.items l.ends.items };
}

impl Live {
    /// Makes the tables, for lists of up to 196,609 ops with up to 393,216 registers.
    ///
    /// # Errors
    /// Where memory is wanting.
    pub fn new(alloc: Global) -> Result<Live, AllocError> {
        let jumps = Buckets::new(alloc, MOST_LABELS, SLOTS * MOST_OPS)?;
        let definitions = Buckets::new(alloc, MOST_REGISTERS, SLOTS * MOST_OPS)?;
        let exposed = Buckets::new(alloc, MOST_REGISTERS, SLOTS * MOST_OPS)?;
        let starts = Buckets::new(alloc, MOST_OPS, MOST_REGISTERS)?;
        let found = SparseSet::new(alloc, MOST_OPS)?;
        let defining = SparseSet::new(alloc, MOST_OPS)?;
        let blocks = zeros(alloc, MOST_OPS)?;
        let lasts = zeros(alloc, MOST_REGISTERS)?;
        let lows = zeros(alloc, MOST_REGISTERS)?;
        let highs = zeros(alloc, MOST_REGISTERS)?;
        let ends = zeros(alloc, MOST_REGISTERS)?;
        Ok(Live {
            jumps,
            definitions,
            exposed,
            starts,
            found,
            defining,
            blocks,
            lasts,
            lows,
            highs,
            ends,
        })
    }

    /// Writes the intervals of the registers of a finished list of ops to the front of `out`, and
    /// answers how many they are.
    ///
    /// There is one for each register that is at some op: from the first op that it is at to the
    /// last. They are sorted by start, and of equal starts by register. Takes no memory, and never
    /// touches more of a table than the ops and registers at hand need.
    pub fn intervals(&mut self, ops: &[Op], registers: u32, out: &mut [Interval]) -> usize
        requires finished { IsFinished ops.now registers }
        requires room { registers ≤ length out.old }
        ensures intervals { AreIntervals ops.now (take result out.new) }
        ensures few { result ≤ registers }
        ensures registers { Each (λ x. x.reg < registers) (take result out.new) }
    {
        blocks::list_blocks(&mut self.blocks, ops);
        tables::list_jumps(&mut self.jumps, ops, registers);
        tables::list_registers(
            &mut self.definitions,
            &mut self.exposed,
            &mut self.lasts,
            &mut self.lows,
            &mut self.highs,
            ops,
            &self.blocks,
            registers,
        );
        let code = Code {
            ops,
            blocks: &self.blocks,
            jumps: &self.jumps,
            definitions: &self.definitions,
            exposed: &self.exposed,
            lows: &self.lows,
            highs: &self.highs,
        };
        order::list_by_start(
            &mut self.starts,
            &mut self.ends,
            &mut self.found,
            &mut self.defining,
            &code,
            registers,
        );
        order::write_by_start(out, &self.starts, ops.len() as u32, &self.ends, registers)
    }
}

// So many zeros.
fn zeros(alloc: Global, count: u32) -> Result<Vec<u32>, AllocError>
    ensures { IfOk result (λ made. length made.items ≡ count) }
{
    let made = vec![in alloc; 0; count as usize]?;
    Ok(made)
}

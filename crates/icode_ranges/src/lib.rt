//! The range of a register, widened op by op: a finished list of ops with what was listed of it, and the step of the
//! search for the blocks that a register is live into.
#![tactic(auto)]

ghost use Rattle.std.specs.Prelude.{◌≡◌, ◌<◌, ◌≤◌, length};
ghost use Rattle.icode_ranges.specs.Blocks.{block_of};
ghost use Rattle.icode_ranges.specs.Listed.{IsListed};
ghost use Rattle.icode_ranges.specs.Search.{Taken, Wider, Grown};
ghost use Rattle.icode_ranges.specs.Tables.{IsSpanOf};

use collections::{Buckets, SparseSet};
use icode_ops::{Interval, Op};

/// A finished list of ops, with what was listed of its blocks, labels and registers.
#[derive(Drop)]
pub struct Code<'a> {
    pub ops: &'a [Op],
    /// For each op the first op of its block.
    pub blocks: &'a [u32],
    /// For each label the ops that may go to it.
    pub jumps: &'a Buckets,
    /// For each register the ops that define it.
    pub definitions: &'a Buckets,
    /// For each register the uses that no definition in their block comes before.
    pub exposed: &'a Buckets,
    /// For each register the first op that mentions it.
    pub lows: &'a [u32],
    /// For each register one more than the last op that mentions it, or 0.
    pub highs: &'a [u32],
}

impl<'a> Code<'a> {
    /// The first op of the block of an op.
    #[tactic(auto, using(crate::proofs::Joining::block_low))]
    pub fn block(&self, place: u32) -> u32
        requires listed { IsListed self.now }
        requires place { place < length self.now.ops.now }
        ensures block { result ≡ block_of self.now.ops.now place }
        ensures low { result ≤ place }
    {
        self.blocks[place as usize]
    }

    /// From the first to the last op that mentions a register, if any does.
    pub fn span(&self, register: u32) -> Option<Interval>
        requires listed { IsListed self.now }
        requires register { register < length self.now.definitions.now.buckets }
        ensures { IsSpanOf self.now.ops.now register result }
    {
        let high = self.highs[register as usize];
        if high == 0 {
            return None;
        }
        Some(Interval {
            reg: register,
            start: self.lows[register as usize],
            end: high - 1,
        })
    }
}

/// The range with one place more.
pub fn widened(range: Interval, place: u32) -> Interval
    ensures wider { Wider (λ p. p ≡ place) range result }
    ensures low { result.start ≤ place }
    ensures high { place ≤ result.end }
{
    Interval {
        reg: range.reg,
        start: range.start.min(place),
        end: range.end.max(place),
    }
}

/// Takes an op after which the register is live: the range is widened by it, and its block is added, unless that
/// defines the register.
pub fn take(
    found: &mut SparseSet,
    defining: &SparseSet,
    code: &Code<'_>,
    range: Interval,
    place: u32,
) -> Interval
    requires listed { IsListed code.now }
    requires place { place < length code.now.ops.now }
    requires room { length code.now.ops.now ≤ found.old.room }
    requires defining { length code.now.ops.now ≤ defining.now.room }
    ensures taken { Taken code.now.ops.now defining.now.members found.new.members result place }
    ensures grown { Grown (λ p. p ≡ place) code.now.ops.now defining.now.members range result
        found.old.members found.new.members }
    ensures room { found.new.room ≡ found.old.room }
{
    let block = code.block(place);
    if !defining.contains(block) {
        found.insert(block);
    }
    widened(range, place)
}

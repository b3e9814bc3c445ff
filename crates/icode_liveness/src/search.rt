//! The search for the blocks that a register is live into, and its interval.

ghost use Rattle.std.specs.Prelude.{◌≡◌, ◌≢◌, ℕ, ◌+◌, ◌/◌, ◌<◌, ◌≤◌, true, false, [], List, Some, length};
ghost use Rattle.std.specs.Prelude.{slice_index_or};
ghost use Rattle.icode_ops.specs.Flow.{falls, op_at, Follows};
ghost use Rattle.icode_ranges.specs.Blocks.{block_of};
ghost use Rattle.icode_ranges.specs.Listed.{IsListed};
ghost use Rattle.icode_ranges.specs.Lists.{In, Each, Extends};
ghost use Rattle.icode_ranges.specs.Search.{Taken, Grown, PlaceOf, BlockIn, IsIntervalOf};
ghost use Rattle.icode_ranges.specs.Tables.{IsSpanOf};

use collections::{Buckets, SparseSet};
use icode_ops::Interval;
use icode_ranges::{Code, take, widened};

// Adds the blocks of the ops of a bucket's slots.
fn add_blocks(found: &mut SparseSet, code: &Code<'_>, table: &Buckets, bucket: u32)
    requires listed { IsListed code.now }
    requires bucket { bucket < length table.now.buckets }
    requires places { Each (λ slot. slot / 3 < length code.now.ops.now) (slice_index_or table.now.buckets bucket []) }
    requires room { length code.now.ops.now ≤ found.old.room }
    ensures all { Each (λ slot. In (block_of code.now.ops.now (slot / 3)) found.new.members)
        (slice_index_or table.now.buckets bucket []) }
    ensures extends { Extends (BlockIn code.now.ops.now (slice_index_or table.now.buckets bucket []))
        found.old.members found.new.members }
    ensures room { found.new.room ≡ found.old.room }
{
    let mut at = table.first(bucket);
    while let Some(slot) = at {
        found.insert(code.block(slot / 3));
        at = table.next(slot);
    }
}

// Takes the ops that go to a label.
fn take_jumps(
    found: &mut SparseSet,
    defining: &SparseSet,
    code: &Code<'_>,
    range: Interval,
    label: u32,
) -> Interval
    requires listed { IsListed code.now }
    requires label { label < length code.now.jumps.now.buckets }
    requires room { length code.now.ops.now ≤ found.old.room }
    requires defining { length code.now.ops.now ≤ defining.now.room }
    ensures taken { Each (λ slot. Taken code.now.ops.now defining.now.members found.new.members result (slot / 3))
        (slice_index_or code.now.jumps.now.buckets label []) }
    ensures grown { Grown (PlaceOf (slice_index_or code.now.jumps.now.buckets label [])) code.now.ops.now
        defining.now.members range result found.old.members found.new.members }
    ensures room { found.new.room ≡ found.old.room }
{
    let mut range = range;
    let mut at = code.jumps.first(label);
    while let Some(slot) = at {
        range = take(found, defining, code, range, slot / 3);
        at = code.jumps.next(slot);
    }
    range
}

// Takes the op before a block, where control falls from it.
fn take_fall(
    found: &mut SparseSet,
    defining: &SparseSet,
    code: &Code<'_>,
    range: Interval,
    block: u32,
) -> Interval
    requires listed { IsListed code.now }
    requires block { block < length code.now.ops.now }
    requires room { length code.now.ops.now ≤ found.old.room }
    requires defining { length code.now.ops.now ≤ defining.now.room }
    ensures taken { (p : ℕ) → block ≡ p + 1 → falls (op_at code.now.ops.now p) ≡ true
        → Taken code.now.ops.now defining.now.members found.new.members result p }
    ensures grown { Grown (λ p. Follows code.now.ops.now p block) code.now.ops.now defining.now.members range result
        found.old.members found.new.members }
    ensures room { found.new.room ≡ found.old.room }
{
    if block == 0 {
        return range;
    }
    let before = block - 1;
    if code.ops[before as usize].falls() {
        return take(found, defining, code, range, before);
    }
    range
}

// Takes the ops from which control goes to a block.
fn take_before(
    found: &mut SparseSet,
    defining: &SparseSet,
    code: &Code<'_>,
    range: Interval,
    block: u32,
) -> Interval
    requires listed { IsListed code.now }
    requires block { block < length code.now.ops.now }
    requires room { length code.now.ops.now ≤ found.old.room }
    requires defining { length code.now.ops.now ≤ defining.now.room }
    ensures taken { (p : ℕ) → Follows code.now.ops.now p block
        → Taken code.now.ops.now defining.now.members found.new.members result p }
    ensures grown { Grown (λ p. Follows code.now.ops.now p block) code.now.ops.now defining.now.members range result
        found.old.members found.new.members }
    ensures room { found.new.room ≡ found.old.room }
{
    let range = take_fall(found, defining, code, range, block);
    match code.ops[block as usize].label() {
        Some(label) => take_jumps(found, defining, code, range, label),
        None => range,
    }
}

// The interval of a register, from the range of the ops that mention it.
fn live_range(
    found: &mut SparseSet,
    defining: &mut SparseSet,
    code: &Code<'_>,
    range: Interval,
) -> Interval
    requires listed { IsListed code.now }
    requires register { range.reg < length code.now.definitions.now.buckets }
    requires range { IsSpanOf code.now.ops.now range.reg (Some range) }
    requires room { length code.now.ops.now ≤ found.old.room }
    requires defining { length code.now.ops.now ≤ defining.old.room }
    ensures interval { IsIntervalOf code.now.ops.now range.reg (Some result) }
    ensures room { found.new.room ≡ found.old.room }
    ensures defining { defining.new.room ≡ defining.old.room }
{
    found.clear();
    add_blocks(found, code, code.exposed, range.reg);
    defining.clear();
    add_blocks(defining, code, code.definitions, range.reg);
    let mut range = range;
    let mut looked_at = 0;
    while looked_at < found.as_slice().len() {
        let block = found.as_slice()[looked_at];
        range = take_before(found, defining, code, widened(range, block), block);
        looked_at += 1;
    }
    range
}

/// The interval of a register, if it has one. Only a register with a use that no definition in its block comes before
/// is sought in other blocks.
pub fn interval_of(
    found: &mut SparseSet,
    defining: &mut SparseSet,
    code: &Code<'_>,
    register: u32,
) -> Option<Interval>
    requires listed { IsListed code.now }
    requires register { register < length code.now.definitions.now.buckets }
    requires room { length code.now.ops.now ≤ found.old.room }
    requires defining { length code.now.ops.now ≤ defining.old.room }
    ensures interval { IsIntervalOf code.now.ops.now register result }
    ensures room { found.new.room ≡ found.old.room }
    ensures defining { defining.new.room ≡ defining.old.room }
{
    match code.span(register) {
        None => None,
        Some(range) => match code.exposed.first(register) {
            None => Some(range),
            Some(_) => Some(live_range(found, defining, code, range)),
        },
    }
}

//! Basic blocks of a list of ops.

ghost use Rattle.std.specs.Prelude.{◌≡◌, ◌-◌, ◌<◌, ◌≤◌, length};
ghost use Rattle.icode_ranges.specs.Blocks.{joins, block_of};
ghost use Rattle.icode_ranges.specs.Tables.{AreBlocks};
ghost use Rattle.limits.specs.declared.ops.TheConstants.{MOST_OPS};

use icode_ops::Op;

// Whether control goes from an op only to the next one, and comes to that only from there.
fn joins(before: &Op, op: &Op) -> bool
    ensures { result ≡ joins before.now op.now }
{
    before.falls() && before.goes_to().is_none() && op.label().is_none()
}

// The first op of the block of op p, from that of the op before.
fn block_after(ops: &[Op], p: usize, before: u32) -> u32
    requires place { p < length ops.now }
    requires fits { p < 4294967296 }
    requires before { before ≡ block_of ops.now (p - 1) }
    ensures block { result ≡ block_of ops.now p }
{
    if p == 0 {
        return 0;
    }
    if joins(&ops[p - 1], &ops[p]) {
        before
    } else {
        p as u32
    }
}

/// Writes for each op the first op of its block.
pub fn list_blocks(blocks: &mut [u32], ops: &[Op])
    requires room { length ops.now ≤ length blocks.old }
    requires few { length ops.now ≤ MOST_OPS }
    ensures blocks { AreBlocks ops.now (length ops.now) blocks.new }
{
    let mut block = 0;
    for p in 0..ops.len() {
        block = block_after(ops, p, block);
        blocks[p] = block;
    }
}

//! Tables of the ops: which go to a label, which define a register, and which use it with no definition before them in
//! their block.

ghost use Rattle.std.specs.Prelude.{◌≡◌, ℕ, ◌+◌, ◌*◌, ◌<◌, ◌≤◌, length, slice_index_or};
ghost use Rattle.icode_ops.specs.Flow.{goes_to};
ghost use Rattle.icode_ops.specs.Finished.{Below, InRange, IsFinished};
ghost use Rattle.icode_ranges.specs.Tables.{listed, shown, with_shown, with_low, marked, AreSpans, MentionedAt};
ghost use Rattle.icode_ranges.specs.Tables.{DefinedAt, ExposedAt, GoesFrom, IsTable, KnowsLabels, AreBlocks};
ghost use Rattle.limits.specs.declared.ops.TheConstants.{MOST_LABELS};

use collections::Buckets;
use icode_ops::Op;

// Lists the slot in the bucket, if there is one.
fn list(buckets: &mut Buckets, bucket: Option<u32>, slot: u32)
    requires bucket { Below (length buckets.old.buckets) bucket }
    requires above { buckets.old.least_slot ≤ slot }
    requires room { slot < buckets.old.slot_room }
    ensures buckets { buckets.new.buckets ≡ listed bucket slot buckets.old.buckets }
    ensures least { buckets.new.least_slot ≤ slot + 1 }
    ensures bucket_room { buckets.new.bucket_room ≡ buckets.old.bucket_room }
    ensures slot_room { buckets.new.slot_room ≡ buckets.old.slot_room }
{
    if let Some(bucket) = bucket {
        buckets.push(bucket, slot);
    }
}

// Writes 0 into the first `count` words.
fn clear(words: &mut [u32], count: usize)
    requires room { count ≤ length words.old }
    ensures zeros { (i : ℕ) → i < count → slice_index_or words.new i 0 ≡ 0 }
    ensures length { length words.new ≡ length words.old }
{
    for i in 0..count {
        words[i] = 0;
    }
}

// Writes the word of the register, if there is one.
fn mark(words: &mut [u32], register: Option<u32>, word: u32)
    requires register { Below (length words.old) register }
    ensures words { words.new ≡ marked register word words.old }
{
    if let Some(register) = register {
        words[register as usize] = word;
    }
}

// The register that an op uses, where no definition comes before it in the block: `lasts` has one more than the last
// definition of each register, or 0.
fn shown(lasts: &[u32], block: u32, used: Option<u32>) -> Option<u32>
    requires register { Below (length lasts.now) used }
    ensures shown { result ≡ shown lasts.now block used }
{
    match used {
        Some(register) if lasts[register as usize] <= block => Some(register),
        _ => None,
    }
}

// Lists an op under each register that it uses with no definition before it in the block.
fn list_shown(
    buckets: &mut Buckets,
    lasts: &[u32],
    first: Option<u32>,
    second: Option<u32>,
    block: u32,
    slot: u32,
)
    requires first { Below (length buckets.old.buckets) first }
    requires second { Below (length buckets.old.buckets) second }
    requires first_last { Below (length lasts.now) first }
    requires second_last { Below (length lasts.now) second }
    requires above { buckets.old.least_slot ≤ slot }
    requires room { slot + 2 < buckets.old.slot_room }
    requires fits { slot + 2 < 4294967296 }
    ensures buckets { buckets.new.buckets ≡ with_shown first second lasts.now block slot buckets.old.buckets }
    ensures least { buckets.new.least_slot ≤ slot + 3 }
    ensures bucket_room { buckets.new.bucket_room ≡ buckets.old.bucket_room }
    ensures slot_room { buckets.new.slot_room ≡ buckets.old.slot_room }
{
    list(buckets, shown(lasts, block, first), slot + 1);
    list(buckets, shown(lasts, block, second), slot + 2);
}

// Notes that an op mentions the register, if there is one.
fn mention(lows: &mut [u32], highs: &mut [u32], register: Option<u32>, place: u32)
    requires low { Below (length lows.old) register }
    requires high { Below (length highs.old) register }
    requires fits { place + 1 < 4294967296 }
    ensures lows { lows.new ≡ with_low register place lows.old highs.old }
    ensures highs { highs.new ≡ marked register (place + 1) highs.old }
{
    if let Some(register) = register {
        if highs[register as usize] == 0 {
            lows[register as usize] = place;
        }
        highs[register as usize] = place + 1;
    }
}

/// Lists under each register the ops that define it, and the ops that use it with no definition before them in their
/// block. Writes for each register the first op that mentions it, and one more than the last, or 0 where none does.
pub fn list_registers(
    definitions: &mut Buckets,
    exposed: &mut Buckets,
    lasts: &mut [u32],
    lows: &mut [u32],
    highs: &mut [u32],
    ops: &[Op],
    blocks: &[u32],
    registers: u32,
)
    requires finished { IsFinished ops.now registers }
    requires blocks { AreBlocks ops.now (length ops.now) blocks.now }
    requires block_room { length ops.now ≤ length blocks.now }
    requires lasts { registers ≤ length lasts.old }
    requires lows { registers ≤ length lows.old }
    requires highs { registers ≤ length highs.old }
    requires definitions { registers ≤ definitions.old.bucket_room }
    requires definition_slots { 3 * length ops.now ≤ definitions.old.slot_room }
    requires exposed { registers ≤ exposed.old.bucket_room }
    requires exposed_slots { 3 * length ops.now ≤ exposed.old.slot_room }
    ensures definitions { IsTable (DefinedAt ops.now (length ops.now)) definitions.new.buckets }
    ensures exposed { IsTable (ExposedAt ops.now (length ops.now)) exposed.new.buckets }
    ensures each_defined { length definitions.new.buckets ≡ registers }
    ensures each_exposed { length exposed.new.buckets ≡ registers }
    ensures spans { AreSpans (MentionedAt ops.now (length ops.now)) registers lows.new highs.new }
    ensures lasts { length lasts.new ≡ length lasts.old }
    ensures lows { length lows.new ≡ length lows.old }
    ensures highs { length highs.new ≡ length highs.old }
    ensures definition_buckets { definitions.new.bucket_room ≡ definitions.old.bucket_room }
    ensures definition_slots { definitions.new.slot_room ≡ definitions.old.slot_room }
    ensures exposed_buckets { exposed.new.bucket_room ≡ exposed.old.bucket_room }
    ensures exposed_slots { exposed.new.slot_room ≡ exposed.old.slot_room }
{
    definitions.start(registers);
    exposed.start(registers);
    clear(lasts, registers as usize);
    clear(highs, registers as usize);
    for p in 0..ops.len() {
        let op = &ops[p];
        let defined = op.defined();
        let first = op.first_use();
        let second = op.second_use();
        let place = p as u32;
        let slot = 3 * place;
        list_shown(exposed, lasts, first, second, blocks[p], slot);
        list(definitions, defined, slot);
        mark(lasts, defined, place + 1);
        mention(lows, highs, defined, place);
        mention(lows, highs, first, place);
        mention(lows, highs, second, place);
    }
}

/// Lists under each label the ops that may go to it.
pub fn list_jumps(buckets: &mut Buckets, ops: &[Op], registers: u32)
    requires finished { IsFinished ops.now registers }
    requires buckets { MOST_LABELS ≤ buckets.old.bucket_room }
    requires slots { 3 * length ops.now ≤ buckets.old.slot_room }
    ensures table { IsTable (GoesFrom ops.now (length ops.now)) buckets.new.buckets }
    ensures labels { KnowsLabels ops.now (length buckets.new.buckets) }
    ensures bucket_room { buckets.new.bucket_room ≡ buckets.old.bucket_room }
    ensures slot_room { buckets.new.slot_room ≡ buckets.old.slot_room }
{
    buckets.start(label_count(ops, registers));
    for p in 0..ops.len() {
        list(buckets, ops[p].goes_to(), 3 * p as u32);
    }
}

// One more than the greatest label that stands in the ops, or 0.
fn label_count(ops: &[Op], registers: u32) -> u32
    requires { IsFinished ops.now registers }
    ensures labels { KnowsLabels ops.now result }
    ensures low { result ≤ MOST_LABELS }
{
    let mut count = 0;
    for p in 0..ops.len() {
        count = above(count, ops[p].label());
    }
    count
}

// The greater of a count and one more than a label, if there is one.
fn above(count: u32, label: Option<u32>) -> u32
    requires low { count ≤ MOST_LABELS }
    requires label { Below MOST_LABELS label }
    ensures count { count ≤ result }
    ensures label { Below result label }
    ensures low { result ≤ MOST_LABELS }
{
    match label {
        Some(label) => count.max(label + 1),
        None => count,
    }
}

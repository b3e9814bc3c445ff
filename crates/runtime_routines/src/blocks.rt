//! The blocks of the routines, one behind another.

ghost use Rattle.std.specs.Prelude.{◌≡◌, ◌++◌, IfOk, OnOk};
ghost use Rattle.routine_spec.specs.Compile.{compile_code};
ghost use Rattle.icode_templates.specs.Words.{words};
ghost use Rattle.routine_spec.specs.Blocks.{check_words, filled, first_words, last_words, nothing_words};
ghost use Rattle.routine_spec.specs.Blocks.{routine_words, tested_code};

use crate::closures::{begin, check, local, malloc, new, parameter};
use crate::compiling::{first_part, second_part};
use crate::numbers::{LAST, LAST_BUT_ONE, LOCAL_KIND, V1};
use icode_templates::Snippet;
use mips_assembly::{addiu, nop, sltiu};
use mips_encoder::{Instr, encode};
use sqlite_items::Items;
use std::alloc::{AllocError, Global};

// The words of a block.
const BLOCK_WORDS: usize = 64;

// The words of a stretch at the end.
fn put(alloc: Global, found: &mut Items<u32>, s: &Snippet) -> Result<(), AllocError>
    ensures { OnOk result (found.new ≡ found.old ++ s.now) }
{
    let more = Items::from_slice(alloc, s.words())?;
    found.append(more)
}

// So many words of nop.
#[tactic(auto, using(crate::proofs::Nothing::nothing))]
fn fill(found: &mut Items<u32>, count: usize) -> Result<(), AllocError>
    ensures { OnOk result (found.new ≡ found.old ++ nothing_words count) }
{
    for _ in 0..count {
        found.push(encode(nop()))?;
    }
    Ok(())
}

// A block of a routine.
#[tactic(auto, using(crate::proofs::Nothing::in_block))]
fn block(alloc: Global, found: &mut Items<u32>, s: &Snippet) -> Result<(), AllocError>
    ensures { OnOk result (found.new ≡ found.old ++ filled s.now) }
{
    put(alloc, found, s)?;
    fill(found, BLOCK_WORDS - s.len())
}

// A block that checks, by the instruction that tests the kind.
fn check_block(alloc: Global, found: &mut Items<u32>, test: Instr) -> Result<(), AllocError>
    ensures { OnOk result (found.new ≡ found.old ++ filled (words (tested_code test))) }
{
    let mut s = Snippet::new();
    check(&mut s, test);
    block(alloc, found, &s)
}

// The block of the routine that compiles, which fills it.
#[tactic(auto, using(crate::proofs::Nothing::compiling))]
fn compile_block(alloc: Global, found: &mut Items<u32>) -> Result<(), AllocError>
    ensures { OnOk result (found.new ≡ found.old ++ filled (words compile_code)) }
{
    let mut s = Snippet::new();
    first_part(&mut s);
    put(alloc, found, &s)?;
    s.clear();
    second_part(&mut s);
    put(alloc, found, &s)
}

// The blocks up to those that check.
#[tactic(auto, using(crate::proofs::Nothing::five))]
fn first_blocks(alloc: Global, found: &mut Items<u32>) -> Result<(), AllocError>
    ensures { OnOk result (found.new ≡ found.old ++ first_words) }
{
    let mut s = Snippet::new();
    malloc(&mut s);
    block(alloc, found, &s)?;
    compile_block(alloc, found)?;
    s.clear();
    local(&mut s);
    block(alloc, found, &s)?;
    s.clear();
    parameter(&mut s);
    block(alloc, found, &s)?;
    s.clear();
    begin(&mut s);
    block(alloc, found, &s)
}

// Those that check.
#[tactic(auto, using(crate::proofs::Nothing::three))]
fn check_blocks(alloc: Global, found: &mut Items<u32>) -> Result<(), AllocError>
    ensures { OnOk result (found.new ≡ found.old ++ check_words) }
{
    check_block(alloc, found, addiu(V1, V1, LAST))?;
    check_block(alloc, found, addiu(V1, V1, LAST_BUT_ONE))?;
    check_block(alloc, found, sltiu(V1, V1, LOCAL_KIND))
}

// Those behind them.
#[tactic(auto, using(crate::proofs::Nothing::three))]
fn last_blocks(alloc: Global, found: &mut Items<u32>) -> Result<(), AllocError>
    ensures { OnOk result (found.new ≡ found.old ++ last_words) }
{
    fill(found, 4 * BLOCK_WORDS)?;
    let mut s = Snippet::new();
    new(&mut s);
    block(alloc, found, &s)?;
    fill(found, 2 * BLOCK_WORDS)
}

/// The words of the 15 blocks of the run-time routines, behind the block of the start: each routine in the block of its
/// number, and that of new in the thirteenth. Fails for want of memory alone.
#[tactic(auto, using(crate::proofs::Nothing::three))]
pub fn routines(alloc: Global) -> Result<Items<u32>, AllocError>
    ensures { IfOk result (λ found. found ≡ routine_words) }
{
    let mut found = Items::new(alloc);
    first_blocks(alloc, &mut found)?;
    check_blocks(alloc, &mut found)?;
    last_blocks(alloc, &mut found)?;
    Ok(found)
}

//! How a function that was built is finished.

ghost use Rattle.std.specs.Prelude.{◌≡◌, ◌≤◌, true, None, Some, length, take, MatchResult, if◌then◌else◌};
ghost use Rattle.limits.specs.declared.ops.TheConstants.{MOST_REGISTERS};
ghost use Rattle.code_arena.specs.Kept.{arena_of};
ghost use Rattle.icode_ops.specs.Finished.{IsFinished};
ghost use Rattle.icode_ir.specs.Build.{Build, finished};
ghost use Rattle.mips_model.specs.CodeServices as services;
ghost use Rattle.icode_service.specs.Made.{IsMade, IsBad};

use crate::table::is_arena_range;
use crate::tables::Tables;
use code_arena::CodeArena;
use icode_ir::{Builder, Phase};
use icode_ops::Op;
use limits::run::STACK_OF_A_CALL;
use mips_model::BadService;
use word32::map;

/// What a finished function has: so many words in the arena, and so many spills.
#[derive(Clone, Copy)]
pub(crate) struct Made {
    /// The words.
    pub(crate) words: u32,
    /// The registers with an interval that have a slot.
    pub(crate) spills: u32,
}

// Whether a frame of so many bytes has the words of a call and a slot for each register.
fn is_frame(bytes: u32, registers: u32) -> bool
    ensures { result ≡ services.is_frame bytes registers }
{
    u64::from(STACK_OF_A_CALL) + 4 * u64::from(registers) <= u64::from(bytes)
        && bytes <= map::STACK_BYTES
        && bytes % 4 == 0
}

// Why a function of so many registers that is done isn't finished at these words with this frame, whatever its places.
fn refusal(at: u32, most: u32, frame: u32, registers: u32) -> Option<BadService>
    ensures { result ≡ (if services.is_arena_range at most
        then (if services.is_frame frame registers then None else Some BadService.BadFrame)
        else Some BadService.OutsideArena) }
{
    if !is_arena_range(at, most) {
        return Some(BadService::OutsideArena);
    }
    if !is_frame(frame, registers) {
        return Some(BadService::BadFrame);
    }
    None
}

// Chooses the places of a finished list of ops, and writes its words.
fn write_code(
    tables: &mut Tables,
    ops: &[Op],
    places: &mut [u8],
    at: u32,
    most: u32,
    frame: u32,
    arena: &mut CodeArena,
) -> Result<Made, BadService>
    requires ops { (b : Build) × (ops.now ≡ finished b) × (length places.old ≡ b.registers)
        × IsFinished ops.now b.registers × (services.is_done b ≡ true) }
    requires taken { services.is_arena_range at most ≡ true }
    requires frame { services.is_frame frame (length places.old) ≡ true }
    ensures made { (b : Build) → ops.now ≡ finished b → length places.old ≡ b.registers → services.is_done b ≡ true →
        MatchResult result
        (λ made. IsMade b at most frame (arena_of arena.old) (arena_of arena.new) places.new made.spills made.words)
        (λ why. IsBad b at most frame why × (arena.new ≡ arena.old)) }
    ensures few { MatchResult result (λ made. made.spills ≤ length places.old) (λ _. Unit {0}) }
    ensures length { length places.new ≡ length places.old }
{
    let spills = tables.choose(ops, places);
    match tables.write(ops, places, at, most, frame, arena) {
        Ok(words) => Ok(Made { words, spills }),
        Err(_) => Err(BadService::Short),
    }
}

/// Finishes the function of a builder that is finished: its places stand in front of `next` then, and its words in the
/// arena. Where it is refused, the arena is as it was.
pub(crate) fn compile(
    builder: &Builder,
    tables: &mut Tables,
    next: &mut [u8],
    at: u32,
    most: u32,
    frame: u32,
    arena: &mut CodeArena,
) -> Result<Made, BadService>
    requires finished { builder.now.phase ≡ Phase.Finished }
    requires done { services.is_done builder.now.build ≡ true }
    requires room { MOST_REGISTERS ≤ length next.old }
    ensures made { MatchResult result
        (λ made. IsMade builder.now.build at most frame (arena_of arena.old) (arena_of arena.new)
        (take builder.now.build.registers next.new) made.spills made.words)
        (λ why. IsBad builder.now.build at most frame why × (arena.new ≡ arena.old)) }
    ensures few { MatchResult result (λ made. made.spills ≤ MOST_REGISTERS) (λ _. Unit {0}) }
    ensures registers { builder.now.build.registers ≤ MOST_REGISTERS }
    ensures length { length next.new ≡ length next.old }
{
    let ops = builder.ops();
    let registers = builder.registers();
    if let Some(why) = refusal(at, most, frame, registers) {
        return Err(why);
    }
    write_code(
        tables,
        ops,
        &mut next[..registers as usize],
        at,
        most,
        frame,
        arena,
    )
}

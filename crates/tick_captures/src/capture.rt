//! The captures of a program's ticks.

ghost use Rattle.std.specs.Prelude.{◌≡◌, IfOk, slice_get};
ghost use Rattle.tick_captures.specs.Captures.{captures_at, captures_of};

use crate::walk::Found;
use sqlite_items::{Items, at};
use std::alloc::{AllocError, Global};
use typed_tree::{CaptureKind, Tick, TickBody};

/// A capture of a tick.
#[derive(Clone, Copy, PartialEq, Eq)]
pub struct Capture {
    /// What is captured.
    pub kind: CaptureKind,
    /// The number of the first node of the tick's body that names it; nodes are numbered from 0, each before its parts.
    pub node: u32,
}

/// The captures of the tick of this number among a program's ticks, in the order of the text; of a tick that isn't
/// there, none. Fails for want of memory alone: a body of 2^32 nodes is in no memory.
pub fn captures(alloc: Global, ticks: &[Tick], tick: u32) -> Result<Items<Capture>, AllocError>
    ensures { IfOk result (λ found. found ≡ captures_at (slice_get ticks.now tick)) }
{
    match at(ticks, tick as usize) {
        None => Ok(Items::new(alloc)),
        Some(tick) => captures_in(alloc, &tick.body),
    }
}

// The captures that a body names.
#[tactic(auto, using(crate::proofs::Laws::found_are_captures))]
fn captures_in(alloc: Global, body: &TickBody) -> Result<Items<Capture>, AllocError>
    ensures { IfOk result (λ found. found ≡ captures_of body.now) }
{
    let mut found = Found::new(alloc);
    found.body(body)?;
    Ok(found.captures)
}

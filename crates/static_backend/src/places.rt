//! The places of the registers of a list of ops.

ghost use Rattle.std.specs.Prelude.{◌≡◌, ◌≤◌, IfOk, List, length};
ghost use Rattle.icode_ops.specs.Finished.{IsFinished};
ghost use Rattle.icode_ops.specs.Live.{AreIntervals};
ghost use Rattle.icode_ops.specs.Places.{IsLegal};
ghost use Rattle.icode_ops.specs.declared.interval.Interval.{Interval as SpecInterval};
ghost use Rattle.linear_scan_spec.specs.Scan.{places_of};

use icode_liveness::Live;
use icode_ops::{Interval, Op};
use linear_scan::{SLOT, Scanner};
use linear_scan_spec::intervals_are_scannable;
use std::alloc::{AllocError, Global};

// Finds the intervals of a finished list of ops, and scans them. There is a place for each register.
fn scan_places(
    live: &mut Live,
    scanner: &mut Scanner,
    ops: &[Op],
    out: &mut [Interval],
    places: &mut [u8],
)
    requires finished { IsFinished ops.now (length places.old) }
    requires room { length places.old ≤ length out.old }
    ensures scanned { (xs : List SpecInterval) × AreIntervals ops.now xs ×
        (places.new ≡ places_of (length places.old) xs) }
    ensures legal { IsLegal ops.now (length places.old) places.new }
{
    let count = live.intervals(ops, places.len() as u32, out);
    intervals_are_scannable();
    scanner.scan(&out[..count], places);
}

/// The places that linear scan gives to the registers of a finished list of ops. `out` is for their intervals, and
/// keeps its room for the next list.
///
/// # Errors
/// Where memory is wanting.
pub fn scanned_places(
    alloc: Global,
    live: &mut Live,
    scanner: &mut Scanner,
    out: &mut Vec<Interval>,
    ops: &[Op],
    registers: u32,
) -> Result<Vec<u8>, AllocError>
    requires { IsFinished ops.now registers }
    ensures scanned { IfOk result (λ made. (xs : List SpecInterval) × AreIntervals ops.now xs ×
        (made.items ≡ places_of registers xs)) }
    ensures legal { IfOk result (λ made. IsLegal ops.now registers made.items) }
{
    let none = Interval {
        reg: 0,
        start: 0,
        end: 0,
    };
    let room = out.len().max(registers as usize);
    out.resize(room, none)?;
    let mut made = vec![in alloc; SLOT; registers as usize]?;
    scan_places(live, scanner, ops, out, &mut made);
    Ok(made)
}

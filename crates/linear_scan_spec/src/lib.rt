//! The places that linear scan gives to registers, as definitions, and the laws of these places.
//!
//! The code that computes them stands in the crate `linear_scan`. Here each function is a law: it does nothing, and
//! its contract is the statement, so that callers have it by a call.
#![tactic(auto)]

ghost use Rattle.linear_scan_spec.specs.Laws.{IntervalsAreInRange, IntervalsAreScannable, KeepersAreByEnd};
ghost use Rattle.linear_scan_spec.specs.Laws.{PlacesAreApart, PlacesAreLegal, SpillsAreCrowded};

/// The intervals of the registers of a list of ops can be scanned: they are sorted, whole and of different registers.
pub fn intervals_are_scannable()
    ensures { IntervalsAreScannable }
{}

/// The intervals of a finished list of ops are those of its registers, so the scan may write a place for each.
pub fn intervals_are_in_range()
    ensures { IntervalsAreInRange }
{}

/// The keepers stand by their ends, and those with equal ends in the order of their visits, so the last of them is the
/// one that ends last, and of equal ends the one visited last.
pub fn keepers_are_by_end()
    ensures { KeepersAreByEnd }
{}

/// Two intervals that overlap have different places, unless both have slots.
pub fn places_are_apart()
    ensures { PlacesAreApart }
{}

/// The places of the intervals of a list of ops are legal for it.
pub fn places_are_legal()
    ensures { PlacesAreLegal }
{}

/// An interval is spilled only where twelve others, each of which ends no later, share a point with it.
pub fn spills_are_crowded()
    ensures { SpillsAreCrowded }
{}

//! Ranges that are taken by first fit and given back, and which words are free. There is no code to run here: each
//! function's contract is a law.
#![tactic(auto)]

ghost use Rattle.free_ranges.specs.Units.{UnitsAreWords};
ghost use Rattle.free_ranges.specs.Laws.{FirstFitIsFirstGap, FirstFitIsLeast, GivesThese, PackedIsASum};
ghost use Rattle.free_ranges.specs.Laws.{RangesStay, TakesThese};

/// First fit finds the least word where so many are free, or that there is none.
pub fn first_fit_is_least()
    ensures { FirstFitIsLeast }
{}

/// Ranges that are taken by first fit and given back stay apart, below the total.
pub fn ranges_stay()
    ensures { RangesStay }
{}

/// A range more takes exactly its words.
pub fn takes_these()
    ensures { TakesThese }
{}

/// A range that is given back gives exactly its words.
pub fn gives_these()
    ensures { GivesThese }
{}

/// First fit is the first of the free ranges, neighbouring ones merged, that has so many words.
pub fn first_gap()
    ensures { FirstFitIsFirstGap }
{}

/// Where none was given back first fit is the test of a sum, and the new range goes behind all others.
pub fn packed_is_a_sum()
    ensures { PackedIsASum }
{}

/// What is so of ranges in units of 64 words is so in words.
pub fn units_are_words()
    ensures { UnitsAreWords }
{}

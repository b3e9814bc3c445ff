//! Numbers with the bounds that the code's templates need.

ghost use Rattle.std.specs.Prelude.{◌≡◌, ◌<◌, ◌≤◌, ◌%◌, MatchOption};
ghost use Rattle.limits.specs.declared.ops.TheConstants.{MOST_CAPTURES};
ghost use Rattle.limits.specs.declared.program.TheConstants.{MOST_ARGUMENTS};
ghost use Rattle.word32.specs.declared.map.TheConstants.{SEGMENT_BYTES};

use limits::ops::MOST_CAPTURES;
use limits::program::MOST_ARGUMENTS;
use std::marker::Model;
use word32::map::SEGMENT_BYTES;

/// How many arguments a call passes: at most `MOST_ARGUMENTS`.
#[derive(Clone, Copy, Debug)]
pub struct ArgumentCount {
    count: u32,
}

impl Model for ArgumentCount {
    ghost use Rattle.std.specs.Prelude.{ℕ, ◌≤◌};
    ghost use Rattle.limits.specs.declared.program.TheConstants.{MOST_ARGUMENTS};

    ghost Value = { ℕ };

    ghost view = { λ a. a.count };

    ghost invariant = { λ a. a.count ≤ MOST_ARGUMENTS };

    ghost inverse = { λ n. record { count = n } };
}

impl ArgumentCount {
    /// The count, or None where it is over `MOST_ARGUMENTS`.
    pub fn new(count: u32) -> Option<ArgumentCount>
        ensures { MatchOption result (MOST_ARGUMENTS < count) (λ n. (n ≡ count) × (count ≤ MOST_ARGUMENTS)) }
    {
        if count <= MOST_ARGUMENTS {
            Some(ArgumentCount { count })
        } else {
            None
        }
    }

    /// The number, which is at most `MOST_ARGUMENTS`.
    pub fn get(self) -> u32
        ensures same { result ≡ self }
        ensures bound { self ≤ MOST_ARGUMENTS }
    {
        self.count
    }
}

/// Which argument of a call, or which parameter of a function, counted from 0: below `MOST_ARGUMENTS`.
#[derive(Clone, Copy, Debug)]
pub struct ArgumentIndex {
    index: u32,
}

impl Model for ArgumentIndex {
    ghost use Rattle.std.specs.Prelude.{ℕ, ◌<◌};
    ghost use Rattle.limits.specs.declared.program.TheConstants.{MOST_ARGUMENTS};

    ghost Value = { ℕ };

    ghost view = { λ a. a.index };

    ghost invariant = { λ a. a.index < MOST_ARGUMENTS };

    ghost inverse = { λ n. record { index = n } };
}

impl ArgumentIndex {
    /// The index, or None where it is not below `MOST_ARGUMENTS`.
    pub fn new(index: u32) -> Option<ArgumentIndex>
        ensures { MatchOption result (MOST_ARGUMENTS ≤ index) (λ n. (n ≡ index) × (index < MOST_ARGUMENTS)) }
    {
        if index < MOST_ARGUMENTS {
            Some(ArgumentIndex { index })
        } else {
            None
        }
    }

    /// The number, which is below `MOST_ARGUMENTS`.
    pub fn get(self) -> u32
        ensures same { result ≡ self }
        ensures bound { self < MOST_ARGUMENTS }
    {
        self.index
    }
}

/// Which captured word of a closure, counted from 0: below `MOST_CAPTURES`.
#[derive(Clone, Copy, Debug)]
pub struct CaptureIndex {
    index: u32,
}

impl Model for CaptureIndex {
    ghost use Rattle.std.specs.Prelude.{ℕ, ◌<◌};
    ghost use Rattle.limits.specs.declared.ops.TheConstants.{MOST_CAPTURES};

    ghost Value = { ℕ };

    ghost view = { λ a. a.index };

    ghost invariant = { λ a. a.index < MOST_CAPTURES };

    ghost inverse = { λ n. record { index = n } };
}

impl CaptureIndex {
    /// The index, or None where it is not below `MOST_CAPTURES`.
    pub fn new(index: u32) -> Option<CaptureIndex>
        ensures { MatchOption result (MOST_CAPTURES ≤ index) (λ n. (n ≡ index) × (index < MOST_CAPTURES)) }
    {
        if index < MOST_CAPTURES {
            Some(CaptureIndex { index })
        } else {
            None
        }
    }

    /// The number, which is below `MOST_CAPTURES`.
    pub fn get(self) -> u32
        ensures same { result ≡ self }
        ensures bound { self < MOST_CAPTURES }
    {
        self.index
    }
}

/// The address of a function that is called by a jump: a multiple of 4 below `SEGMENT_BYTES`, in bytes.
#[derive(Clone, Copy, Debug)]
pub struct CallAddress {
    address: u32,
}

impl Model for CallAddress {
    ghost use Rattle.std.specs.Prelude.{ℕ, ◌<◌, ◌≡◌, ◌%◌};
    ghost use Rattle.word32.specs.declared.map.TheConstants.{SEGMENT_BYTES};

    ghost Value = { ℕ };

    ghost view = { λ a. a.address };

    ghost invariant = { λ a. (a.address < SEGMENT_BYTES) × (a.address % 4 ≡ 0) };

    ghost inverse = { λ n. record { address = n } };
}

impl CallAddress {
    /// The address, or None where it is no multiple of 4 below `SEGMENT_BYTES`.
    pub fn new(address: u32) -> Option<CallAddress>
        ensures { MatchOption result
            ((address < SEGMENT_BYTES) × (address % 4 ≡ 0) → ⊥)
            (λ n. (n ≡ address) × (address < SEGMENT_BYTES) × (address % 4 ≡ 0)) }
    {
        if address < SEGMENT_BYTES && address % 4 == 0 {
            Some(CallAddress { address })
        } else {
            None
        }
    }

    /// The address, a multiple of 4 below `SEGMENT_BYTES`.
    pub fn get(self) -> u32
        ensures same { result ≡ self }
        ensures bound { self < SEGMENT_BYTES }
        ensures aligned { self % 4 ≡ 0 }
    {
        self.address
    }
}

//! What the functions of a program are compiled with, one after the other.

use icode_ir::Builder;
use icode_liveness::Live;
use icode_ops::Interval;
use linear_scan::Scanner;
use std::alloc::{AllocError, Global};

/// The builder, and the tables of live intervals and of linear scan. Each begins with megabytes of zeros, so they are
/// made once for all functions of a program.
pub struct Tables {
    /// Makes the ops of one function at a time.
    pub builder: Builder,
    /// Finds the live intervals of their registers.
    pub live: Live,
    /// Gives these their places.
    pub scanner: Scanner,
    /// Room for the intervals of one function at a time.
    pub intervals: Vec<Interval>,
}

impl Drop for Tables {
    fn drop(self) {
        let Tables {
            builder: _,
            live: _,
            scanner: _,
            intervals: _,
        } = self;
    }
}

impl Tables {
    /// The tables for any number of functions.
    ///
    /// # Errors
    /// Where memory is wanting.
    pub fn new(alloc: Global) -> Result<Tables, AllocError> {
        let builder = Builder::new(alloc)?;
        let live = Live::new(alloc)?;
        let scanner = Scanner::new(alloc)?;
        Ok(Tables {
            builder,
            live,
            scanner,
            intervals: Vec::new(alloc),
        })
    }
}

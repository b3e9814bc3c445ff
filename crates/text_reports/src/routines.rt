//! Prints the words of the run-time routines, a line for each of the 15 blocks of 64 words, behind a head.

use crate::words::print_words;
use runtime_routines::routines;
use std::io;

/// Prints the head and the lines of all blocks.
///
/// # Errors
/// Where one can't be written, or memory was not found.
pub fn report(rt: &HostRuntime) -> io::Result<()> {
    rt.println("== routines")?;
    let found = routines(rt.alloc())?;
    for (number, block) in found.as_slice().chunks(64).enumerate() {
        print!(rt; "{}:", number.saturating_add(1))?;
        print_words(rt, block)?;
    }
    Ok(())
}

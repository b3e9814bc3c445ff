//! Words as trials print them, and where functions are in trials.

use icode_ops::CallAddress;
use std::alloc::{AllocError, Global};
use std::io;

/// Where so many functions are in these trials: every 256 bytes from 0x00401000 on.
///
/// # Errors
/// Where memory is wanting.
pub fn starts(alloc: Global, count: usize) -> Result<Vec<CallAddress>, AllocError> {
    let mut all = Vec::new(alloc);
    let mut at: u32 = 0x0040_1000;
    for _ in 0..count {
        if let Some(start) = CallAddress::new(at) {
            all.push(start)?;
        }
        at = at.saturating_add(256);
    }
    Ok(all)
}

/// Prints words, each behind a blank, and a line feed.
///
/// # Errors
/// Where they can't be written.
pub fn print_words(rt: &HostRuntime, words: &[u32]) -> io::Result<()> {
    for word in words {
        print!(rt; " {word:08x}")?;
    }
    println!(rt)
}

//! The line of a text that isn't accepted.

use std::alloc::AllocError;
use std::io;
use tick_tree::Deny;

/// Prints the line of a text that isn't accepted: its first fault, by number and name, with the line that it is on.
///
/// # Errors
/// Where the line can't be written, and where the text was denied for want of memory.
pub fn report_deny(rt: &HostRuntime, title: &str, why: Deny) -> io::Result<()> {
    match why {
        Deny::Refused(fault) => println!(rt;
            "{title}: {} {} on line {}",
            fault.kind.number(),
            fault.kind.name(),
            fault.line
        ),
        Deny::NoMemory => Err(io::Error::from(AllocError)),
    }
}

//! Prints a line for each tick of each accepted text: of each capture of the tick its kind and the number of the first
//! node of the tick's body that names it.

use std::io;
use tick_captures::{Capture, captures};
use typed_tree::{Answer, CaptureKind};
use wellformed::Typed;

// The name of a kind.
fn name(kind: CaptureKind) -> &'static str {
    match kind {
        CaptureKind::Dollar => "dollar",
        CaptureKind::Address => "address",
        CaptureKind::Splice(Answer::Value) => "splice",
        CaptureKind::Splice(Answer::Void) => "statement",
        CaptureKind::Variable => "variable",
    }
}

// The line of the tick with this number.
fn print_captures(rt: &HostRuntime, title: &str, number: u32, found: &[Capture]) -> io::Result<()> {
    print!(rt; "{title} {number}:")?;
    for capture in found {
        print!(rt; " {} {}", name(capture.kind), capture.node)?;
    }
    rt.println(".")
}

/// Prints the lines of an accepted text.
///
/// # Errors
/// Where one can't be written, or memory was not found.
pub fn report(rt: &HostRuntime, title: &str, program: &Typed) -> io::Result<()> {
    let count = u32::try_from(program.ticks().len()).unwrap_or(u32::MAX);
    for number in 0..count {
        let found = captures(rt.alloc(), program.ticks(), number)?;
        let printed = print_captures(rt, title, number, found.as_slice());
        drop(found);
        printed?;
    }
    Ok(())
}

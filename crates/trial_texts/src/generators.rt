//! Prints a line for each tick of each accepted text: the words of the function that generates its code. The static
//! functions of a text are at 0x00401000 and from there on every 256 bytes.

use generator::{Room, tick_words};
use std::io;
use std::mem::forget;
use text_reports::{print_words, starts};
use tick_lower::Addresses;
use wellformed::Typed;

// The lines of the ticks, in the order of the text.
fn report_ticks(
    rt: &HostRuntime,
    title: &str,
    program: &Typed,
    addresses: &Addresses<'_>,
    room: &mut Room,
) -> io::Result<()> {
    let count = u32::try_from(program.ticks().len()).unwrap_or(u32::MAX);
    for number in 0..count {
        print!(rt; "{title} {number}:")?;
        let found = tick_words(rt.alloc(), program, number, addresses, room)?;
        let printed = print_words(rt, found.as_slice());
        drop(found);
        printed?;
    }
    Ok(())
}

/// Prints the lines of an accepted text. The room that its functions take is left to the end of the process.
pub(crate) fn report(rt: &HostRuntime, title: &str, program: &Typed) -> io::Result<()> {
    let starts = starts(rt.alloc(), program.functions().len())?;
    let mut room = Room::new(rt.alloc());
    let addresses = Addresses::of_functions(&starts);
    let printed = report_ticks(rt, title, program, &addresses, &mut room);
    forget(room);
    drop(starts);
    printed
}

//! Prints of each text its first static fault with its line, or that it is accepted.
//!
//! Where the title begins with `sizes`, the nodes, the bytes of frame objects and the parameters of each function of an
//! accepted text are printed, the nodes of each tick and how many bytes its globals and strings have; where it begins
//! with `ticks`, all but what is of functions.

use std::io;
use wellformed::Typed;

/// Prints the line of an accepted text.
///
/// # Errors
/// Where it can't be written.
pub fn report(rt: &HostRuntime, title: &str, program: &Typed) -> io::Result<()> {
    print!(rt; "{title}:")?;
    if title.starts_with("sizes") {
        for f in program.functions() {
            print!(rt; " {}/{}/{}", f.size, f.object, f.params)?;
        }
        rt.print(";")?;
    } else if !title.starts_with("ticks") {
        return rt.println(" accepted");
    }
    for t in program.ticks() {
        print!(rt; " {}", t.size)?;
    }
    println!(rt; "; {} bytes", program.image().len())
}

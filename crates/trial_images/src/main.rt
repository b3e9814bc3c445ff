//! Tries the machine on image files, which the rows of the input give or a generator makes from them: those that were
//! written to be hostile stop as the machine's rules say, those that call the run-time routines as the rules of
//! closures say, and the others as a second machine says: files of random instructions, good ones with a few bits
//! turned, and those that make code as they run.
#![tactic(auto)]

mod generator;
mod row;
mod shown;
mod trial;

use std::io;
use trial::answer_rows;

fn main(rt: HostRuntime) -> io::Result<()> {
    answer_rows(&rt)
}

//! What becomes of builder ops: the ops that are built of them, the words that these are expanded to, what the services
//! that make code answer, and the places of linear scan.
//!
//! The lists of ops and the calls of services stand in files, which lie where this program runs (`data/`). Called with
//! a word, this program takes the list on its standard input to one stage: the host instructions of a stage are those
//! of its run without those of the run of the stage before, which `bench/icode` counts.
//!
//! What is made once, all its tables, is left to the end of the process.
#![tactic(auto)]

mod built;
mod expanded;
mod form;
mod lines;
mod lists;
mod served;
mod stages;

use icode_ir::Builder;
use icode_liveness::Live;
use linear_scan::Scanner;
use stages::Stage;
use std::mem::forget;
use std::{env, io};

// What is printed where no stage is asked for.
fn report_all(
    rt: &HostRuntime,
    builder: &mut Builder,
    live: &mut Live,
    scanner: &mut Scanner,
) -> io::Result<()> {
    lists::report(rt, builder)?;
    served::report(rt)?;
    stages::report_file(rt, builder, live, scanner)
}

// What is asked for, with these tables and a scanner.
fn report_scanned(
    rt: &HostRuntime,
    stage: Option<Stage>,
    builder: &mut Builder,
    live: &mut Live,
) -> io::Result<()> {
    let mut scanner = Scanner::new(rt.alloc())?;
    let printed = match stage {
        Some(stage) => stages::report_input(rt, stage, builder, live, &mut scanner),
        None => report_all(rt, builder, live, &mut scanner),
    };
    forget(scanner);
    printed
}

// The same with this builder.
fn report_built(rt: &HostRuntime, stage: Option<Stage>, builder: &mut Builder) -> io::Result<()> {
    let mut live = Live::new(rt.alloc())?;
    let printed = report_scanned(rt, stage, builder, &mut live);
    forget(live);
    printed
}

// What the word behind the program's name asks for, if anything.
fn asked(rt: &HostRuntime) -> io::Result<Option<Stage>> {
    let mut words = env::args(rt)?;
    let _ = words.next();
    match words.next() {
        Some(word) => Ok(stages::stage_of(&word)),
        None => Ok(None),
    }
}

fn main(rt: HostRuntime) -> io::Result<()> {
    let stage = asked(&rt)?;
    let mut builder = Builder::new(rt.alloc())?;
    let printed = report_built(&rt, stage, &mut builder);
    forget(builder);
    printed
}

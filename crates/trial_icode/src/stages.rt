//! Takes the functions of lists of builder ops, in the form of `lines`, to a given stage: prints of each how many ops,
//! registers and intervals there are, as far as it came, and behind the last stage the places of the registers. All
//! memory is taken at each stage alike.

ghost use Rattle.std.specs.Prelude.{◌≡◌, length};
ghost use Rattle.icode_ops.specs.Finished.{IsFinished};
ghost use Rattle.limits.specs.declared.ops.TheConstants.{MOST_REGISTERS};

use crate::lines;
use crate::served::print_places;
use icode_ir::{BuildOp, Builder};
use icode_liveness::Live;
use icode_ops::{Interval, Op};
use limits::ops::MOST_REGISTERS;
use linear_scan::{SLOT, Scanner};
use linear_scan_spec::intervals_are_scannable;
use std::fs;
use std::io::{self, Read};
use std::mem::forget;

/// How far a function is taken.
#[derive(Clone, Copy)]
pub(crate) enum Stage {
    /// Its list is read.
    Read,
    /// And its ops are built.
    Emit,
    /// And the builder is finished.
    Finish,
    /// And the live intervals are found.
    Intervals,
    /// And the places are.
    Scan,
    /// And the places are printed.
    Places,
}

/// The stage of a name.
pub(crate) fn stage_of(word: &str) -> Option<Stage> {
    match word {
        "read" => Some(Stage::Read),
        "emit" => Some(Stage::Emit),
        "finish" => Some(Stage::Finish),
        "intervals" => Some(Stage::Intervals),
        "scan" => Some(Stage::Scan),
        _ => None,
    }
}

// Finds the intervals of a finished list of ops and scans them, as far as the stage asks for it. Answers how many
// intervals there are.
fn allocate(
    stage: Stage,
    live: &mut Live,
    scanner: &mut Scanner,
    out: &mut [Interval],
    places: &mut [u8],
    ops: &[Op],
    registers: u32,
) -> usize
    requires finished { IsFinished ops.now registers }
    requires out { length out.old ≡ MOST_REGISTERS }
    requires places { length places.old ≡ MOST_REGISTERS }
{
    if matches!(stage, Stage::Finish) {
        return 0;
    }
    let count = live.intervals(ops, registers, out);
    if matches!(stage, Stage::Scan | Stage::Places) {
        intervals_are_scannable();
        scanner.scan(&out[..count], places);
    }
    count
}

// Prints what is counted.
fn print_counts(rt: &HostRuntime, ops: usize, registers: u32, intervals: usize) -> io::Result<()> {
    print!(rt; "ops {ops} registers {registers} intervals {intervals}")
}

// Takes a list of ops to the stage.
fn report_ops(
    rt: &HostRuntime,
    stage: Stage,
    builder: &mut Builder,
    live: &mut Live,
    scanner: &mut Scanner,
    out: &mut [Interval],
    places: &mut [u8],
    ops: &[BuildOp],
) -> io::Result<()>
    requires out { length out.old ≡ MOST_REGISTERS }
    requires places { length places.old ≡ MOST_REGISTERS }
{
    builder.begin(0);
    if matches!(stage, Stage::Read) {
        return print_counts(rt, 0, 0, 0);
    }
    let _ = builder.emit_all(ops);
    let registers = builder.registers();
    if matches!(stage, Stage::Emit) {
        return print_counts(rt, 0, registers, 0);
    }
    match builder.finish() {
        Ok(()) => {
            let ops = builder.ops();
            let count = allocate(stage, live, scanner, out, places, ops, registers);
            print_counts(rt, ops.len(), registers, count)
        }
        Err(_) => print_counts(rt, 0, registers, 0),
    }
}

// Takes the list of each line to the stage.
fn report_lines(
    rt: &HostRuntime,
    stage: Stage,
    builder: &mut Builder,
    live: &mut Live,
    scanner: &mut Scanner,
    out: &mut [Interval],
    places: &mut [u8],
    ops: &mut Vec<BuildOp>,
    text: &str,
) -> io::Result<()>
    requires out { length out.old ≡ MOST_REGISTERS }
    requires places { length places.old ≡ MOST_REGISTERS }
{
    for line in text.lines() {
        ops.clear();
        let _ = lines::read(ops, line)?;
        report_ops(rt, stage, builder, live, scanner, out, places, ops)?;
        if matches!(stage, Stage::Places) {
            let count = (builder.registers() as usize).min(places.len());
            print_places(rt, &places[..count])?;
        }
        println!(rt)?;
    }
    Ok(())
}

// The same with room for the largest answers.
fn report(
    rt: &HostRuntime,
    stage: Stage,
    builder: &mut Builder,
    live: &mut Live,
    scanner: &mut Scanner,
    text: &str,
) -> io::Result<()> {
    let none = Interval {
        reg: 0,
        start: 0,
        end: 0,
    };
    let mut out = vec![in rt.alloc(); none; MOST_REGISTERS as usize]?;
    let mut places = vec![in rt.alloc(); SLOT; MOST_REGISTERS as usize]?;
    let mut ops = Vec::new(rt.alloc());
    let printed = report_lines(
        rt,
        stage,
        builder,
        live,
        scanner,
        &mut out,
        &mut places,
        &mut ops,
        text,
    );
    forget(ops);
    forget(places);
    forget(out);
    printed
}

/// Takes the lists of the file to the last stage.
pub(crate) fn report_file(
    rt: &HostRuntime,
    builder: &mut Builder,
    live: &mut Live,
    scanner: &mut Scanner,
) -> io::Result<()> {
    println!(rt; "== places")?;
    let text = fs::read_to_string(rt, "places")?;
    report(rt, Stage::Places, builder, live, scanner, &text)
}

/// Takes the lists on standard input to a stage.
pub(crate) fn report_input(
    rt: &HostRuntime,
    stage: Stage,
    builder: &mut Builder,
    live: &mut Live,
    scanner: &mut Scanner,
) -> io::Result<()> {
    let mut text = String::new(rt.alloc());
    rt.reader().read_to_string(&mut text)?;
    report(rt, stage, builder, live, scanner, &text)
}

//! A short program, in one call and in two, and one that makes a function.

ghost use Rattle.std.specs.Prelude.{◌≡◌, ◌≤◌, ◌+◌, ◌^◌, None, length};
ghost use Rattle.mips_machine.specs.Progress.{progress_of};

use host_edge::Ending;
use image_file::read;
use memory_edge::{MemSink, MemSource};
use mips_machine::{Machine, Stop, run_twice};
use std::alloc::{AllocError, Global};

// The image of a program that reads a byte, writes it, writes the number -7, and ends with it.
const PROGRAM: [u8; 64] = [
    0x54, 0x49, 0x43, 0x4b, 0, 0, 0, 1, 0, 0x40, 0, 0, 0, 0, 0, 10, 0, 0, 0, 0, 0, 0, 0, 0, // the head
    0x34, 2, 0, 12, 0, 0, 0, 12, // ori $2,$0,12 and syscall
    0, 0x40, 0x20, 0x21, 0x34, 2, 0, 11, 0, 0, 0, 12, // addu $4,$2,$0 and ori $2,$0,11 and syscall
    0x24, 4, 0xff, 0xf9, 0x34, 2, 0, 1, 0, 0, 0, 12, // addiu $4,$0,-7 and ori $2,$0,1 and syscall
    0x34, 2, 0, 10, 0, 0, 0, 12, // ori $2,$0,10 and syscall
];

// The image of a program that makes a function of the ops Const 5 and Drop, flushes it, publishes it as row 1, calls
// it, and ends with its answer.
const MAKER: [u8; 144] = [
    0x54, 0x49, 0x43, 0x4b, 0, 0, 0, 1, 0, 0x40, 0, 0, 0, 0, 0, 0x1e, 0, 0, 0, 0, 0, 0, 0, 0, // the head
    0x3c, 0x1c, 0x20, 0x51, 0x3c, 0x1d, 0x80, 0, // lui $28,0x2051 and lui $29,0x8000
    0x34, 2, 0, 0x40, 0, 0, 0, 0x0c, // ori $2,$0,64 and syscall
    0x34, 4, 0, 1, 0x34, 5, 0, 5, // ori $4,$0,1 and ori $5,$0,5
    0x34, 2, 0, 0x41, 0, 0, 0, 0x0c, // ori $2,$0,65 and syscall
    0x34, 4, 0, 8, 0x34, 2, 0, 0x41, // ori $4,$0,8 and ori $2,$0,65
    0, 0, 0, 0x0c, // syscall
    0x3c, 4, 4, 0, 0x34, 5, 0, 0x20, // lui $4,0x0400 and ori $5,$0,32
    0x34, 6, 0, 0x84, 0x34, 2, 0, 0x42, // ori $6,$0,132 and ori $2,$0,66
    0, 0, 0, 0x0c, // syscall
    0x34, 5, 0, 0x20, 0x34, 2, 0, 0x43, // ori $5,$0,32 and ori $2,$0,67
    0, 0, 0, 0x0c, // syscall
    0x34, 4, 0, 1, 0x3c, 5, 4, 0, // ori $4,$0,1 and lui $5,0x0400
    0x34, 6, 0, 0, 0x34, 2, 0, 0x44, // ori $6,$0,0 and ori $2,$0,68
    0, 0, 0, 0x0c, // syscall
    0x3c, 8, 4, 0, 1, 0, 0xf8, 9, // lui $8,0x0400 and jalr $31,$8
    0, 0, 0, 0, // nop
    0, 0x40, 0x20, 0x21, 0x34, 2, 0, 0x0a, // addu $4,$2,$0 and ori $2,$0,10
    0, 0, 0, 0x0c, // syscall
];

// A run, of so many instructions first and so many then, and what is seen of it.
struct Run<'a> {
    image: &'a [u8],
    first: u64,
    second: u64,
    stop: Stop,
    // The instructions that were executed.
    steps: u64,
    // What the services counted: ops, functions, words, flushes and spills.
    counts: [u64; 5],
    // The places of the function that was made last.
    places: &'a [u8],
    written: &'a [u8],
}

const TO_ITS_END: Run<'static> = Run {
    image: &PROGRAM,
    first: 1000,
    second: 0,
    stop: Stop::Ended(Ending::Done(249)),
    steps: 10,
    counts: [0; 5],
    places: &[],
    written: b"a-7",
};

const STOPPED_TWICE: Run<'static> = Run {
    image: &PROGRAM,
    first: 4,
    second: 4,
    stop: Stop::Steps,
    steps: 8,
    counts: [0; 5],
    places: &[],
    written: b"a-7",
};

const OF_A_MAKER: Run<'static> = Run {
    image: &MAKER,
    first: 1000,
    second: 0,
    stop: Stop::Ended(Ending::Done(0)),
    steps: 61,
    counts: [2, 1, 32, 1, 0],
    places: &[0],
    written: b"",
};

// Whether the machine stops so, after so many instructions, and has counted that.
fn stops_so(machine: &mut Machine, run: &Run<'_>, input: &mut MemSource, out: &mut MemSink) -> bool
    requires fresh { machine.old.stopped ≡ None }
    requires room { (progress_of machine.old).steps + run.now.first + run.now.second ≤ 2 ^ 40 }
{
    let stop = run_twice(machine, input, out, run.first, run.second);
    let counts = machine.counts();
    let counted = [
        counts.ops,
        counts.functions,
        counts.words,
        counts.flushes,
        counts.spills,
    ];
    stop == run.stop && machine.steps() == run.steps && counted == run.counts
}

// Whether it does, and keeps those places.
fn keeps_places(
    machine: Machine,
    run: &Run<'_>,
    input: &mut MemSource,
    out: &mut MemSink,
) -> [bool; 3]
    requires fresh { machine.stopped ≡ None }
    requires room { (progress_of machine).steps + run.now.first + run.now.second ≤ 2 ^ 40 }
{
    let mut machine = machine;
    let stops = stops_so(&mut machine, run, input, out);
    let are_kept = machine.choices() == run.places;
    let choices = machine.into_choices();
    let are_given = choices.as_slice() == run.places;
    drop(choices);
    [stops, are_kept, are_given]
}

fn runs_so(
    alloc: Global,
    run: &Run<'_>,
    input: &mut MemSource,
    out: &mut MemSink,
) -> Result<[bool; 3], AllocError>
    requires image { length run.now.image.now ≤ 200 }
    requires room { run.now.first + run.now.second ≤ 1000 }
{
    match read(alloc, run.image) {
        Ok(image) => Ok(keeps_places(Machine::new(alloc, &image)?, run, input, out)),
        Err(_) => Ok([false; 3]),
    }
}

// Whether all of the run is so.
fn is_so(alloc: Global, run: &Run<'_>) -> Result<bool, AllocError>
    requires image { length run.now.image.now ≤ 200 }
    requires room { run.now.first + run.now.second ≤ 1000 }
{
    let mut input = MemSource::new(alloc, b"ab", &[])?;
    let mut out = MemSink::new(alloc, 9, &[])?;
    let are_so = runs_so(alloc, run, &mut input, &mut out);
    let is_written = out.taken() == run.written;
    drop(out);
    drop(input);
    Ok(are_so? == [true; 3] && is_written)
}

#[test]
fn programs_run_at_once_and_in_parts(rt: HostRuntime) {
    let are_so = [
        is_so(rt.alloc(), &TO_ITS_END),
        is_so(rt.alloc(), &STOPPED_TWICE),
        is_so(rt.alloc(), &OF_A_MAKER),
    ];
    assert!(rt; are_so == [Ok(true), Ok(true), Ok(true)]);
}

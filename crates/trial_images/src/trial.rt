//! What is seen of the runs.

use crate::generator::{Form, Generator};
use crate::row::{self, Images, Kind, Row};
use crate::shown::Shown;
use hex::{decode, encode};
use image_file::{Image, ImageDeny, read};
use limits::run::MOST_STEPS;
use limits::text::LONGEST_IMAGE;
use memory_edge::{MemSink, MemSource};
use mips_machine::{Machine, Stop};
use std::alloc::{AllocError, Global};
use std::io;

/// The bytes that a run may put out.
const ROOM: usize = 16;

/// The bytes that a run may read.
const INPUT: &[u8] = b"input";

/// The image file that the machine is made with, which nobody runs: one word of text.
const FIRST: &[u8] = &[
    b'T', b'I', b'C', b'K', 0, 0, 0, 1, 0, 0x40, 0, 0, 0, 0, 0, 1, 0, 0, 0, 0, 0, 0, 0, 0, 0, 0, 0,
    0,
];

/// Prints what is seen of a run: how it stopped, its instructions, what services did, and the bytes that it put out.
fn print_seen(
    rt: &HostRuntime,
    machine: &Machine,
    stop: Stop,
    bytes: &[u8],
    is_counted: bool,
) -> io::Result<()> {
    let bytes = encode(rt.alloc(), bytes)?;
    let steps = machine.steps();
    let counts = machine.counts();
    let printed = if is_counted {
        println!(rt;
            "{}, steps {steps}, ops {}, functions {}, words {}, spills {}, flushes {}, out {bytes}.",
            Shown(stop),
            counts.ops,
            counts.functions,
            counts.words,
            counts.spills,
            counts.flushes
        )
    } else {
        println!(rt;
            "{}, steps {steps}, flushes {}, out {bytes}.",
            Shown(stop),
            counts.flushes
        )
    };
    drop(bytes);
    printed
}

/// Runs the image, and prints what is seen of it.
fn run(
    rt: &HostRuntime,
    machine: &mut Machine,
    image: &Image,
    most: u64,
    is_counted: bool,
) -> io::Result<()> {
    machine.load(image)?;
    let mut input = MemSource::new(rt.alloc(), INPUT, &[])?;
    let mut out = MemSink::new(rt.alloc(), ROOM, &[])?;
    let stop = machine.run(&mut input, &mut out, most.min(MOST_STEPS));
    drop(input);
    let printed = print_seen(rt, machine, stop, out.taken(), is_counted);
    drop(out);
    printed
}

/// Prints what comes of an image file: the rule that it breaks, or what is seen of its run.
fn try_file(
    rt: &HostRuntime,
    machine: &mut Machine,
    bytes: &[u8],
    steps: u64,
    is_counted: bool,
) -> io::Result<()> {
    if bytes.len() > LONGEST_IMAGE {
        return println!(rt; "too long.");
    }
    match read(rt.alloc(), bytes) {
        Ok(image) => {
            let printed = run(rt, machine, &image, steps, is_counted);
            drop(image);
            printed
        }
        Err(ImageDeny::Bad(fault)) => println!(rt; "BadImage({}).", fault.number()),
        Err(ImageDeny::NoMemory) => println!(rt; "no memory."),
    }
}

/// The file of a number that is made from one.
fn made(
    alloc: Global,
    images: &Images<'_>,
    number: u32,
    file: &[u8],
    forms: &[Form],
) -> Result<Vec<u8>, AllocError> {
    let mut generator = Generator::new(number);
    match images.kind {
        Kind::Given => file.to_vec(alloc),
        Kind::Random => generator.filled(alloc, file, images.from, forms),
        Kind::Mutated => generator.turned(alloc, file, images.from),
    }
}

/// Tries the files that are made from one.
fn try_images(
    rt: &HostRuntime,
    machine: &mut Machine,
    images: &Images<'_>,
    file: &[u8],
    forms: &[Form],
) -> io::Result<()> {
    for number in 0..images.count {
        match images.kind {
            Kind::Given => print!(rt; "{}: ", images.name)?,
            _ => print!(rt; "{} {number}: ", images.name)?,
        }
        let bytes = made(rt.alloc(), images, number, file, forms)?;
        let tried = try_file(rt, machine, &bytes, images.steps, images.is_counted);
        drop(bytes);
        tried?;
    }
    Ok(())
}

/// Prints what comes of a row; a form is kept until the next section.
fn answer(
    rt: &HostRuntime,
    machine: &mut Machine,
    row: Row<'_>,
    forms: &mut Vec<Form>,
) -> io::Result<()> {
    match row {
        Row::Section { name } => {
            forms.clear();
            println!(rt; "== {name}")
        }
        Row::Form { form } => Ok(forms.push(form)?),
        Row::Images { images, digits } => match decode(rt.alloc(), digits) {
            Ok(file) => {
                let tried = try_images(rt, machine, &images, &file, forms);
                drop(file);
                tried
            }
            Err(_) => println!(rt; "no digits"),
        },
    }
}

/// Prints what comes of the rows of a text, a line each.
fn answer_lines(
    rt: &HostRuntime,
    machine: &mut Machine,
    text: &str,
    forms: &mut Vec<Form>,
) -> io::Result<()> {
    for line in text.lines() {
        match row::read(line) {
            Some(row) => answer(rt, machine, row, forms)?,
            None => println!(rt; "no row")?,
        }
    }
    Ok(())
}

/// Prints what comes of the rows of the standard input, on one machine.
fn answer_all(rt: &HostRuntime, machine: &mut Machine) -> io::Result<()> {
    let text = io::read_to_string(rt.alloc(), rt.reader())?;
    let mut forms = Vec::new(rt.alloc());
    let answered = answer_lines(rt, machine, &text, &mut forms);
    drop(forms);
    drop(text);
    answered
}

/// Prints what comes of the rows of the standard input, a line each. The machine is loaded with each image in turn: to
/// make one takes its memory anew.
pub fn answer_rows(rt: &HostRuntime) -> io::Result<()> {
    match read(rt.alloc(), FIRST) {
        Ok(image) => {
            let mut machine = Machine::new(rt.alloc(), &image)?;
            let answered = answer_all(rt, &mut machine);
            drop(machine);
            answered
        }
        Err(_) => println!(rt; "no first image"),
    }
}

//! Reads lists of builder ops from lines.
//!
//! A list is `PARAMETERS OP OP ..`. An OP is the number of a builder op and its arguments, with commas between them;
//! `N*` before it repeats it.

use icode_ir::{BuildOp, op};
use icode_ops::{ArgumentIndex, CaptureIndex, ClosureKind, RunKind};
use std::alloc::AllocError;

// An op that code which runs may not ask for.
fn static_op(code: u32, a: u32, b: u32, c: u32) -> Option<BuildOp> {
    let op = match code {
        24 => BuildOp::Run {
            routine: RunKind::from_number(a)?,
        },
        25 => BuildOp::FrameAddress { offset: a },
        26 => BuildOp::Clear {
            offset: a,
            words: b,
        },
        27 => BuildOp::New {
            address: a,
            kind: ClosureKind::from_number(b)?,
            captures: c,
        },
        28 => BuildOp::Put {
            index: CaptureIndex::new(a)?,
        },
        29 => BuildOp::Parameter {
            index: ArgumentIndex::new(a)?,
        },
        _ => return None,
    };
    Some(op)
}

// The number that a word says. Where a form of code is to be said it is a word, 0 is `static`, and 1 is `compiled`.
fn number(word: &str) -> Option<u32> {
    match word {
        "static" => Some(0),
        "compiled" => Some(1),
        _ => word.parse::<u32>().ok(),
    }
}

/// The numbers of a text, five at most, with this between them, and 0 for those that aren't there.
pub(crate) fn numbers(text: &str, between: char) -> Option<[u32; 5]> {
    let mut found = [0; 5];
    let mut count: usize = 0;
    for word in text.split(between) {
        *found.get_mut(count)? = number(word)?;
        count = count.saturating_add(1);
    }
    Some(found)
}

// An op with its arguments behind it, and how often it stands.
fn repeated_op(word: &str) -> Option<(usize, BuildOp)> {
    let (times, text) = word.split_once('*').unwrap_or(("1", word));
    let times = times.parse::<usize>().ok()?;
    let [code, a, b, c, _] = numbers(text, ',')?;
    match op(code, a, b) {
        Some(op) => Some((times, op)),
        None => Some((times, static_op(code, a, b, c)?)),
    }
}

// Adds an op so many times.
fn push_times(ops: &mut Vec<BuildOp>, times: usize, op: &BuildOp) -> Result<(), AllocError> {
    for _ in 0..times {
        ops.push(*op)?;
    }
    Ok(())
}

// Adds the ops of a line, unless one of its words isn't of that form.
fn push_words(ops: &mut Vec<BuildOp>, line: &str) -> Result<bool, AllocError> {
    for word in line.split_whitespace() {
        match repeated_op(word) {
            Some((times, op)) => push_times(ops, times, &op)?,
            None => return Ok(false),
        }
    }
    Ok(true)
}

/// Adds the ops of a line, and gives the count of parameters, or None where the line isn't of that form.
pub(crate) fn read(ops: &mut Vec<BuildOp>, line: &str) -> Result<Option<u32>, AllocError> {
    let (first, rest) = line.trim().split_once(' ').unwrap_or((line.trim(), ""));
    if push_words(ops, rest)? {
        Ok(first.parse::<u32>().ok())
    } else {
        Ok(None)
    }
}

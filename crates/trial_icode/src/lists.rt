//! Files with a line for each list of builder ops, `TITLE | REST`, and what a builder makes of a list. An empty line is
//! none.

ghost use Rattle.std.specs.Prelude.{◌≡◌, IfOk, true};
ghost use Rattle.icode_ir.specs.declared.builder.Phase.TheVariants.{Finished};

use crate::{built, expanded};
use icode_ir::{BuildOp, Builder};
use std::mem::forget;
use std::{fs, io};

/// Builds a list, and says whether it is finished; if not, the refusal is printed.
pub(crate) fn is_built(
    rt: &HostRuntime,
    builder: &mut Builder,
    parameters: u32,
    ops: &[BuildOp],
) -> io::Result<bool>
    ensures { IfOk result (λ b. b ≡ true → builder.new.phase ≡ Finished) }
{
    builder.begin(parameters.min(8));
    if let Err(fault) = builder.emit_all(ops) {
        println!(rt; " {fault:?}")?;
        return Ok(false);
    }
    if let Err(fault) = builder.finish() {
        println!(rt; " {fault:?}")?;
        return Ok(false);
    }
    Ok(true)
}

// The title of each line of a file, and what comes of the rest: of a list, or of a form and a list.
fn report_lines(
    rt: &HostRuntime,
    name: &str,
    text: &str,
    builder: &mut Builder,
    ops: &mut Vec<BuildOp>,
    places: &mut Vec<u8>,
) -> io::Result<()> {
    for line in text.lines() {
        let (title, rest) = line.split_once('|').unwrap_or((line, ""));
        print!(rt; "{}:", title.trim())?;
        ops.clear();
        if name == "built" {
            built::report(rt, builder, ops, rest)?;
        } else {
            places.clear();
            expanded::report(rt, builder, ops, places, rest)?;
        }
    }
    Ok(())
}

// The lines of a file, behind one with its name.
fn report_file(
    rt: &HostRuntime,
    name: &str,
    builder: &mut Builder,
    ops: &mut Vec<BuildOp>,
    places: &mut Vec<u8>,
) -> io::Result<()> {
    println!(rt; "== {name}")?;
    let text = fs::read_to_string(rt, name)?;
    let printed = report_lines(rt, name, &text, builder, ops, places);
    forget(text);
    printed
}

// Both files.
fn report_files(
    rt: &HostRuntime,
    builder: &mut Builder,
    ops: &mut Vec<BuildOp>,
    places: &mut Vec<u8>,
) -> io::Result<()> {
    report_file(rt, "built", builder, ops, places)?;
    report_file(rt, "expanded", builder, ops, places)
}

/// Prints what comes of the lists of both files.
pub(crate) fn report(rt: &HostRuntime, builder: &mut Builder) -> io::Result<()> {
    let mut ops = Vec::new(rt.alloc());
    let mut places = Vec::new(rt.alloc());
    let printed = report_files(rt, builder, &mut ops, &mut places);
    forget(ops);
    forget(places);
    printed
}

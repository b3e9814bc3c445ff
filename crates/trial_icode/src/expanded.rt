//! Expands a list of builder ops, and prints the words of the function. It stands as `FORM | LIST`, with the form of
//! `form` and the list in that of `lines`.

ghost use Rattle.std.specs.Prelude.{◌≡◌, ℕ, ◌≤◌, length};
ghost use Rattle.icode_ops.specs.Finished.{IsFinished};
ghost use Rattle.limits.specs.declared.ops.TheConstants.{OP_LIMIT};

use crate::form::{self, Form};
use crate::lines;
use crate::lists::is_built;
use icode_expand::expand;
use icode_ir::{BuildOp, Builder};
use icode_ops::Op;
use limits::ops::OP_LIMIT;
use std::io;

// The most words that a line may have room for.
const ROOM: usize = 1024;

/// Prints words, each behind a blank, and a line feed.
fn print_words(rt: &HostRuntime, words: &[u32]) -> io::Result<()> {
    for word in words {
        print!(rt; " {word:08x}")?;
    }
    println!(rt)
}

// The words of the ops, or that there is no room for them.
fn print_expanded(
    rt: &HostRuntime,
    ops: &[Op],
    form: &Form,
    places: &[u8],
    labels: &mut [u32],
    out: &mut [u32],
) -> io::Result<()>
    requires finished { (n : ℕ) × IsFinished ops.now n }
    requires labels { length labels.old ≡ OP_LIMIT }
    requires room { length out.old ≤ 1024 }
{
    if form.at > 0x0fff_0000 || form.frame > 16_777_216 || form.objects > 16_777_216 {
        return println!(rt; " out of range");
    }
    match expand(
        ops,
        places,
        form.at,
        form.frame,
        form.objects,
        form.compiled,
        labels,
        out,
    ) {
        Ok(count) => print_words(rt, &out[..count]),
        Err(short) => println!(rt; " {short}"),
    }
}

// The words of the ops, whose registers are at these places.
fn report_placed(rt: &HostRuntime, ops: &[Op], form: &Form, places: &[u8]) -> io::Result<()>
    requires { (n : ℕ) × IsFinished ops.now n }
{
    let mut labels = vec![in rt.alloc(); 0u32; OP_LIMIT]?;
    let mut out = [0u32; ROOM];
    let room = (form.room as usize).min(ROOM);
    print_expanded(rt, ops, form, places, &mut labels, &mut out[..room])
}

/// Prints what comes of the form and the list that a text says, whose places and ops are added to these.
pub(crate) fn report(
    rt: &HostRuntime,
    builder: &mut Builder,
    ops: &mut Vec<BuildOp>,
    places: &mut Vec<u8>,
    text: &str,
) -> io::Result<()> {
    let (form, list) = text.split_once('|').unwrap_or((text, ""));
    let Some(form) = form::read(places, form)? else {
        return println!(rt; " no form");
    };
    let Some(parameters) = lines::read(ops, list)? else {
        return println!(rt; " no list");
    };
    if is_built(rt, builder, parameters, ops)? {
        return report_placed(rt, builder.ops(), &form, places);
    }
    Ok(())
}

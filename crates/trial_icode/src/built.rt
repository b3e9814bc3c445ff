//! Builds a list of builder ops, in the form of `lines`, and prints the ops that come of it or the refusal.

use crate::lines;
use crate::lists::is_built;
use icode_ir::{BuildOp, Builder};
use icode_ops::Op;
use std::io;

// The most ops that are printed in full.
const SHOWN: usize = 20;

// The ops of a finished builder, or how many there are.
fn print_ops(rt: &HostRuntime, ops: &[Op], registers: u32) -> io::Result<()> {
    if SHOWN < ops.len() {
        return println!(rt; " {} ops, {registers} registers", ops.len());
    }
    for op in ops {
        print!(rt; " {op:?};")?;
    }
    println!(rt; " {registers} registers")
}

/// Prints what comes of the list that a text says, whose ops are added to these.
pub(crate) fn report(
    rt: &HostRuntime,
    builder: &mut Builder,
    ops: &mut Vec<BuildOp>,
    list: &str,
) -> io::Result<()> {
    match lines::read(ops, list)? {
        Some(parameters) => {
            if is_built(rt, builder, parameters, ops)? {
                return print_ops(rt, builder.ops(), builder.registers());
            }
            Ok(())
        }
        None => println!(rt; " no list"),
    }
}

//! Lowers the function `main` of each accepted text, or each of its functions where the title begins with `all`, and
//! prints on a line the ops, how many registers these have, the live intervals of the registers, and what an expansion
//! without any room answers. The program's functions stand 256 bytes apart, from 0x00401000 on, and behind them those
//! that generate the code of its ticks.

ghost use Rattle.std.specs.Prelude.{◌≡◌, ℕ, List, map};
ghost use Rattle.icode_ir.specs.declared.builder.Phase.TheVariants.{Finished};
ghost use Rattle.icode_ops.specs.Finished.{IsFinished};
ghost use Rattle.staged_meaning.specs.Program.{Tick};
ghost use Rattle.static_image.specs.Served.{AreStatic};
ghost use Rattle.typed_tree.specs.declared.expression.CaptureKind.{CaptureKind};
ghost use Rattle.typed_tree.specs.View.{function_view};

use crate::words::starts;
use accepted_programs::{main_of, programs_meet_backend};
use icode_expand::expand;
use icode_ir::Builder;
use icode_liveness::Live;
use icode_ops::{Interval, Op};
use limits::ops::OP_LIMIT;
use static_backend::build_ops;
use std::io;
use tick_lower::Addresses;
use typed_tree::Function;
use wellformed::Typed;

// The address of the first word, and the bytes of a frame.
const FIRST: u32 = 0x0040_1000;

const FRAME: u32 = 128;

// The live intervals of a finished list of ops.
fn print_intervals(rt: &HostRuntime, ops: &[Op], registers: u32) -> io::Result<()>
    requires { IsFinished ops.now registers }
{
    let none = Interval {
        reg: 0,
        start: 0,
        end: 0,
    };
    let mut out = vec![in rt.alloc(); none; registers as usize]?;
    let mut live = Live::new(rt.alloc())?;
    let count = live.intervals(ops, registers, &mut out);
    drop(live);
    for x in &out[..count] {
        print!(rt; " {}: {} to {};", x.reg, x.start, x.end)?;
    }
    Ok(())
}

// What an expansion of the ops without any room answers.
fn print_expansion(rt: &HostRuntime, ops: &[Op]) -> io::Result<()>
    requires { (n : ℕ) × IsFinished ops.now n }
{
    let mut labels = vec![in rt.alloc(); 0u32; OP_LIMIT]?;
    match expand(ops, &[], FIRST, FRAME, 0, false, &mut labels, &mut []) {
        Ok(_) => rt.println(" words"),
        Err(short) => println!(rt; " {short}"),
    }
}

// The line of a finished list of ops, which have so many registers.
fn report_ops(rt: &HostRuntime, title: &str, ops: &[Op], registers: u32) -> io::Result<()>
    requires { IsFinished ops.now registers }
{
    print!(rt; "{title}: ")?;
    for op in ops {
        print!(rt; "{op:?}; ")?;
    }
    print!(rt; "{registers} registers;")?;
    print_intervals(rt, ops, registers)?;
    print_expansion(rt, ops)
}

// The lines of the functions of a program: of the one with this number, counted from 1, or of all.
fn report_functions(
    rt: &HostRuntime,
    title: &str,
    builder: &mut Builder,
    addresses: &Addresses<'_>,
    functions: &[Function],
    main: usize,
) -> io::Result<()>
    requires { (captures : List (List CaptureKind)) × (ticks : List Tick) ×
        AreStatic (map function_view functions.now) captures ticks }
{
    let are_all = title.starts_with("all");
    for number in 0..functions.len() {
        if are_all || number.saturating_add(1) == main {
            build_ops(rt.alloc(), builder, addresses, &functions[number])?;
            report_ops(rt, title, builder.ops(), builder.registers())?;
        }
    }
    Ok(())
}

// The lines of an accepted text, with this builder.
fn report_built(
    rt: &HostRuntime,
    title: &str,
    builder: &mut Builder,
    program: &Typed,
) -> io::Result<()> {
    let (functions, ticks) = (program.functions(), program.ticks());
    let all = starts(rt.alloc(), functions.len().saturating_add(ticks.len()))?;
    let (starts, generators) = all.split_at(functions.len().min(all.len()));
    programs_meet_backend();
    program.keeps_law();
    let main = main_of(program);
    let addresses = Addresses {
        starts,
        generators,
        ticks,
    };
    report_functions(rt, title, builder, &addresses, functions, main)
}

/// Prints the lines of an accepted text.
///
/// # Errors
/// Where one can't be written, or memory was not found.
pub fn report(rt: &HostRuntime, title: &str, program: &Typed) -> io::Result<()> {
    let mut builder = Builder::new(rt.alloc())?;
    let printed = report_built(rt, title, &mut builder, program);
    drop(builder);
    printed
}

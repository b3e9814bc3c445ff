//! What is made of whole texts: the tokens and the tree of each, its first static fault, of its ticks the captures and
//! the functions that generate their code, and the ops of its functions; and the run-time routines, which are the same
//! for all.
//!
//! The texts stand in files of cases, which lie where this program runs (`data/`). Where it is called with the name of
//! one of them, as by `bench/front` and `bench/code`, it takes the cases on its standard input as those of that file,
//! and no others.
#![tactic(auto)]

ghost use Rattle.std.specs.Prelude.{◌≤◌, length};

mod generators;
mod parsed;

use c_lexer::tokens;
use limits::text::LONGEST_TEXT;
use std::alloc::Global;
use std::io::{self, Read};
use std::{env, fs};
use text_reports::cases::push_line;
use text_reports::{captured, faults, lexed, lowered, report_deny, routines};
use tick_checker::check;
use tick_parser::parse;
use tick_tree::{Deny, Tree};
use wellformed::Typed;

/// The tree of a text, or its first fault.
pub(crate) fn tree_of(alloc: Global, text: &[u8]) -> Result<Tree, Deny>
    requires { length text.now ≤ LONGEST_TEXT }
{
    let found = tokens(alloc, text)?;
    let tree = parse(alloc, text, &found);
    drop(found);
    tree
}

// The lines of a program of the file with this name, or of its first static fault.
fn report_program(
    rt: &HostRuntime,
    file: &str,
    title: &str,
    found: Result<Typed, Deny>,
) -> io::Result<()> {
    match found {
        Ok(program) => {
            let printed = match file {
                "captured" => captured::report(rt, title, &program),
                "generators" => generators::report(rt, title, &program),
                "lowered" => lowered::report(rt, title, &program),
                _ => faults::report(rt, title, &program),
            };
            drop(program);
            printed
        }
        Err(why) => report_deny(rt, title, why),
    }
}

// The lines of a text, as far as it is checked.
fn report_checked(rt: &HostRuntime, file: &str, title: &str, text: &[u8]) -> io::Result<()>
    requires { length text.now ≤ LONGEST_TEXT }
{
    match tree_of(rt.alloc(), text) {
        Ok(tree) => {
            let found = check(rt.alloc(), &tree);
            drop(tree);
            report_program(rt, file, title, found)
        }
        Err(why) => report_deny(rt, title, why),
    }
}

// The lines of a text, which stands behind a line feed. What stands before the first case has no title.
fn report(rt: &HostRuntime, file: &str, title: &[u8], text: &[u8]) -> io::Result<()> {
    let title = str::from_utf8(title).unwrap_or("?");
    let text = text.strip_prefix(b"\n").unwrap_or(text);
    if title.is_empty() {
        return Ok(());
    }
    if LONGEST_TEXT < text.len() {
        return println!(rt; "{title}: over {LONGEST_TEXT} bytes");
    }
    match file {
        "lexed" => lexed::report(rt, title, text),
        "parsed" => parsed::report(rt, title, text),
        _ => report_checked(rt, file, title, text),
    }
}

// The lines of the texts of the file with this name, whose cases these are.
fn report_cases(rt: &HostRuntime, file: &str, cases: &[u8]) -> io::Result<()> {
    let mut text = Vec::new(rt.alloc());
    let mut title: &[u8] = b"";
    for line in cases.split(|b| *b == b'\n') {
        match line.strip_prefix(b"%% ") {
            Some(next) => {
                report(rt, file, title, &text)?;
                text.clear();
                title = next;
            }
            None => push_line(&mut text, line)?,
        }
    }
    report(rt, file, title, &text)
}

// The texts of all files, each behind a line with its name, and the routines.
fn report_all(rt: &HostRuntime) -> io::Result<()> {
    for file in &[
        "lexed",
        "parsed",
        "faults",
        "captured",
        "generators",
        "lowered",
    ] {
        println!(rt; "== {file}")?;
        report_cases(rt, file, &fs::read(rt, file)?)?;
    }
    routines::report(rt)
}

// The texts on standard input, as those of the file with this name.
fn report_input(rt: &HostRuntime, file: &str) -> io::Result<()> {
    let mut cases = Vec::new(rt.alloc());
    rt.reader().read_to_end(&mut cases)?;
    report_cases(rt, file, &cases)
}

fn main(rt: HostRuntime) -> io::Result<()> {
    let mut words = env::args(&rt)?;
    let _ = words.next();
    match words.next() {
        Some(file) => report_input(&rt, &file),
        None => report_all(&rt),
    }
}

//! Calls the services that make code in the order of a list, and prints what they answer.
//!
//! A list stands on a line, `TITLE | CALL; CALL; ..`. A call is `NUMBER FIRST SECOND THIRD`, a service with its three
//! arguments, of which those at the end that are 0 may be left out. Or it is a look at what the services have left:
//! `words FIRST COUNT`, so many words of the arena from a word on, `row ROW`, a row of the function table, `places`,
//! the places of the function that was finished last, or `spills`, their count.
//!
//! A service prints its answer, or `!` and the number of the reason for which it is refused; the words of the arena are
//! printed with a `*` behind those that are flushed. Each list has services as they are before the first one, and all
//! lists have one arena and one function table.

use crate::lines::numbers;
use code_arena::{CodeArena, FunctionRows};
use icode_service::Service;
use std::mem::forget;
use std::{fs, io};
use word32::map;

// As many spills as no line comes to.
const MOST_SPILLS: u64 = 1 << 32;

// The answer of a service, or the number of the reason for which it is refused.
fn print_served(
    rt: &HostRuntime,
    number: u32,
    arguments: (u32, u32, u32),
    service: &mut Service,
    arena: &mut CodeArena,
    rows: &mut FunctionRows,
) -> io::Result<()> {
    if service.spills() > MOST_SPILLS {
        return print!(rt; " too many spills");
    }
    let (first, second, third) = arguments;
    match service.serve(number, first, second, third, arena, rows) {
        Ok(answer) => print!(rt; " {answer}"),
        Err(why) => print!(rt; " !{}", why.number()),
    }
}

// So many words of the arena, from a word on.
fn print_words(rt: &HostRuntime, first: u32, count: u32, arena: &CodeArena) -> io::Result<()> {
    for i in 0..count {
        let word = first.saturating_add(i);
        if word >= map::ARENA_WORDS {
            return print!(rt; " no word");
        }
        let (word, mark) = match arena.fetch(word) {
            Ok(word) => (word, "*"),
            Err(_) => (arena.read(word), ""),
        };
        print!(rt; " {word:08x}{mark}")?;
    }
    Ok(())
}

// Address and count of a row of the function table.
fn print_row(rt: &HostRuntime, row: u32, rows: &FunctionRows) -> io::Result<()> {
    if row >= map::FUNCTION_ROWS {
        return print!(rt; " no row");
    }
    let (address, count) = rows.get(row);
    print!(rt; " {address:08x}/{count}")
}

/// Prints places with commas between them.
pub(crate) fn print_places(rt: &HostRuntime, places: &[u8]) -> io::Result<()> {
    let mut before = " (";
    for place in places {
        print!(rt; "{before}{place}")?;
        before = ",";
    }
    match places.len() {
        0 => print!(rt; " ()"),
        _ => print!(rt; ")"),
    }
}

// What one call gives.
fn print_call(
    rt: &HostRuntime,
    text: &str,
    service: &mut Service,
    arena: &mut CodeArena,
    rows: &mut FunctionRows,
) -> io::Result<()> {
    let (name, rest) = text.trim().split_once(' ').unwrap_or((text.trim(), "0"));
    let given = match numbers(rest, ' ') {
        Some(given) => given,
        None => return print!(rt; " no call"),
    };
    let [first, second, third, _, _] = given;
    match name {
        "words" => print_words(rt, first, second, arena),
        "row" => print_row(rt, first, rows),
        "places" => print_places(rt, service.choices()),
        "spills" => print!(rt; " {} spills", service.spills()),
        _ => match name.parse::<u32>() {
            Ok(number) => print_served(rt, number, (first, second, third), service, arena, rows),
            Err(_) => print!(rt; " no call"),
        },
    }
}

// The title of a line, and what its calls give.
fn report_line(
    rt: &HostRuntime,
    line: &str,
    service: &mut Service,
    arena: &mut CodeArena,
    rows: &mut FunctionRows,
) -> io::Result<()> {
    let (title, list) = line.split_once('|').unwrap_or((line, ""));
    print!(rt; "{}:", title.trim())?;
    service.reset();
    for text in list.split(';') {
        print_call(rt, text, service, arena, rows)?;
    }
    println!(rt)
}

// The lines of a file.
fn report_lines(
    rt: &HostRuntime,
    text: &str,
    service: &mut Service,
    arena: &mut CodeArena,
    rows: &mut FunctionRows,
) -> io::Result<()> {
    for line in text.lines() {
        report_line(rt, line, service, arena, rows)?;
    }
    Ok(())
}

// The same with this arena and these rows.
fn report_file(rt: &HostRuntime, arena: &mut CodeArena, rows: &mut FunctionRows) -> io::Result<()> {
    println!(rt; "== served")?;
    let text = fs::read_to_string(rt, "served")?;
    let mut service = Service::new(rt.alloc())?;
    let printed = report_lines(rt, &text, &mut service, arena, rows);
    forget(service);
    printed
}

// The same with these rows.
fn report_rows(rt: &HostRuntime, rows: &mut FunctionRows) -> io::Result<()> {
    let mut arena = CodeArena::new(rt.alloc())?;
    let printed = report_file(rt, &mut arena, rows);
    forget(arena);
    printed
}

/// Prints what the calls of each line of the file give.
pub(crate) fn report(rt: &HostRuntime) -> io::Result<()> {
    let mut rows = FunctionRows::new(rt.alloc())?;
    let printed = report_rows(rt, &mut rows);
    forget(rows);
    printed
}

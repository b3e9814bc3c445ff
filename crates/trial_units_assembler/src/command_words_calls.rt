//! The words of whole command lines.

use command_words::{Command, asks_counts, command_of};
use std::alloc::{AllocError, Global};

fn words_of(alloc: Global, line: &str) -> Result<Vec<String>, AllocError> {
    let mut all = Vec::new(alloc);
    for word in line.split_whitespace() {
        all.push(String::from_str(alloc, word)?)?;
    }
    Ok(all)
}

// The name of a command on the file `text` or the image `image`, and its number; or `bad`, and the place of the first
// bad word.
fn named(command: Result<Command<'_>, u64>) -> (&'static str, u64) {
    match command {
        Ok(Command::Run("text", steps)) => ("run", steps),
        Ok(Command::Exec("image", steps)) => ("exec", steps),
        Ok(Command::Mean("text", units)) => ("mean", units),
        Ok(Command::Gen(number)) => ("gen", u64::from(number)),
        Ok(_) => ("another", 0),
        Err(place) => ("bad", place),
    }
}

// What the words of a line say, and whether they ask for counts.
fn told(alloc: Global, line: &str) -> Result<(&'static str, u64, bool), AllocError> {
    let words = words_of(alloc, line)?;
    let (name, number) = named(command_of(&words));
    Ok((name, number, asks_counts(&words)))
}

const LINES: [(&str, (&str, u64, bool)); 17] = [
    // options stand anywhere
    ("tick exec --steps 007 image", ("exec", 7, false)),
    ("tick run text", ("run", 1_000_000_000, false)),
    // bad words have places
    ("tick run", ("bad", 2, false)),
    ("tick run a b", ("bad", 3, false)),
    ("tick run --steps 0 a", ("bad", 3, false)),
    ("tick build a --steps 5 b", ("bad", 3, false)),
    // a source has a number up to two thousand
    ("tick gen 0002000", ("gen", 2000, false)),
    ("tick gen", ("bad", 2, false)),
    ("tick gen 0", ("bad", 2, false)),
    ("tick gen 2001", ("bad", 2, false)),
    ("tick gen 3 4", ("bad", 3, false)),
    // runs may ask for counts once
    ("tick run --steps 9 text --stats", ("run", 9, true)),
    ("tick run --stats text --stats", ("bad", 4, true)),
    ("tick dis --stats image", ("bad", 2, true)),
    // an evaluation has units and no counts
    ("tick mean --steps 9 text", ("mean", 9, false)),
    ("tick mean text --stats", ("bad", 3, true)),
    ("tick mean", ("bad", 2, false)),
];

// How many of the lines say what they should.
fn count_told(alloc: Global) -> Result<u32, AllocError> {
    let mut count = 0u32;
    for (line, wanted) in &LINES {
        if told(alloc, line)? == *wanted {
            count = count.saturating_add(1);
        }
    }
    Ok(count)
}

#[test]
fn lines_say_commands_or_their_bad_words(rt: HostRuntime) {
    assert!(rt; count_told(rt.alloc()) == Ok(17));
}

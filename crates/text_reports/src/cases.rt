//! The texts of a file of cases, line by line. A case has a line `%% TITLE` before it, and goes up to the next such
//! line.
//!
//! A line `%* COUNT PIECE` of a case stands for so many pieces on one line, and each `#` in a piece for the number of
//! the piece, from 0. A line `%. REST` goes on with the line before it, as the line REST would.
use std::io::{self, Write};

// A piece, with a number for each `#`.
fn push_piece(text: &mut Vec<u8>, piece: &[u8], number: u32) -> io::Result<()> {
    for byte in piece {
        if *byte == b'#' {
            write!(text, "{number}")?;
        } else {
            text.push(*byte)?;
        }
    }
    Ok(())
}

// So many pieces, as a line `COUNT PIECE` says.
fn push_pieces(text: &mut Vec<u8>, line: &[u8]) -> io::Result<()> {
    let line = str::from_utf8(line).unwrap_or("");
    let (count, piece) = line.split_once(' ').unwrap_or(("0", ""));
    for number in 0..count.parse::<u32>().unwrap_or(0) {
        push_piece(text, piece.as_bytes(), number)?;
    }
    Ok(())
}

/// Adds a line to the text of a case, behind a line feed where it begins a line of the text, be it the first.
///
/// # Errors
/// Where memory was not found; the text then has a part of the line.
pub fn push_line(text: &mut Vec<u8>, line: &[u8]) -> io::Result<()> {
    let line = match line.strip_prefix(b"%. ") {
        Some(rest) => rest,
        None => {
            text.push(b'\n')?;
            line
        }
    };
    match line.strip_prefix(b"%* ") {
        Some(pieces) => push_pieces(text, pieces),
        None => Ok(text.extend_from_slice(line)?),
    }
}

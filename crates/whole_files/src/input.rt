//! The whole input.
ghost use Rattle.std.specs.Prelude.{IfOk};
ghost use Rattle.whole_files.specs.Input.{IsInputRead, InputCause};

use host_edge::Source;
use limits::text::LONGEST_TEXT;
use std::alloc::{AllocError, Global};

/// The bytes of a piece that is read at once.
const PIECE: usize = 4096;

/// What reading the whole input gives.
#[derive(Drop)]
pub enum InputRead {
    /// Its bytes.
    WholeInput(Vec<u8>),
    /// It is longer than it may be.
    TooLongInput,
    /// It failed.
    FailedInput,
}

/// The whole input, which may have 1,048,576 bytes, as a text may.
///
/// # Errors
/// Where memory is wanting.
pub fn read_input<I: Source>(alloc: Global, input: &mut I) -> Result<InputRead, AllocError>
    ensures read { IfOk result (IsInputRead (I.left input.old) (I.left input.new)) }
    ensures cause { IfOk result (InputCause (I.faults input.old) (I.faults input.new)) }
{
    let mut bytes = Vec::new(alloc);
    let mut piece = [0u8; PIECE];
    while bytes.len() <= LONGEST_TEXT {
        match input.read(&mut piece) {
            Ok(0) => return Ok(InputRead::WholeInput(bytes)),
            Ok(count) => bytes.extend_from_slice(&piece[..count])?,
            Err(_) => return Ok(InputRead::FailedInput),
        }
    }
    Ok(InputRead::TooLongInput)
}

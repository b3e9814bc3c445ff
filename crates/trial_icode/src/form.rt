//! What a line says of the function besides its ops: `AT FRAME OBJECTS FORM ROOM PLACES`, the address of the first
//! word, the bytes of the frame and of its objects, `static` or `compiled`, how many words there is room for, and the
//! places of the registers with commas between them (`-` where all have slots).

use crate::lines::numbers;
use std::alloc::AllocError;

/// A function's place in memory, and its frame.
#[derive(Clone, Copy)]
pub(crate) struct Form {
    /// The address of the first word.
    pub at: u32,
    /// The bytes of the frame.
    pub frame: u32,
    /// The bytes of the frame's objects.
    pub objects: u32,
    /// Whether the function counts its active calls.
    pub compiled: bool,
    /// How many words there is room for.
    pub room: u32,
}

// Adds the numbers with commas between them, and says whether all are numbers below 256.
fn push_places(places: &mut Vec<u8>, text: &str) -> Result<bool, AllocError> {
    for word in text.split(',') {
        match word.parse::<u8>() {
            Ok(place) => places.push(place)?,
            Err(_) => return Ok(false),
        }
    }
    Ok(true)
}

// The form of numbers.
fn form_of(text: &str) -> Option<Form> {
    let [at, frame, objects, compiled, room] = numbers(text, ' ')?;
    Some(Form {
        at,
        frame,
        objects,
        compiled: compiled == 1,
        room,
    })
}

/// The form that a text says, or None where it is of another form. The places are added to these.
pub(crate) fn read(places: &mut Vec<u8>, text: &str) -> Result<Option<Form>, AllocError> {
    let (front, listed) = text.trim().rsplit_once(' ').unwrap_or((text, ""));
    if listed != "-" && !push_places(places, listed)? {
        return Ok(None);
    }
    Ok(form_of(front))
}

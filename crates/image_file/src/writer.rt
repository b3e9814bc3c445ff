//! The bytes of an image.

ghost use Rattle.std.specs.Prelude.{◌≡◌, ◌*◌, ◌≤◌, ◌++◌, length, IfOk, OnOk, Ok};
ghost use Rattle.std.specs.List.{flat_map};
ghost use Rattle.image_file.specs.Image.{IsImage};
ghost use Rattle.image_file.specs.Format.{word_bytes, function_bytes, spelling, parsed};

use crate::bytes::push_word;
use crate::format::{HEADER_BYTES, MAGIC, VERSION};
use crate::image::{FunctionEntry, Image};
use byteorder::{BigEndian, ByteOrder};
use std::alloc::{AllocError, Global};

/// The bytes of the image file that holds this image: the image's one spelling, which `read` gives back. Memory is
/// taken once, for all of it.
///
/// # Errors
/// Where memory is wanting.
pub fn write(alloc: Global, image: &Image) -> Result<Vec<u8>, AllocError>
    ensures spelling { IfOk result (λ bytes. bytes.items ≡ spelling image.now) }
    ensures read_back { IfOk result (λ bytes. parsed bytes.items ≡ Ok image.now) }
{
    spell(alloc, image)
}

fn spell(alloc: Global, image: &Image) -> Result<Vec<u8>, AllocError>
    ensures spelling { IfOk result (λ bytes. bytes.items ≡ spelling image.now) }
    ensures image { IsImage image.now }
{
    let text = image.text();
    let data = image.bytes();
    let functions = image.functions();
    let size = HEADER_BYTES + 4 * text.len() + data.len() + 8 * functions.len();
    let mut out = Vec::with_capacity(alloc, size)?;
    push_word(&mut out, MAGIC)?;
    push_word(&mut out, VERSION)?;
    push_word(&mut out, image.entry())?;
    push_word(&mut out, text.len() as u32)?;
    push_word(&mut out, data.len() as u32)?;
    push_word(&mut out, functions.len() as u32)?;
    push_words(&mut out, text)?;
    out.extend_from_slice(data)?;
    push_functions(&mut out, functions)?;
    Ok(out)
}

// Adds the bytes of words, which are put down in `room` first.
fn push_chunk(out: &mut Vec<u8>, room: &mut [u8], words: &[u32]) -> Result<(), AllocError>
    requires room { 4 * length words.now ≤ length room.old }
    ensures room { length room.new ≡ length room.old }
    ensures words { OnOk result (out.new.items ≡ out.old.items ++ flat_map word_bytes words.now) }
{
    let bytes = &mut room[..4 * words.len()];
    BigEndian::write_u32_into(words, bytes);
    out.extend_from_slice(bytes)?;
    Ok(())
}

/// Adds the bytes of words.
fn push_words(out: &mut Vec<u8>, words: &[u32]) -> Result<(), AllocError>
    ensures { OnOk result (out.new.items ≡ out.old.items ++ flat_map word_bytes words.now) }
{
    let mut room = [0u8; 1024];
    for chunk in words.chunks(256) {
        push_chunk(out, &mut room, chunk)?;
    }
    Ok(())
}

/// Adds the bytes of functions.
fn push_functions(out: &mut Vec<u8>, functions: &[FunctionEntry]) -> Result<(), AllocError>
    ensures { OnOk result (out.new.items ≡ out.old.items ++ flat_map function_bytes functions.now) }
{
    for f in functions {
        push_word(out, f.address)?;
        push_word(out, f.count)?;
    }
    Ok(())
}

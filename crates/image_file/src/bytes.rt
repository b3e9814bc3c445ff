//! Words at the end of bytes, the most significant byte first.

ghost use Rattle.std.specs.Prelude.{◌≡◌, ◌++◌, OnOk};
ghost use Rattle.image_file.specs.Format as format;

use std::alloc::AllocError;

/// Adds the four bytes of a word.
#[inline]
pub fn push_word(out: &mut Vec<u8>, w: u32) -> Result<(), AllocError>
    ensures { OnOk result (out.new.items ≡ out.old.items ++ format.word_bytes w) }
{
    let bytes = [
        (w / 16777216) as u8,
        (w / 65536 % 256) as u8,
        (w / 256 % 256) as u8,
        (w % 256) as u8,
    ];
    out.extend_from_slice(&bytes)
}

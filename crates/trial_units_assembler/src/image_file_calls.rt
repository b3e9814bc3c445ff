//! Image files by hand, from the format's rules.

ghost use Rattle.std.specs.Prelude.{◌≤◌, length};

use image_file::{Image, ImageDeny, read, write};
use std::alloc::{AllocError, Global};

// The image of `ori $2,$0,10` and `syscall`, without data and functions.
const TWO_INSTRUCTIONS: [u8; 32] = [
    0x54, 0x49, 0x43, 0x4b, 0, 0, 0, 1, 0, 0x40, 0, 0, 0, 0, 0, 2, 0, 0, 0, 0, 0, 0, 0, 0, 0x34, 2,
    0, 0x0a, 0, 0, 0, 0x0c,
];

// An image with one word of text, three bytes of data, and one function of two arguments.
const ALL_PARTS: [u8; 39] = [
    0x54, 0x49, 0x43, 0x4b, 0, 0, 0, 1, 0, 0x40, 0, 0, 0, 0, 0, 1, 0, 0, 0, 3, 0, 0, 0, 1, 0, 0, 0,
    0x0c, 7, 8, 9, 0, 0x40, 0, 0, 0, 0, 0, 2,
];

// Whether the image's entry and text are those, and it is written so again.
fn is_two_instructions(alloc: Global, image: &Image) -> Result<bool, AllocError> {
    let is_read = image.entry() == 0x0040_0000
        && image.text() == [0x3402_000a, 0x0000_000c].as_slice();
    let bytes = write(alloc, image)?;
    Ok(is_read && bytes.as_slice() == TWO_INSTRUCTIONS.as_slice())
}

fn reads_two_instructions(alloc: Global) -> Result<bool, AllocError> {
    match read(alloc, &TWO_INSTRUCTIONS) {
        Ok(image) => is_two_instructions(alloc, &image),
        Err(_) => Ok(false),
    }
}

fn has_all_parts(image: &Image) -> bool {
    match image.functions() {
        [first] => {
            image.bytes() == [7, 8, 9].as_slice()
                && first.address == 0x0040_0000
                && first.count == 2
        }
        _ => false,
    }
}

fn reads_all_parts(alloc: Global) -> bool {
    match read(alloc, &ALL_PARTS) {
        Ok(image) => has_all_parts(&image),
        Err(_) => false,
    }
}

/// The number of the rule that bytes break, or 0.
fn broken(alloc: Global, bytes: &[u8]) -> u8
    requires { length bytes.now ≤ 83886080 }
{
    match read(alloc, bytes) {
        Err(ImageDeny::Bad(fault)) => fault.number(),
        _ => 0,
    }
}

#[test]
fn images_are_read_and_written(rt: HostRuntime) {
    let are_read = [
        reads_two_instructions(rt.alloc()),
        Ok(reads_all_parts(rt.alloc())),
    ];
    assert!(rt; are_read == [Ok(true), Ok(true)]);
}

#[test]
fn a_cut_a_byte_more_and_version_three_are_refused(rt: HostRuntime) {
    let mut longer = [0; 33];
    longer[..32].copy_from_slice(&TWO_INSTRUCTIONS);
    let mut header = [0; 24];
    header.copy_from_slice(&TWO_INSTRUCTIONS[..24]);
    header[7] = 3;
    let numbers = [
        broken(rt.alloc(), &TWO_INSTRUCTIONS[..23]),
        broken(rt.alloc(), &longer),
        broken(rt.alloc(), &header),
    ];
    assert!(rt; numbers == [1, 6, 3]);
}

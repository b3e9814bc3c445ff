//! The texts of two images, by hand, and a sink that fails in the middle of one.

ghost use Rattle.std.specs.Prelude.{◌≤◌, length};

use asm_print::disassemble;
use host_edge::Failed;
use image_file::read;
use memory_edge::MemSink;
use std::alloc::{AllocError, Global};

// The image file of `ori $2,$0,10` and `syscall`, without data and functions.
const TWO_INSTRUCTIONS: [u8; 32] = [
    84, 73, 67, 75, 0, 0, 0, 1, 0, 64, 0, 0, 0, 0, 0, 2, 0, 0, 0, 0, 0, 0, 0, 0, 52, 2, 0, 10, 0,
    0, 0, 12,
];

// An image file with six words, 33 bytes of data, and one function of two arguments.
const ALL_PARTS: [u8; 89] = [
    84, 73, 67, 75, 0, 0, 0, 1, 0, 64, 0, 4, 0, 0, 0, 6, 0, 0, 0, 33, 0, 0, 0, 1, 12, 16, 0, 4, 16,
    34, 255, 255, 0, 0, 0, 0, 255, 255, 255, 255, 143, 164, 255, 248, 60, 8, 255, 255, 48, 49, 50,
    51, 52, 53, 54, 55, 56, 57, 97, 98, 99, 100, 101, 102, 103, 104, 105, 106, 107, 108, 109, 110,
    111, 112, 113, 114, 115, 116, 117, 118, 119, 0, 64, 0, 0, 0, 0, 0, 2,
];

const ALL_PARTS_TEXT: &str =
    ".entry 0x00400004\n.fn 0x00400000 2\n.data 303132333435363738396162636465666768696a6b6c6d6e6f70717273747576\n.data 77\njal 0x00400010\nbeq $1,$2,-1\nsll $0,$0,0\n.word 0xffffffff\nlw $4,-8($29)\nlui $8,65535\n";

// How the image of these bytes is written, and the text that a sink has then whose listed call fails.
fn is_written(
    alloc: Global,
    bytes: &[u8],
    fails: &[u64],
    end: Result<(), Failed>,
    text: &[u8],
) -> Result<bool, AllocError>
    requires { length bytes.now ≤ 100 }
{
    let mut sink = MemSink::new(alloc, 400, fails)?;
    let is_end = match read(alloc, bytes) {
        Ok(image) => disassemble(&image, &mut sink) == end,
        Err(_) => false,
    };
    Ok(is_end && sink.taken() == text)
}

#[test]
fn images_are_written_as_far_as_the_sink_takes_them(rt: HostRuntime) {
    let two = b".entry 0x00400000\nori $2,$0,10\nsyscall\n";
    let all = ALL_PARTS_TEXT.as_bytes();
    let front = b".entry 0x00400004\n.fn 0x00400000 2\n";
    let are_written = [
        is_written(rt.alloc(), &TWO_INSTRUCTIONS, &[], Ok(()), two),
        is_written(rt.alloc(), &ALL_PARTS, &[], Ok(()), all),
        is_written(rt.alloc(), &ALL_PARTS, &[2], Err(Failed), front),
    ];
    assert!(rt; are_written == [Ok(true), Ok(true), Ok(true)]);
}

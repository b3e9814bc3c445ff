//! Texts by hand: the row of an image, and a first fault.

use image_file::Image;
use memory_edge::MemSink;
use mips_text::{AsmDeny, assemble, disassemble};
use std::alloc::{AllocError, Global};

// Whether the image has two instructions, and they are written so again.
fn is_two_instructions(alloc: Global, image: &Image) -> Result<bool, AllocError> {
    let mut sink = MemSink::new(alloc, 100, &[])?;
    let are_written = disassemble(image, &mut sink).is_ok()
        && sink.taken() == b".entry 0x00400000\nori $2,$0,10\nsyscall\n".as_slice();
    drop(sink);
    let is_read = image.entry() == 0x0040_0000
        && image.text() == [0x3402_000a, 0x0000_000c].as_slice();
    Ok(is_read && are_written)
}

fn assembles_two(alloc: Global) -> Result<bool, AllocError> {
    match assemble(alloc, b"ori $2,$0,10\nsyscall\n") {
        Ok(image) => is_two_instructions(alloc, &image),
        Err(_) => Ok(false),
    }
}

// Whether a missing operand is a text's first fault: its line, its number and its name.
fn misses_operand(alloc: Global) -> bool {
    match assemble(alloc, b"nop\naddu $1,$2\naddiu $1,$0,70000") {
        Err(AsmDeny::Refused(fault)) => {
            fault.line == 2 && fault.kind.number() == 1 && fault.kind.name() == "BadLine"
        }
        _ => false,
    }
}

#[test]
fn texts_are_images_or_have_a_first_fault(rt: HostRuntime) {
    let are_so = [assembles_two(rt.alloc()), Ok(misses_operand(rt.alloc()))];
    assert!(rt; are_so == [Ok(true), Ok(true)]);
}

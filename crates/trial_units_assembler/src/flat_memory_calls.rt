//! A memory with ample room, each call once, and the order of the refusals.

use flat_memory::{Access, Memory, Width};
use std::alloc::{AllocError, Global};

// Whether the words of the objects' bytes are loaded, and what a half that was stored has made of its place.
fn loads_and_stores(memory: &mut Memory) -> bool {
    let first = memory.load(0x1000_0000, Width::Word);
    let second = memory.load(0x1000_0004, Width::Word);
    let _ = memory.store(0x7fff_fffe, Width::SignedHalf, 0xffff_f080);
    let word = memory.load(0x7fff_fffc, Width::Word);
    let byte = memory.load(0x7fff_ffff, Width::SignedByte);
    [first, second, word, byte]
        == [
            Ok(0x4865_6c6c),
            Ok(0x6f00_0000),
            Ok(0xf080),
            Ok(0xffff_ff80),
        ]
}

// Whether a word of the text is fetched, and none behind it or between two.
fn fetches(memory: &Memory) -> bool {
    let word = memory.fetch(0x0040_0004);
    let behind = memory.fetch(0x0040_0008);
    let between = memory.fetch(0x0040_0002);
    [word, behind, between] == [Some(0x0000_000c), None, None]
}

// Whether stores beside a text of one word are refused in their order.
fn refuses_stores(memory: &mut Memory) -> bool {
    let outside = memory.store(0x0400_0001, Width::Word, 1);
    let within = memory.store(0x7fff_fffe, Width::SignedHalf, 0xffff_f080);
    let misaligned = memory.store(0x0040_0002, Width::Word, 1);
    let text = memory.store(0x0040_0000, Width::Word, 1);
    let behind = memory.store(0x0040_0004, Width::Word, 1);
    [outside, within, misaligned, text, behind]
        == [
            Err(Access::Outside),
            Ok(()),
            Err(Access::Misaligned),
            Err(Access::ReadOnly),
            Err(Access::Outside),
        ]
}

fn refuses_loads(memory: &Memory) -> bool {
    let outside = memory.load(0x2051_0000, Width::Word);
    let misaligned = memory.load(0x10ff_ffff, Width::Word);
    let byte = memory.load(0x0040_0003, Width::Byte);
    [outside, misaligned, byte] == [Err(Access::Outside), Err(Access::Misaligned), Ok(0xc)]
}

fn are_so(alloc: Global) -> Result<[bool; 4], AllocError> {
    let mut memory = Memory::new(alloc, &[0x3c08_1234, 0x0000_000c], b"Hello")?;
    let loads = loads_and_stores(&mut memory);
    let fetches = fetches(&memory);
    drop(memory);
    let mut memory = Memory::new(alloc, &[0x0000_000c], b"")?;
    let refuses = refuses_stores(&mut memory);
    let refuses_too = refuses_loads(&memory);
    drop(memory);
    Ok([loads, fetches, refuses, refuses_too])
}

#[test]
fn memory_is_loaded_and_stored_or_refuses_in_order(rt: HostRuntime) {
    assert!(rt; are_so(rt.alloc()) == Ok([true; 4]));
}

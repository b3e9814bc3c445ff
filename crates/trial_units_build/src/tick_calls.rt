//! What a call of `tick` hands back besides its outcome: how many instructions were executed, none where the command
//! makes no machine, and the places of the registers of the last function that was made.

use memory_edge::{MemSink, MemSource, MemStore};
use std::alloc::{AllocError, Global};
use tick_top::{Ended, status, tick};

// The bytes that a stream takes at most from all calls.
const ROOM: usize = 4096;

// Calls one after another on a store with these files, with the status, the instructions and the places of each.
const CALLS: [(&str, u8, u64, &[u8]); 14] = [
    ("tick", 64, 0, &[]),
    ("tick run missing", 66, 0, &[]),
    ("tick run refused", 65, 0, &[]),
    ("tick run text --steps 1", 72, 1, &[]),
    ("tick mean text", 3, 0, &[]),
    ("tick build text image", 0, 0, &[]),
    ("tick exec image --steps 1", 72, 1, &[]),
    ("tick asm two image", 0, 0, &[]),
    ("tick dis image", 0, 0, &[]),
    ("tick exec image", 0, 2, &[]),
    ("tick asm adding image", 0, 0, &[]),
    ("tick exec image", 9, 28, &[0, 1, 0, 2]),
    ("tick gen 1", 0, 0, &[]),
    ("tick gen 2000", 73, 0, &[]),
];

const FILES: [(&str, &str); 4] = [
    ("text", "int main(){putchar(72);putchar(10);return 3;}"),
    ("refused", "int main(){return x;}"),
    ("two", "ori $2,$0,10\nsyscall\n"),
    ("adding", ADDING),
];

// A function of one parameter is made in the arena from its first word on: it answers the parameter and 7. Its four
// registers are r0, which takes the parameter, r1, which gets it from there, the 7 and the sum. They take the places 0,
// 1, 0 and 2, since r0 has its last use where r1 is set.
const ADDING: &str = ".entry 0x00400000
    lui $28,0x2051
    lui $29,0x7fff
    ori $4,$0,1         # begin with one parameter
    ori $2,$0,64
    syscall
    ori $4,$0,21        # GetSpec 0
    ori $5,$0,0
    ori $2,$0,65
    syscall
    ori $4,$0,1         # Const 7
    ori $5,$0,7
    ori $2,$0,65
    syscall
    ori $4,$0,2         # Bin Add
    ori $5,$0,1
    ori $2,$0,65
    syscall
    ori $4,$0,19        # Return
    ori $2,$0,65
    syscall
    lui $4,0x0400       # finish: at most 60 words, a frame of 144 bytes
    ori $5,$0,60
    ori $6,$0,144
    ori $2,$0,66
    syscall
    ori $4,$0,9
    ori $2,$0,10
    syscall
";

fn words_of(alloc: Global, line: &str) -> Result<Vec<String>, AllocError> {
    let mut all = Vec::new(alloc);
    for word in line.split_whitespace() {
        all.push(String::from_str(alloc, word)?)?;
    }
    Ok(all)
}

// What is seen of how a call ended: its status, its instructions, and whether it hands back these places.
fn seen(ended: Ended, places: &[u8]) -> (u8, u64, bool) {
    let seen = (
        status(&ended.outcome),
        ended.steps,
        ended.choices.as_slice() == places,
    );
    drop(ended);
    seen
}

// What is seen of a call that stands on a line.
fn seen_of(
    alloc: Global,
    line: &str,
    places: &[u8],
    store: &mut MemStore,
    input: &mut MemSource,
    out: &mut MemSink,
    err: &mut MemSink,
) -> Result<(u8, u64, bool), AllocError> {
    let words = words_of(alloc, line)?;
    match tick(alloc, &words, store, input, out, err) {
        Ok(ended) => Ok(seen(ended, places)),
        Err(why) => Err(why),
    }
}

fn put_files(store: &mut MemStore) -> Result<(), AllocError> {
    for (name, text) in &FILES {
        store.put(name, text.as_bytes())?;
    }
    Ok(())
}

// How many of the calls end as they should.
fn count_well_ended(
    alloc: Global,
    store: &mut MemStore,
    input: &mut MemSource,
    out: &mut MemSink,
    err: &mut MemSink,
) -> Result<u32, AllocError> {
    put_files(store)?;
    let mut count = 0u32;
    for (line, wanted, steps, places) in &CALLS {
        if seen_of(alloc, line, places, store, input, out, err)? == (*wanted, *steps, true) {
            count = count.saturating_add(1);
        }
    }
    Ok(count)
}

// The same with new streams. The input is empty.
fn well_ended(alloc: Global) -> Result<u32, AllocError> {
    let mut store = MemStore::new(alloc, &[])?;
    let mut input = MemSource::new(alloc, b"", &[])?;
    let mut out = MemSink::new(alloc, ROOM, &[])?;
    let mut err = MemSink::new(alloc, ROOM, &[])?;
    count_well_ended(alloc, &mut store, &mut input, &mut out, &mut err)
}

#[test]
fn a_call_tells_its_steps_and_places(rt: HostRuntime) {
    assert!(rt; well_ended(rt.alloc()) == Ok(14));
}

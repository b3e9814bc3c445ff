//! The edge in memory, and its adapters over real streams and files.

use host_edge::{
    Failed, FileStore, LoadFault, MachineKind, SaveFault, Sink, Source, StdSink, StdSource, Store,
    TrapKind, read_byte, write_whole,
};
use memory_edge::{MemSink, MemSource, MemStore};
use std::alloc::{AllocError, Global};
use std::fs::remove_file;
use std::process::id;
use std::test::Fail;

// The source's second read is listed.
fn source_gives_its_bytes(alloc: Global) -> Result<bool, AllocError> {
    let mut source = MemSource::new(alloc, b"abc", &[1])?;
    let mut buf = [0u8; 2];
    let reads = [source.read(&mut buf), source.read(&mut [0u8; 2])];
    let bytes = [read_byte(&mut source), read_byte(&mut source)];
    Ok(reads == [Ok(2), Err(Failed)] && buf == [97, 98] && bytes == [Ok(Some(99)), Ok(None)])
}

// The sink has room for five bytes, and its second write is listed.
fn sink_takes_what_fits(alloc: Global) -> Result<bool, AllocError> {
    let mut sink = MemSink::new(alloc, 5, &[1])?;
    let writes = [sink.write(b"ab"), sink.write(b"cd"), sink.write(b"wxyz")];
    sink.single();
    let single = sink.write(b"cdef");
    let wholes = [write_whole(&mut sink, b"de"), write_whole(&mut sink, b"f")];
    let is_full = sink.taken() == b"abcde".as_slice();
    // three bytes are free as four are written
    Ok(
        writes == [Ok(2), Err(Failed), Err(Failed)]
            && single == Ok(1)
            && wholes == [Ok(()), Err(Failed)]
            && is_full,
    )
}

#[test]
fn streams_pass_what_fits_but_at_a_listed_call(rt: HostRuntime) {
    let pass = [
        source_gives_its_bytes(rt.alloc()),
        sink_takes_what_fits(rt.alloc()),
    ];
    assert!(rt; pass == [Ok(true), Ok(true)]);
}

// Whether a load of a file, of so many bytes at most, gives these.
fn loads(
    store: &mut impl Store,
    file: &str,
    limit: usize,
    into: &mut Vec<u8>,
    want: &[u8],
) -> bool {
    store.load(file, into, limit) == Ok(()) && into.as_slice() == want
}

// Whether a load fails, and leaves nothing.
fn fails(store: &mut impl Store, file: &str, into: &mut Vec<u8>) -> bool {
    store.load(file, into, 9) == Err(LoadFault::Failed) && into.len() == 0
}

fn loads_up_to_the_limit(store: &mut MemStore, into: &mut Vec<u8>) -> bool {
    loads(store, "a", 3, into, b"tex")
        // it is listed
        && fails(store, "a", into)
        // it isn't there
        && fails(store, "b", into)
        && loads(store, "a", 9, into, b"text")
}

fn is_file(store: &MemStore, path: &str, want: &[u8]) -> bool {
    match store.file(path) {
        Some(bytes) => bytes == want,
        None => false,
    }
}

fn saves_at_its_path_alone(store: &mut MemStore) -> bool {
    let saved = [store.save("b", b"image"), store.save("c", b"half")];
    saved == [Ok(()), Err(SaveFault::Failed)]
        && is_file(store, "a", b"text")
        && is_file(store, "b", b"image")
        // the first half
        && is_file(store, "c", b"ha")
        && store.file("d").is_none()
}

// A store with a file, whose second load and second save are listed.
fn store_of_text(alloc: Global) -> Result<MemStore, AllocError> {
    let mut store = MemStore::new(alloc, &[1])?;
    match store.put("a", b"text") {
        Ok(()) => Ok(store),
        Err(why) => {
            drop(store);
            Err(why)
        }
    }
}

fn loads_from_memory(alloc: Global) -> Result<bool, AllocError> {
    let mut into = b"old".to_vec(alloc)?;
    let mut store = store_of_text(alloc)?;
    Ok(loads_up_to_the_limit(&mut store, &mut into))
}

fn saves_to_memory(alloc: Global) -> Result<bool, AllocError> {
    let mut store = store_of_text(alloc)?;
    Ok(saves_at_its_path_alone(&mut store))
}

#[test]
fn a_store_loads_up_to_the_limit_and_saves_at_its_path_alone(rt: HostRuntime) {
    let does = [loads_from_memory(rt.alloc()), saves_to_memory(rt.alloc())];
    assert!(rt; does == [Ok(true), Ok(true)]);
}

// The adapter over a reader in memory.
fn reads_to_the_end() -> bool {
    let mut source = StdSource::new(b"xy".as_slice());
    let bytes = [
        read_byte(&mut source),
        read_byte(&mut source),
        read_byte(&mut source),
    ];
    bytes == [Ok(Some(120)), Ok(Some(121)), Ok(None)]
}

// The adapter over a writer in memory, which takes nothing more where it is full.
fn writes_to_the_end() -> bool {
    let mut room = [0u8; 3];
    let mut sink = StdSink::new(room.as_mut_slice());
    let wholes = [write_whole(&mut sink, b"abc"), write_whole(&mut sink, b"d")];
    wholes == [Ok(()), Err(Failed)]
}

#[test]
fn streams_pass_bytes_on(rt: HostRuntime) {
    assert!(rt; [reads_to_the_end(), writes_to_the_end()] == [true; 2]);
}

fn loads_what_is_saved(store: &mut impl Store, path: &str, into: &mut Vec<u8>) -> bool {
    let saved = [store.save(path, b"abcdef"), store.save(path, b"text")];
    saved == [Ok(()), Ok(())] && loads(store, path, 5000, into, b"text")
}

// With no file at the path.
fn fails_at_what_is_no_file(store: &mut impl Store, path: &str, into: &mut Vec<u8>) -> bool {
    let is_cut = store.load("/dev/zero", into, 5000) == Ok(()) && into.len() == 5000;
    // a directory
    let loaded = [store.load(path, into, 5000), store.load("/", into, 5000)];
    // a full disk
    let saved = store.save("/dev/full", b"abc");
    is_cut
        && loaded == [Err(LoadFault::Failed), Err(LoadFault::Failed)]
        && saved == Err(SaveFault::Failed)
}

// The adapter over files, at a path that has no file, and on devices that each system of this kind has.
fn files_are_kept(rt: &HostRuntime, path: &str) -> bool {
    let mut store = FileStore::new(rt, rt.alloc());
    let mut into = Vec::new(rt.alloc());
    let are_so = [
        loads_what_is_saved(&mut store, path, &mut into),
        remove_file(rt, path).is_ok(),
        fails_at_what_is_no_file(&mut store, path, &mut into),
    ];
    are_so == [true; 3]
}

#[test]
fn files_are_saved_and_loaded_up_to_the_limit(rt: HostRuntime) -> Result<(), Fail> {
    let path = format!(in rt.alloc(); "/tmp/tick_host_edge_{}", id(rt.process()))?;
    let are_kept = files_are_kept(&rt, &path);
    drop(path);
    assert!(rt; are_kept);
    Ok(())
}

#[test]
fn kinds_have_their_names(rt: HostRuntime) {
    let names = [
        TrapKind::DivideByZero.name(),
        MachineKind::BadService.name(),
    ];
    assert!(rt; names == ["DivideByZero", "BadService"]);
}

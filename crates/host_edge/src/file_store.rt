//! The adapter over the system's files. It tells nothing of content, and is trusted.
ghost use Rattle.std.specs.Prelude.{◌≡◌, ◌≤◌, None, vec_len, false};

use crate::{LoadFault, SaveFault, Store};
use std::alloc::Global;
use std::fs::File;
use std::io::{Read, Write};
use std::rt::Files;

const PIECE: usize = 4096;

/// A store over the files of the system. Each error of the system is a fault.
#[derive(Drop)]
pub struct FileStore<R> {
    rt: R,
    alloc: Global,
    faults: u64,
}

impl<R: Files> FileStore<R> {
    /// A store over the files that `rt` reaches. It has had no fault yet.
    pub fn new(rt: R, alloc: Global) -> FileStore<R>
        ensures { result.faults ≡ 0 }
    {
        FileStore {
            rt,
            alloc,
            faults: 0,
        }
    }
}

// Reads on, up to the limit.
fn read_up_to<R: Read>(file: &mut R, into: &mut Vec<u8>, limit: usize) -> Result<(), LoadFault>
    requires { vec_len into.old ≤ limit }
    ensures { vec_len into.new ≤ limit }
{
    let mut piece = [0u8; PIECE];
    while into.len() < limit {
        let want = PIECE.min(limit - into.len());
        match file.read(&mut piece[..want]) {
            Ok(0) => return Ok(()),
            Ok(count) => {
                if into.extend_from_slice(&piece[..count]).is_err() {
                    return Err(LoadFault::NoMemory);
                }
            }
            Err(_) => return Err(LoadFault::Failed),
        }
    }
    Ok(())
}

// Writes all of it, and says whether that went well.
fn write_all<W: Write>(file: &mut W, bytes: &[u8]) -> bool {
    let mut rest = bytes;
    while !rest.is_empty() {
        match file.write(rest) {
            Ok(0) => return false,
            Ok(count) => rest = &rest[count..],
            Err(_) => return false,
        }
    }
    true
}

fn load_file<R: Files>(
    rt: &R,
    path: &str,
    into: &mut Vec<u8>,
    limit: usize,
) -> Result<(), LoadFault>
    requires { vec_len into.old ≤ limit }
    ensures { vec_len into.new ≤ limit }
{
    match File::open(rt, path) {
        Ok(mut file) => read_up_to(&mut file, into, limit),
        Err(_) => Err(LoadFault::Failed),
    }
}

fn save_file<R: Files>(rt: &R, path: &str, bytes: &[u8]) -> bool {
    match File::create(rt, path) {
        Ok(mut file) => write_all(&mut file, bytes),
        Err(_) => false,
    }
}

impl<R: Files> Store for FileStore<R> {
    ghost file = { λ _ _. None };

    ghost faults = { λ s. s.faults };

    ghost steady = { λ _. false };

    fn load(&mut self, path: &str, into: &mut Vec<u8>, limit: usize) -> Result<(), LoadFault> {
        into.clear();
        let result = load_file(&self.rt, path, into, limit);
        if let Err(fault) = result {
            into.clear();
            if fault == LoadFault::Failed {
                self.faults = self.faults.saturating_add(1);
            }
        }
        result
    }

    fn save(&mut self, path: &str, bytes: &[u8]) -> Result<(), SaveFault> {
        if save_file(&self.rt, path, bytes) {
            return Ok(());
        }
        self.faults = self.faults.saturating_add(1);
        Err(SaveFault::Failed)
    }
}

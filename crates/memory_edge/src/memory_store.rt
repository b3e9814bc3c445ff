//! A store in memory, which fails at listed calls.
ghost use Rattle.std.specs.Prelude.{◌≡◌, ◌≢◌, ◌≤◌, ◌/◌, ℕ, List, [], OnOk, OnErr, IfOk, IsErrOf, Some, None, vec_len};
ghost use Rattle.std.specs.Prelude.{length, take, MatchOption, if◌then◌else◌};
ghost use Rattle.memory_edge.specs.Memory.{planned};

use crate::calls::Calls;
use host_edge::{LoadFault, SaveFault, Store};
use std::alloc::{AllocError, Global};
use std::collections::BTreeMap;

/// A store that keeps its files as bytes. But for want of memory, a save fails exactly at a listed call, and a
/// load there and where no such file is there. Loads and saves are numbered together, from 0.
#[derive(Drop)]
pub struct MemStore {
    alloc: Global,
    files: BTreeMap<String, Vec<u8>>,
    calls: Calls,
}

impl MemStore {
    ghost use Rattle.memory_edge.specs.Stored.{file_at};

    /// An empty store, whose calls with the numbers `fails` fail.
    pub fn new(alloc: Global, fails: &[u64]) -> Result<MemStore, AllocError>
        ensures none { IfOk result (λ s. (q : List ℕ) → file_at s q ≡ None) }
        ensures calls { IfOk result (λ s. s.calls ≡ planned fails.now) }
    {
        Ok(MemStore {
            alloc,
            files: BTreeMap::new(alloc),
            calls: Calls::new(alloc, fails)?,
        })
    }

    /// Sets a file before a run. It is no numbered call. After want of memory the files are as before.
    pub fn put(&mut self, path: &str, bytes: &[u8]) -> Result<(), AllocError>
        ensures ok { OnOk result (file_at self.new path.now ≡ Some bytes.now) }
        ensures err { OnErr result ((q : List ℕ) → file_at self.new q ≡ file_at self.old q) }
        ensures others { (q : List ℕ) → q ≢ path.now → file_at self.new q ≡ file_at self.old q }
        ensures calls { self.new.calls ≡ self.old.calls }
    {
        let key = String::from_str(self.alloc, path)?;
        let value = bytes.to_vec(self.alloc)?;
        self.files.insert(key, value)?;
        Ok(())
    }

    /// The bytes of a file, or None exactly where it isn't there.
    pub fn file(&self, path: &str) -> Option<&[u8]>
        ensures { MatchOption result
            (file_at self.now path.now ≡ None)
            (λ bytes. file_at self.now path.now ≡ Some bytes.now) }
    {
        match self.files.get(path) {
            Some(bytes) => Some(bytes.as_slice()),
            None => None,
        }
    }
}

impl Store for MemStore {
    ghost use Rattle.memory_edge.specs.Stored.{file_at, load_fails};
    ghost use Rattle.host_edge.specs.Files.{Loads, Saves, SavesFront};
    ghost use Rattle.host_edge.specs.Causes.{LoadHasCause, SaveHasCause};
    ghost use Rattle.memory_edge.specs.Memory.{next_fails, counted, failed};
    ghost use Rattle.std.specs.Prelude.{true, ◌↔◌, false, not};

    ghost file = { λ s path. Some (file_at s path) };

    ghost faults = { λ s. s.calls.faults };

    ghost steady = { λ s. not (next_fails s.calls) };

    fn load(&mut self, path: &str, into: &mut Vec<u8>, limit: usize) -> Result<(), LoadFault>
        ensures bound { vec_len into.new ≤ limit }
        ensures loaded { OnOk result (Loads (Some (file_at self.old path.now)) limit into.new.items) }
        ensures empty { OnErr result (into.new.items ≡ []) }
        ensures same { (q : List ℕ) → Some (file_at self.new q) ≡ Some (file_at self.old q) }
        ensures cause { LoadHasCause self.old.calls.faults self.new.calls.faults result }
        ensures steady { not (next_fails self.old.calls) ≡ true → (f : List ℕ)
            → Some (file_at self.old path.now) ≡ Some (Some f) → IsErrOf result LoadFault.Failed → ⊥ }
        ensures failed { IsErrOf result LoadFault.Failed ↔ (load_fails self.old path.now ≡ true) }
        ensures calls { self.new.calls ≡ (if load_fails self.old path.now
            then failed self.old.calls
            else counted self.old.calls) }
    {
        into.clear();
        let listed = self.calls.next();
        match self.files.get(path) {
            Some(bytes) if !listed => {
                let count = bytes.len().min(limit);
                match into.extend_from_slice(&bytes[..count]) {
                    Ok(()) => Ok(()),
                    Err(_) => Err(LoadFault::NoMemory),
                }
            }
            _ => {
                self.calls.count_fault();
                Err(LoadFault::Failed)
            }
        }
    }

    /// At a listed call the file gets the first half of the bytes.
    fn save(&mut self, path: &str, bytes: &[u8]) -> Result<(), SaveFault>
        ensures saved { OnOk result
            (Saves (Some (file_at self.old path.now)) (Some (file_at self.new path.now)) bytes.now) }
        ensures front { IsErrOf result SaveFault.Failed
            → SavesFront (Some (file_at self.old path.now)) (Some (file_at self.new path.now)) bytes.now }
        ensures no_memory { IsErrOf result SaveFault.NoMemory
            → (q : List ℕ) → Some (file_at self.new q) ≡ Some (file_at self.old q) }
        ensures others { (q : List ℕ) → q ≢ path.now
            → Some (file_at self.new q) ≡ Some (file_at self.old q) }
        ensures cause { SaveHasCause self.old.calls.faults self.new.calls.faults result }
        ensures ok { OnOk result (next_fails self.old.calls ≡ false) }
        ensures failed { IsErrOf result SaveFault.Failed → next_fails self.old.calls ≡ true }
        ensures half { IsErrOf result SaveFault.Failed
            → file_at self.new path.now ≡ Some (take (length bytes.now / 2) bytes.now) }
        ensures counted { OnOk result (self.new.calls ≡ counted self.old.calls) }
        ensures counted_fault { IsErrOf result SaveFault.Failed → self.new.calls ≡ failed self.old.calls }
        ensures counted_unsaved { IsErrOf result SaveFault.NoMemory → self.new.calls ≡ counted self.old.calls }
    {
        let listed = self.calls.next();
        let count = if listed { bytes.len() / 2 } else { bytes.len() };
        if self.put(path, &bytes[..count]).is_err() {
            return Err(SaveFault::NoMemory);
        }
        if listed {
            self.calls.count_fault();
            return Err(SaveFault::Failed);
        }
        Ok(())
    }
}

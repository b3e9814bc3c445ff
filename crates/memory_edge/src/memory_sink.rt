//! A sink in memory, with room for so many bytes, which fails at listed calls.
ghost use Rattle.std.specs.Prelude.{◌≡◌, IfOk, Ok, Err, [], ◌++◌, ◌-◌, ◌<◌, take, length, if◌then◌else◌, true, false};
ghost use Rattle.std.specs.Io.{WritesAtMost};
ghost use Rattle.std.specs.Io.KnownBytes.{WriteAppends};
ghost use Rattle.host_edge.specs.Causes.{HasCause};
ghost use Rattle.memory_edge.specs.Memory.{SinkView, planned, write_fails, portion, counted, failed};

use crate::calls::Calls;
use host_edge::{Failed, Sink};
use std::alloc::{AllocError, Global};
use std::marker::Model;

/// A sink that keeps the bytes it takes. It takes all of a piece, or its first byte alone after `single`.
/// A write fails exactly at a listed call, and where fewer bytes of its room are free than it would take.
#[derive(Drop)]
pub struct MemSink {
    bytes: Vec<u8>,
    room: usize,
    single: bool,
    calls: Calls,
}

impl Model for MemSink {
    ghost use Rattle.std.specs.Prelude.{◌-◌, ◌≤◌, vec_len, vec_capacity};
    ghost use Rattle.memory_edge.specs.Memory.{SinkView};

    ghost Value = { SinkView };

    ghost view = { λ a. record {
      taken = a.bytes.items;
      free = a.room - vec_len a.bytes;
      single = a.single;
      calls = a.calls;
    } };

    ghost invariant = { λ a. (vec_len a.bytes ≤ a.room) × (a.room ≤ vec_capacity a.bytes) };
}

impl MemSink {
    /// An empty sink with room for `room` bytes, whose write calls with the numbers `fails`, counted from 0,
    /// fail. It takes the memory for its room here, and none later.
    pub fn new(alloc: Global, room: usize, fails: &[u64]) -> Result<MemSink, AllocError>
        ensures { IfOk result (λ s. s ≡ record { taken = []; free = room; single = false; calls = planned fails.now }) }
    {
        Ok(MemSink {
            bytes: Vec::with_capacity(alloc, room)?,
            room,
            single: false,
            calls: Calls::new(alloc, fails)?,
        })
    }

    /// From now on it takes one byte of a piece at a time.
    pub fn single(&mut self)
        ensures { self.new ≡ record self.old { single = true } }
    {
        self.single = true;
    }

    /// The bytes taken so far.
    pub fn taken(&self) -> &[u8]
        ensures { result.now ≡ self.now.taken }
    {
        self.bytes.as_slice()
    }
}

impl Sink for MemSink {
    ghost use Rattle.std.specs.Prelude.{Some};

    ghost taken = { λ s. Some s.taken };

    ghost faults = { λ s. s.calls.faults };

    fn write(&mut self, bytes: &[u8]) -> Result<usize, Failed>
        ensures bound { WritesAtMost result bytes.now }
        ensures some { IfOk result (λ n. 0 < length bytes.now → 0 < n) }
        ensures bytes { WriteAppends (Some self.old.taken) (Some self.new.taken) result bytes.now }
        ensures cause { HasCause self.old.calls.faults self.new.calls.faults result }
        ensures exact { result ≡ (if write_fails self.old bytes.now
            then Err (record {})
            else Ok (portion self.old bytes.now)) }
        ensures state { self.new ≡ (if write_fails self.old bytes.now
            then record self.old { calls = failed self.old.calls }
            else record self.old {
              taken = self.old.taken ++ take (portion self.old bytes.now) bytes.now;
              free = self.old.free - portion self.old bytes.now;
              calls = counted self.old.calls;
            }) }
    {
        let listed = self.calls.next();
        let count = if self.single {
            bytes.len().min(1)
        } else {
            bytes.len()
        };
        if listed || self.room - self.bytes.len() < count {
            self.calls.count_fault();
            return Err(Failed);
        }
        match self.bytes.extend_from_slice(&bytes[..count]) {
            Ok(()) => Ok(count),
            Err(_) => unreachable!(),
        }
    }
}

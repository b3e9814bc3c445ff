//! A source in memory, which fails at listed calls.
ghost use Rattle.std.specs.Prelude.{◌≡◌, IfOk, Ok, Err, ◌++◌, take, drop, min, length, if◌then◌else◌};
ghost use Rattle.std.specs.Io.{ReadsAtMost};
ghost use Rattle.std.specs.Io.KnownBytes.{ReadConsumes};
ghost use Rattle.host_edge.specs.Causes.{HasCause};
ghost use Rattle.memory_edge.specs.Memory.{SourceView, planned, next_fails, counted, failed};

use crate::calls::Calls;
use host_edge::{Failed, Source};
use std::alloc::{AllocError, Global};
use std::marker::Model;

/// A source over bytes of its own. A read fails exactly at a listed call, and otherwise gives as many bytes
/// as are left and fit.
#[derive(Drop)]
pub struct MemSource {
    bytes: Vec<u8>,
    at: usize,
    calls: Calls,
}

impl Model for MemSource {
    ghost use Rattle.std.specs.Prelude.{drop, ◌≤◌, vec_len};
    ghost use Rattle.memory_edge.specs.Memory.{SourceView};

    ghost Value = { SourceView };

    ghost view = { λ a. record { left = drop a.at a.bytes.items; calls = a.calls } };

    ghost invariant = { λ a. a.at ≤ vec_len a.bytes };
}

// Moves the front of some bytes to the front of the buffer, as many as fit.
fn move_front(buf: &mut [u8], rest: &[u8]) -> usize
    ensures count { result ≡ min (length buf.old) (length rest.now) }
    ensures given { buf.new ≡ take (length buf.old) rest.now ++ drop (length rest.now) buf.old }
    ensures moved { rest.now ≡ take result buf.new ++ drop result rest.now }
    ensures left { drop result rest.now ≡ drop (length buf.old) rest.now }
{
    let count = buf.len().min(rest.len());
    buf[..count].copy_from_slice(&rest[..count]);
    count
}

impl MemSource {
    /// A source of these bytes, whose read calls with the numbers `fails`, counted from 0, fail.
    pub fn new(alloc: Global, bytes: &[u8], fails: &[u64]) -> Result<MemSource, AllocError>
        ensures { IfOk result (λ s. s ≡ record { left = bytes.now; calls = planned fails.now }) }
    {
        Ok(MemSource {
            bytes: bytes.to_vec(alloc)?,
            at: 0,
            calls: Calls::new(alloc, fails)?,
        })
    }
}

impl Source for MemSource {
    ghost use Rattle.std.specs.Prelude.{Some};

    ghost left = { λ s. Some s.left };

    ghost faults = { λ s. s.calls.faults };

    fn read(&mut self, buf: &mut [u8]) -> Result<usize, Failed>
        ensures bound { ReadsAtMost result buf.new }
        ensures bytes { ReadConsumes (Some self.old.left) (Some self.new.left) result buf.new }
        ensures cause { HasCause self.old.calls.faults self.new.calls.faults result }
        ensures answer { result ≡ (if next_fails self.old.calls
            then Err (record {})
            else Ok (min (length buf.old) (length self.old.left))) }
        ensures left { self.new.left ≡ (if next_fails self.old.calls
            then self.old.left
            else drop (length buf.old) self.old.left) }
        ensures given { buf.new ≡ (if next_fails self.old.calls
            then buf.old
            else take (length buf.old) self.old.left ++ drop (length self.old.left) buf.old) }
        ensures calls { self.new.calls ≡ (if next_fails self.old.calls
            then failed self.old.calls
            else counted self.old.calls) }
    {
        if self.calls.next() {
            self.calls.count_fault();
            return Err(Failed);
        }
        let count = move_front(buf, &self.bytes[self.at..]);
        self.at += count;
        Ok(count)
    }
}

//! A sink in memory, some of whose calls fail.
ghost use Rattle.std.specs.Prelude.{◌≡◌, ℕ, ◌+◌, ◌-◌, ◌^◌, ◌≤◌, ◌<◌, ◌↔◌, ◌++◌, min, List, [], length, vec_capacity, take, Some, IfOk, OnOk, OnErr, IsErr, Contains};
ghost use Rattle.std.specs.Io.{WritesAtMost};
ghost use Rattle.std.specs.Io.KnownBytes.{WriteAppends};
ghost use Rattle.qs_base.specs.Causes.{HasCause};
ghost use Rattle.qs_io.specs.Memory.{raised, taken_count, RefusesGive};

use crate::faults::WriteFailed;
use crate::sink::Sink;
use qs_base::NoMemory;
use std::alloc::Global;
use std::marker::Model;

/// A sink of bytes in memory, with a room and a greatest piece, both in bytes. The calls whose
/// numbers, from 1, stand in its list fail, and so does a call with a part that is not empty on a
/// full sink.
#[derive(Drop)]
pub struct MemSink {
    bytes: Vec<u8>,
    room: usize,
    piece: usize,
    fail: Vec<u64>,
    calls: u64,
    faults: u64,
}

impl Model for MemSink {
    ghost use Rattle.std.specs.Prelude.{◌≤◌, length, vec_capacity};
    ghost use Rattle.qs_io.specs.Memory.{SinkValue};

    ghost Value = { SinkValue };

    ghost view = { λ s. record { given = s.bytes.items; room = s.room; piece = s.piece; fail = s.fail.items; calls = s.calls; faults = s.faults } };

    ghost invariant = { λ s. (length s.bytes.items ≤ s.room) × (s.room ≤ vec_capacity s.bytes) × (1 ≤ s.piece) };
}

impl MemSink {
    /// A sink with room for `room` bytes, which it takes now, that takes at most `piece` bytes at a
    /// call, and whose calls with the numbers of `fail`, from 1, fail. `NoMemory` comes where memory
    /// was asked for and refused.
    pub fn new(alloc: Global, room: usize, piece: usize, fail: &[u64]) -> Result<MemSink, NoMemory>
        requires { 1 ≤ piece }
        ensures { IfOk result (λ s. s ≡ record { given = []; room = room; piece = piece; fail = fail.now; calls = 0; faults = 0 }) }
    {
        Ok(MemSink {
            bytes: Vec::with_capacity(alloc, room)?,
            room,
            piece,
            fail: Vec::from_slice(alloc, fail)?,
            calls: 0,
            faults: 0,
        })
    }

    /// The bytes that it was given, in order.
    pub fn given(&self) -> &[u8]
        ensures { result.now ≡ self.now.given }
    {
        self.bytes.as_slice()
    }
}

impl Sink for MemSink {
    ghost given = { λ s. Some s.given };

    ghost faults = { λ s. s.faults };

    fn give(&mut self, part: &[u8]) -> Result<usize, WriteFailed>
        ensures bound { WritesAtMost result part.now }
        ensures some { IfOk result (λ n. 0 < length part.now → 0 < n) }
        ensures bytes { WriteAppends (Some self.old.given) (Some self.new.given) result part.now }
        ensures cause { HasCause self.old.faults self.new.faults result }

        // Which calls fail, and how many bytes another one takes.
        ensures fails { IsErr result ↔ RefusesGive self.old (length part.now) }
        ensures count { IfOk result (λ n. n ≡ taken_count self.old (length part.now)) }

        // What the call leaves.
        ensures calls { self.new.calls ≡ raised self.old.calls }
        ensures fail { self.new.fail ≡ self.old.fail }
        ensures room { self.new.room ≡ self.old.room }
        ensures piece { self.new.piece ≡ self.old.piece }
        ensures quiet { OnOk result (self.new.faults ≡ self.old.faults) }
        ensures counted { OnErr result (self.new.faults ≡ raised self.old.faults) }
    {
        self.calls = self.calls.saturating_add(1);
        let room = self.room - self.bytes.len();
        if self.fail.contains(&self.calls) || room == 0 && !part.is_empty() {
            self.faults = self.faults.saturating_add(1);
            return Err(WriteFailed);
        }
        let count = part.len().min(self.piece).min(room);
        append_within(&mut self.bytes, &part[..count]);
        Ok(count)
    }
}

// Adds bytes at the end, for which room is taken already.
fn append_within(bytes: &mut Vec<u8>, part: &[u8])
    requires { length bytes.old.items + length part.now ≤ vec_capacity bytes.old }
    ensures items { bytes.new.items ≡ bytes.old.items ++ part.now }
    ensures capacity { vec_capacity bytes.old ≤ vec_capacity bytes.new }
{
    bytes.extend_from_slice(part).unwrap();
}

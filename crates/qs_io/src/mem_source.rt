//! A source in memory, some of whose calls fail.
ghost use Rattle.std.specs.Prelude.{◌≡◌, ℕ, ◌+◌, ◌-◌, ◌^◌, ◌≤◌, ◌<◌, ◌↔◌, min, List, ◌++◌, length, take, drop, Some, IfOk, OnOk, OnErr, IsErr, Contains};
ghost use Rattle.std.specs.Io.{ReadsAtMost};
ghost use Rattle.std.specs.Io.KnownBytes.{ReadConsumes};
ghost use Rattle.qs_base.specs.Causes.{HasCause};
ghost use Rattle.qs_io.specs.Memory.{raised};

use crate::faults::ReadFailed;
use crate::source::Source;
use qs_base::{Bytes, NoMemory};
use std::alloc::Global;
use std::marker::Model;

/// A source of bytes in memory. The calls whose numbers, from 1, stand in its list fail.
#[derive(Drop)]
pub struct MemSource {
    bytes: Vec<u8>,
    at: usize,
    fail: Vec<u64>,
    calls: u64,
    faults: u64,
}

impl Model for MemSource {
    ghost use Rattle.std.specs.Prelude.{◌≤◌, length, drop};
    ghost use Rattle.qs_io.specs.Memory.{SourceValue};

    ghost Value = { SourceValue };

    ghost view = { λ s. record { left = drop s.at s.bytes.items; fail = s.fail.items; calls = s.calls; faults = s.faults } };

    ghost invariant = { λ s. s.at ≤ length s.bytes.items };
}

impl MemSource {
    /// A source of these bytes, whose calls with the numbers of `fail`, from 1, fail. `NoMemory`
    /// comes where memory was asked for and refused.
    pub fn new(alloc: Global, bytes: &[u8], fail: &[u64]) -> Result<MemSource, NoMemory>
        ensures { IfOk result (λ s. s ≡ record { left = bytes.now; fail = fail.now; calls = 0; faults = 0 }) }
    {
        Ok(MemSource {
            bytes: Vec::from_slice(alloc, bytes)?,
            at: 0,
            fail: Vec::from_slice(alloc, fail)?,
            calls: 0,
            faults: 0,
        })
    }
}

impl Source for MemSource {
    ghost left = { λ s. Some s.left };

    ghost faults = { λ s. s.faults };

    fn take(&mut self, buf: &mut [u8]) -> Result<usize, ReadFailed>
        ensures bound { ReadsAtMost result buf.new }
        ensures bytes { ReadConsumes (Some self.old.left) (Some self.new.left) result buf.new }
        ensures cause { HasCause self.old.faults self.new.faults result }

        // Which calls fail, and how many bytes another one gives.
        ensures fails { IsErr result ↔ Contains self.old.fail (raised self.old.calls) }
        ensures count { IfOk result (λ n. n ≡ min (length buf.new) (length self.old.left)) }

        // What the call leaves.
        ensures calls { self.new.calls ≡ raised self.old.calls }
        ensures fail { self.new.fail ≡ self.old.fail }
        ensures quiet { OnOk result (self.new.faults ≡ self.old.faults) }
        ensures counted { OnErr result (self.new.faults ≡ raised self.old.faults) }
    {
        self.calls = self.calls.saturating_add(1);
        if self.fail.contains(&self.calls) {
            self.faults = self.faults.saturating_add(1);
            return Err(ReadFailed);
        }
        let count = copy_out(&self.bytes, self.at, buf);
        self.at += count;
        Ok(count)
    }
}

// Copies the bytes from `at` on into a front of `buf`, as many as there are or fit.
fn copy_out(bytes: &[u8], at: usize, buf: &mut [u8]) -> usize
    requires { at ≤ length bytes.now }
    ensures count { result ≡ min (length buf.new) (length bytes.now - at) }
    ensures bytes { drop at bytes.now ≡ take result buf.new ++ drop (at + result) bytes.now }
{
    let count = buf.len().min(bytes.len() - at);
    buf[..count].copy_from_slice(&bytes[at..at + count]);
    count
}

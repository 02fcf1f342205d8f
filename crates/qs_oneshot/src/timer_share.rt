//! The timers of one transaction.
ghost use Rattle.std.specs.Prelude.{◌≡◌, OnOk, OnErr};
ghost use Rattle.std.specs.Map.{lookup};
ghost use Rattle.std.specs.BTreeMap.{is_at};
ghost use Rattle.qs_base.specs.Order.{bytes_cmp};
ghost use Rattle.qs_ops.specs.Timers.{no_timer_share, after_timer};

use qs_base::{Bytes, Copied, NoMemory};
use qs_ops::{Op, Reply};
use std::alloc::Global;
use std::collections::BTreeMap;
use std::marker::Model;

/// What a transaction holds at a timers server.
#[derive(Drop)]
pub struct TimerShare {
    /// Under each name the tick at which its timer stands at 0.
    timers: BTreeMap<Bytes, u64>,
    /// How many of its operations count.
    operations: u32,
}

impl Model for TimerShare {
    ghost use Rattle.qs_ops.specs.Timers.{TimerShareValue};

    ghost Value = { TimerShareValue };

    ghost view = { λ s. record { timers = s.timers.entries; operations = s.operations } };
}

impl TimerShare {
    /// Nothing held. It takes no memory.
    pub fn new(alloc: Global) -> TimerShare
        ensures { result ≡ no_timer_share }
    {
        TimerShare {
            timers: BTreeMap::new(alloc),
            operations: 0,
        }
    }

    /// The tick at which the timer of that name stands at 0.
    pub fn timer(&self, name: &Bytes) -> Option<u64>
        ensures { result ≡ lookup (is_at (bytes_cmp name.now)) self.now.timers }
    {
        self.timers.get(name).copied()
    }

    /// How many operations count.
    pub fn operations(&self) -> u32
        ensures { result ≡ self.now.operations }
    {
        self.operations
    }

    /// Adds what serving an operation with this reply at tick `now` makes. A count or a tick that
    /// passes its type is a refusal of memory too; after a refusal it is as it was.
    pub fn serve(&mut self, now: u64, op: &Op, reply: &Reply) -> Result<(), NoMemory>
        ensures ok { OnOk result (self.new ≡ after_timer now self.old op.now reply.now) }
        ensures err { OnErr result (self.new ≡ self.old) }
    {
        if let Reply::TooMany = reply {
            return Ok(());
        }
        let operations = self.operations.checked_add(1).ok_or(NoMemory)?;
        match (op, reply) {
            (Op::Timer { name, ticks }, Reply::Done) => {
                let at = now.checked_add(u64::from(*ticks)).ok_or(NoMemory)?;
                self.timers.insert(name.copy()?, at)?;
            }
            _ => {}
        }
        self.operations = operations;
        Ok(())
    }
}

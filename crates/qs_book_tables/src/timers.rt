//! The table of a timers server. A timer is never committed: it belongs to its transaction.
ghost use Rattle.std.specs.Prelude.{◌≡◌, ◌↔◌, ◌<◌, ◌+◌, Option, Some, IsTrue, OnOk, OnErr};
ghost use Rattle.std.specs.Map.{lookup, remove_entry};
ghost use Rattle.std.specs.BTreeMap.{insert_entry, is_at, IsOrdered};
ghost use Rattle.qs_base.specs.Order.{bytes_cmp, tid_cmp};
ghost use Rattle.qs_ops.specs.Alike.{same_reply};
ghost use Rattle.qs_ops.specs.Table.{is_due};
ghost use Rattle.qs_ops.specs.Timers.{no_timer_share, left_reply, after_timer, timer_share_in};

use qs_base::{Bytes, Copied, NoMemory, Tid};
use qs_ops::{Op, Reply};
use std::alloc::Global;
use std::collections::BTreeMap;
use std::marker::Model;

/// What a transaction holds at a timers server.
#[derive(Drop)]
struct BookTimers {
    /// Under each name the tick at which its timer stands at 0.
    timers: BTreeMap<Bytes, u64>,
    /// How many of its operations count.
    operations: u32,
}

impl Model for BookTimers {
    ghost use Rattle.qs_ops.specs.Timers.{TimerShareValue};

    ghost Value = { TimerShareValue };

    ghost view = { λ s. record { timers = s.timers.entries; operations = s.operations } };
}

impl BookTimers {
    /// Nothing held. It takes no memory.
    fn new(alloc: Global) -> BookTimers
        ensures { result ≡ no_timer_share }
    {
        BookTimers {
            timers: BTreeMap::new(alloc),
            operations: 0,
        }
    }

    /// The tick at which the timer of that name stands at 0.
    fn timer(&self, name: &Bytes) -> Option<u64>
        ensures { result ≡ lookup (is_at (bytes_cmp name.now)) self.now.timers }
    {
        self.timers.get(name).copied()
    }

    /// How many operations count.
    fn operations(&self) -> u32
        ensures { result ≡ self.now.operations }
    {
        self.operations
    }

    /// What serving an operation with this reply at tick `now` adds. After a refusal it is as it
    /// was; a tick that passes a `u64` is a refusal of memory too.
    fn serve(&mut self, now: u64, op: &Op, reply: &Reply) -> Result<(), NoMemory>
        ensures ok { OnOk result (self.new ≡ after_timer now self.old op.now reply.now) }
        ensures err { OnErr result (self.new ≡ self.old) }
    {
        if let Reply::TooMany = reply {
            return Ok(());
        }
        let operations = self.operations.checked_add(1).ok_or(NoMemory)?;
        if let (Op::Timer { name, ticks }, Reply::Done) = (op, reply) {
            set_timer(&mut self.timers, now, name, *ticks)?;
        }
        self.operations = operations;
        Ok(())
    }
}

/// The timer of that name stands at 0 so many ticks after `now`. After a refusal, for which a tick
/// that passes a `u64` stands too, all are as they were.
fn set_timer(
    timers: &mut BTreeMap<Bytes, u64>,
    now: u64,
    name: &Bytes,
    ticks: u32,
) -> Result<(), NoMemory>
    ensures ok { OnOk result (timers.new.entries ≡ insert_entry bytes_cmp timers.old.entries name.now (now + ticks)) }
    ensures err { OnErr result (timers.new.entries ≡ timers.old.entries) }
{
    let at = now.checked_add(u64::from(ticks)).ok_or(NoMemory)?;
    timers.insert(name.copy()?, at)?;
    Ok(())
}

/// What serving an operation with this reply adds to what a transaction holds. After a refusal all
/// hold what they did.
fn serve(
    alloc: Global,
    shares: &mut BTreeMap<Tid, BookTimers>,
    tid: Tid,
    now: u64,
    op: &Op,
    reply: &Reply,
) -> Result<(), NoMemory>
    ensures ok { OnOk result (shares.new.entries ≡ insert_entry tid_cmp shares.old.entries tid (after_timer now (timer_share_in shares.old.entries tid) op.now reply.now)) }
    ensures err { OnErr result (shares.new.entries ≡ shares.old.entries) }
{
    match shares.get_mut(&tid) {
        Some(share) => share.serve(now, op, reply),
        None => {
            let mut share = BookTimers::new(alloc);
            match share.serve(now, op, reply) {
                Ok(()) => {
                    drop(shares.insert(tid, share)?);
                    Ok(())
                }
                Err(refused) => {
                    drop(share);
                    Err(refused)
                }
            }
        }
    }
}

/// Whether the reply tells what is left at tick `now` of a timer that stands at 0 at that tick.
fn is_left_reply(now: u64, at: Option<u64>, reply: &Reply) -> bool
    ensures { result ≡ same_reply (left_reply now at) reply.now }
{
    match (at, reply) {
        (None, Reply::Absent) => true,
        (Some(at), Reply::Left { ticks }) => at.saturating_sub(now) == u64::from(*ticks),
        _ => false,
    }
}

/// The table of a timers server.
#[derive(Drop)]
pub struct TimerTable {
    ticks: u64,
    shares: BTreeMap<Tid, BookTimers>,
    alloc: Global,
}

impl Model for TimerTable {
    ghost use Rattle.qs_ops.specs.Timers.{TimersValue};

    ghost Value = { TimersValue };

    ghost view = { λ t. record { ticks = t.ticks; shares = t.shares.entries } };
}

impl TimerTable {
    ghost use Rattle.qs_ops.specs.Timers.{no_timers, timer_share_of, free_timer_reply, timer_reply_to, timer_served, timers_ended, ticked};

    /// No timer, before the first tick. It takes no memory.
    pub fn new(alloc: Global) -> TimerTable
        ensures { result ≡ no_timers }
    {
        TimerTable {
            ticks: 0,
            shares: BTreeMap::new(alloc),
            alloc,
        }
    }

    /// The tick at which the transaction's timer of that name stands at 0.
    fn timer(&self, tid: Tid, name: &Bytes) -> Option<u64>
        ensures { result ≡ lookup (is_at (bytes_cmp name.now)) (timer_share_of self.now tid).timers }
    {
        match self.shares.get(&tid) {
            Some(share) => share.timer(name),
            None => None,
        }
    }

    /// How many operations of the transaction count.
    fn operations(&self, tid: Tid) -> u32
        ensures { result ≡ (timer_share_of self.now tid).operations }
    {
        match self.shares.get(&tid) {
            Some(share) => share.operations(),
            None => 0,
        }
    }

    /// Whether this is the reply to the operation where nothing refuses it.
    fn is_free_reply(&self, tid: Tid, op: &Op, reply: &Reply) -> bool
        ensures { result ≡ is_due (free_timer_reply self.now tid op.now) reply.now }
    {
        match op {
            Op::Timer { .. } => match reply {
                Reply::Done => true,
                _ => false,
            },
            Op::Left { name } => is_left_reply(self.ticks, self.timer(tid, name), reply),
            _ => false,
        }
    }

    /// Whether this is the reply to the operation; no reply is one to an operation of another
    /// server. It takes no memory.
    pub fn is_reply(&self, tid: Tid, op: &Op, reply: &Reply) -> bool
        ensures { result ≡ is_due (timer_reply_to self.now tid op.now) reply.now }
    {
        if self.operations(tid) < 1024 {
            return self.is_free_reply(tid, op, reply);
        }
        match (op, reply) {
            (Op::Timer { .. } | Op::Left { .. }, Reply::TooMany) => true,
            _ => false,
        }
    }

    /// Serves an operation with this reply. The only error is a refusal of memory, for which a
    /// count at its end or a timer whose last tick would pass a `u64` stands too; all is then as it
    /// was.
    pub fn served(&mut self, tid: Tid, op: &Op, reply: &Reply) -> Result<(), NoMemory>
        ensures ok { OnOk result (self.new ≡ timer_served self.old tid op.now reply.now) }
        ensures err { OnErr result (self.new ≡ self.old) }
    {
        serve(self.alloc, &mut self.shares, tid, self.ticks, op, reply)
    }

    /// The timers of the transaction are dropped. It takes no memory.
    pub fn end(&mut self, tid: Tid)
        ensures { self.new ≡ timers_ended self.old tid }
    {
        drop(self.shares.remove(&tid));
    }

    /// How many ticks have come.
    pub fn ticks(&self) -> u64
        ensures { result ≡ self.now.ticks }
    {
        self.ticks
    }

    /// One tick more of the node. The only error is a count of ticks that stands at its last
    /// value; all is then as it was.
    pub fn tick(&mut self) -> Result<(), NoMemory>
        ensures ok { OnOk result (self.new ≡ ticked self.old) }
        ensures err { OnErr result (self.new ≡ self.old) }
    {
        self.ticks = self.ticks.checked_add(1).ok_or(NoMemory)?;
        Ok(())
    }

    /// All timers are dropped, and no tick has come yet. It takes no memory.
    pub fn clear(&mut self)
        ensures { self.new ≡ no_timers }
    {
        self.ticks = 0;
        self.shares = BTreeMap::new(self.alloc);
    }
}

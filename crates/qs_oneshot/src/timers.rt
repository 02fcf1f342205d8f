//! The timers server.
ghost use Rattle.std.specs.Prelude.{◌≡◌, ◌<◌, Some, true, IfOk, OnOk, OnErr, nat_le, Ok};
ghost use Rattle.std.specs.Map.{lookup};
ghost use Rattle.std.specs.BTreeMap.{insert_entry, is_at};
ghost use Rattle.qs_base.specs.Order.{bytes_cmp, tid_cmp};
ghost use Rattle.qs_ops.specs.declared.vote.Vote.TheVariants as votes;
ghost use Rattle.qs_ops.specs.Server.{is_own};
ghost use Rattle.qs_ops.specs.Table.{no_table};
ghost use Rattle.qs_ops.specs.Timers.{no_timers, timer_share_in, timer_share_of, timer_reply_to, left_reply, after_timer, timers_ended, ticked};
ghost use Rattle.qs_ops.specs.declared.server.ServerKind.TheVariants as kinds;

use crate::timer_share::TimerShare;
use qs_base::{Bytes, Class, List, NoMemory, Tid};
use qs_ops::{Changes, Notice, Op, Reply, Server, Vote};
use std::alloc::Global;
use std::collections::BTreeMap;
use std::marker::Model;

/// How many operations of a transaction are served.
const MOST_OPERATIONS: u32 = 1024;

/// The timers server of a node. A timer belongs to its transaction until that ends.
#[derive(Drop)]
pub struct Timers {
    ticks: u64,
    shares: BTreeMap<Tid, TimerShare>,
    alloc: Global,
}

impl Model for Timers {
    ghost use Rattle.qs_ops.specs.Timers.{TimersValue};

    ghost Value = { TimersValue };

    ghost view = { λ t. record { ticks = t.ticks; shares = t.shares.entries } };
}

impl Timers {
    /// No timer, before the first tick. It takes no memory.
    pub fn new(alloc: Global) -> Timers
        ensures { result ≡ no_timers }
    {
        Timers {
            ticks: 0,
            shares: BTreeMap::new(alloc),
            alloc,
        }
    }

    /// One tick more of the node: each timer counts down by one, to 0. The only error is a count of
    /// ticks that stands at its last value; all is then as it was.
    pub fn tick(&mut self) -> Result<(), NoMemory>
        ensures ok { OnOk result (self.new ≡ ticked self.old) }
        ensures err { OnErr result (self.new ≡ self.old) }
        ensures refused { OnErr result (self.old.ticks ≡ 18446744073709551615) }
    {
        self.ticks = self.ticks.checked_add(1).ok_or(NoMemory)?;
        Ok(())
    }

    /// The timers of the transaction are dropped. It takes no memory.
    fn end(&mut self, tid: Tid)
        ensures { self.new ≡ timers_ended self.old tid }
    {
        self.shares.remove(&tid);
    }

    /// The tick at which the transaction's timer of that name stands at 0.
    fn timer(&self, tid: Tid, name: &Bytes) -> Option<u64>
        ensures { result ≡ lookup (is_at (bytes_cmp name.now)) (timer_share_of self.now tid).timers }
    {
        match self.shares.get(&tid) {
            Some(share) => share.timer(name),
            None => None,
        }
    }

    /// Whether as many operations of the transaction were served as are served.
    fn is_full(&self, tid: Tid) -> bool
        ensures { result ≡ nat_le 1024 (timer_share_of self.now tid).operations }
    {
        match self.shares.get(&tid) {
            Some(share) => share.operations() >= MOST_OPERATIONS,
            None => false,
        }
    }

    /// The reply to an operation of its own.
    fn reply(&self, tid: Tid, op: &Op) -> Result<Reply, NoMemory>
        requires { is_own kinds.Timers op.now ≡ true }
        ensures { IfOk result (λ reply. timer_reply_to self.now tid op.now ≡ Some reply) }
    {
        if self.is_full(tid) {
            return Ok(Reply::TooMany);
        }
        match op {
            Op::Left { name } => left_reply(self.ticks, self.timer(tid, name)),
            _ => Ok(Reply::Done),
        }
    }
}

impl Server for Timers {
    ghost state = { λ timers. record { kind = kinds.Timers; table = no_table; timers = timers } };

    fn class(&self) -> Class {
        Class::Immediate
    }

    fn serve(&mut self, tid: Tid, op: &Op) -> Result<Reply, NoMemory> {
        let reply = self.reply(tid, op)?;
        serve(self.alloc, &mut self.shares, tid, self.ticks, op, &reply)?;
        Ok(reply)
    }

    /// Timers have no vote, and no node asks for one: it would be read-only, and change nothing.
    fn vote(&mut self, _tid: Tid, _free: u64, _frame: u64) -> Result<Vote, NoMemory>
        ensures answer { result ≡ Ok votes.ReadOnly }
        ensures unchanged { self.new ≡ self.old }
    {
        Ok(Vote::ReadOnly)
    }

    fn note(&mut self, tid: Tid, notice: Notice) {
        match notice {
            Notice::Ending => self.end(tid),
            Notice::Commit | Notice::Abort => {}
        }
    }

    fn changes(&self, _tid: Tid) -> Result<Changes, NoMemory> {
        Ok(List::new(self.alloc))
    }

    fn keep(&mut self, _tid: Tid, _changes: &Changes) -> Result<(), NoMemory> {
        Ok(())
    }

    fn contents(&self) -> Result<Changes, NoMemory> {
        Ok(List::new(self.alloc))
    }

    /// Timers are no changes or reads, and end by a notice of their own.
    fn holds(&self) -> bool {
        false
    }

    fn clear(&mut self) {
        self.ticks = 0;
        self.shares = BTreeMap::new(self.alloc);
    }
}

/// The reply that tells what is left at tick `now` of a timer that stands at 0 at tick `at`. It is
/// at most what the timer was set to; more than a `u32` tells is a refusal of memory.
fn left_reply(now: u64, at: Option<u64>) -> Result<Reply, NoMemory>
    ensures { IfOk result (λ reply. reply ≡ left_reply now at) }
{
    let Some(at) = at else {
        return Ok(Reply::Absent);
    };
    match u32::try_from(at.saturating_sub(now)) {
        Ok(ticks) => Ok(Reply::Left { ticks }),
        Err(_) => Err(NoMemory),
    }
}

/// Adds what serving an operation with this reply makes to what the transaction holds. After a
/// refusal all hold what they did.
fn serve(
    alloc: Global,
    shares: &mut BTreeMap<Tid, TimerShare>,
    tid: Tid,
    now: u64,
    op: &Op,
    reply: &Reply,
) -> Result<(), NoMemory>
    ensures ok { OnOk result (shares.new.entries ≡ insert_entry tid_cmp shares.old.entries tid (after_timer now (timer_share_in shares.old.entries tid) op.now reply.now)) }
    ensures err { OnErr result (shares.new.entries ≡ shares.old.entries) }
{
    match shares.get_mut(&tid) {
        Some(share) => share.serve(now, op, reply),
        None => {
            let mut share = TimerShare::new(alloc);
            share.serve(now, op, reply)?;
            shares.insert(tid, share)?;
            Ok(())
        }
    }
}

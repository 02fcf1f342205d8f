//! What waits at one server, first in, first out.
ghost use Rattle.std.specs.Prelude.{◌≡◌, ◌≤◌, ◌<◌, ◌++◌, OnOk, OnErr, IfErr, is_some, false, map};
ghost use Rattle.std.specs.Iterator.Runs.{YieldsRefsInOrder};
ghost use Rattle.std.specs.VecDeque.Iter.{deque_iter_steps, deque_iter_rest};
ghost use Rattle.std.specs.Map.{lookup};
ghost use Rattle.std.specs.BTreeMap.{is_at};
ghost use Rattle.qs_base.specs.Order.{tid_cmp};
ghost use Rattle.qs_ipc.specs.Ipc.{turns_at};
ghost use Rattle.qs_ipc.specs.Queue.{no_queue, counts_at, count_of, is_full_at, added, first, after_first, forgotten, waits_at, has_some, changed_entry, served_more, mark_stale, marked};

use crate::delivery::Delivery;
use qs_base::{List, NoMemory, NodeNo, ServerNo, Tid};
use qs_base_map::newest_first;
use std::alloc::Global;
use std::collections::vec_deque::Iter;
use std::collections::{BTreeMap, VecDeque};
use std::marker::Model;

/// How many requests of one transaction wait at one server, and how many it served.
#[derive(Clone, Copy)]
pub struct QueueCounts {
    pub waiting: u32,
    pub served: u32,
}

/// A server's queue.
#[derive(Drop)]
pub struct Queue {
    waiting: VecDeque<Delivery>,
    counts: BTreeMap<Tid, QueueCounts>,
}

impl Model for Queue {
    ghost use Rattle.qs_ipc.specs.Queue.{QueueValue, IsCounted};

    ghost Value = { QueueValue };

    ghost view = { λ q. record { waiting = q.waiting.items; counts = q.counts.entries } };

    ghost invariant = { λ q. IsCounted q.waiting.items q.counts.entries };
}

impl Queue {
    /// Nothing waits, and nothing was served. It takes no memory.
    pub fn new(alloc: Global) -> Queue
        ensures { result ≡ no_queue }
    {
        Queue {
            waiting: VecDeque::new(alloc),
            counts: BTreeMap::new(alloc),
        }
    }

    /// How many requests of the transaction wait here, and how many were served.
    pub fn counts(&self, tid: Tid) -> QueueCounts
        ensures { result ≡ counts_at self.now.counts tid }
    {
        counts_at(&self.counts, tid)
    }

    /// How many requests of the transaction wait here.
    pub fn waiting(&self, tid: Tid) -> u32
        ensures { result ≡ count_of tid self.now.waiting }
    {
        counts_at(&self.counts, tid).waiting
    }

    /// The requests that wait here, the first to be served first.
    pub fn iter(&self) -> Iter<'_, Delivery>
        ensures rest { deque_iter_rest result ≡ self.now.waiting }
        ensures runs { YieldsRefsInOrder (deque_iter_steps {X = Delivery}) deque_iter_rest }
    {
        self.waiting.iter()
    }

    /// Whether a request of the transaction came here since it was last forgotten.
    pub fn has(&self, tid: Tid) -> bool
        ensures { result ≡ is_some (lookup (is_at (tid_cmp tid)) self.now.counts) }
    {
        newest_first(&self.counts, &tid).is_some()
    }

    /// Whether the transaction's requests that wait here or were served are as many as can be counted.
    pub fn is_full(&self, tid: Tid) -> bool
        ensures { result ≡ is_full_at tid self.now }
    {
        let counts = counts_at(&self.counts, tid);
        u64::from(counts.waiting) + u64::from(counts.served) == u64::from(u32::MAX)
    }

    /// Whether a request of the transaction waits here.
    pub fn waits(&self, tid: Tid) -> bool
        ensures { result ≡ waits_at tid self.now }
    {
        counts_at(&self.counts, tid).waiting > 0
    }

    /// Whether anything waits.
    pub fn has_some(&self) -> bool
        ensures { result ≡ has_some self.now }
    {
        !self.waiting.is_empty()
    }

    /// The server, as often as a request waits here.
    pub fn add_turns(&self, turns: &mut List<ServerNo>, server: ServerNo) -> Result<(), NoMemory>
        ensures { OnOk result (turns.new ≡ turns.old ++ turns_at (server, self.now)) }
    {
        for _turn in 0..self.waiting.len() {
            turns.push(server)?;
        }
        Ok(())
    }

    /// The request waits behind all others. For want of memory it is handed back, and all is as it was.
    pub fn add(&mut self, delivery: Delivery) -> Result<(), Delivery>
        requires { is_full_at delivery.tid self.old ≡ false }
        ensures ok { OnOk result (self.new ≡ added delivery self.old) }
        ensures err { OnErr result (self.new ≡ self.old) }
        ensures back { IfErr result (λ back. back ≡ delivery) }
    {
        let counts = counts_at(&self.counts, delivery.tid);
        let Ok(()) = self.waiting.reserve(1) else {
            return Err(delivery);
        };
        let more = QueueCounts {
            waiting: counts.waiting + 1,
            ..counts
        };
        let Ok(_) = self.counts.insert(delivery.tid, more) else {
            return Err(delivery);
        };
        self.waiting.push_back_reserved(delivery);
        Ok(())
    }

    /// The request that waits first, which counts as served from now on. It takes no memory.
    pub fn take(&mut self) -> Option<Delivery>
        ensures answer { result ≡ first self.old }
        ensures state { self.new ≡ after_first self.old }
    {
        let delivery = self.waiting.pop_front()?;
        serve_one(&mut self.counts, delivery.tid);
        Some(delivery)
    }

    /// Nothing of the transaction was served here. It takes no memory.
    pub fn forget(&mut self, tid: Tid)
        requires { waits_at tid self.old ≡ false }
        ensures { self.new ≡ forgotten tid self.old }
    {
        self.counts.remove(&tid);
    }

    /// The requests of that node that wait here are of an incarnation that is known to be dead. It takes
    /// no memory.
    pub fn mark_stale(&mut self, peer: NodeNo)
        ensures { self.new ≡ marked peer self.old }
    {
        mark_each(self.waiting.make_contiguous(), peer);
    }
}

fn mark_each(waiting: &mut [Delivery], peer: NodeNo)
    ensures { waiting.new ≡ map (mark_stale peer) waiting.old }
{
    for delivery in waiting.iter_mut() {
        mark(delivery, peer);
    }
}

fn mark(delivery: &mut Delivery, peer: NodeNo)
    ensures { delivery.new ≡ mark_stale peer delivery.old }
{
    if delivery.from == peer {
        delivery.stale = true;
    }
}

fn counts_at(counts: &BTreeMap<Tid, QueueCounts>, tid: Tid) -> QueueCounts
    ensures { result ≡ counts_at counts.now.entries tid }
{
    match newest_first(counts, &tid) {
        Some(counts) => *counts,
        None => QueueCounts {
            waiting: 0,
            served: 0,
        },
    }
}

/// One request of the transaction that waited is served.
fn serve_one(counts: &mut BTreeMap<Tid, QueueCounts>, tid: Tid)
    requires waits { 1 ≤ (counts_at counts.old.entries tid).waiting }
    requires fits { (counts_at counts.old.entries tid).served < 4294967295 }
    ensures { counts.new.entries ≡ changed_entry (is_at (tid_cmp tid)) served_more counts.old.entries }
{
    if let Some(counts) = counts.get_mut(&tid) {
        counts.waiting -= 1;
        counts.served += 1;
    }
}

//! The queues of a node.
ghost use Rattle.std.specs.Prelude.{◌≡◌, ◌↔◌, true, false, [], OnOk, OnErr, IfOk, IfErr};
ghost use Rattle.std.specs.Map.Iter.{ShowsInOrder, deref_pair};
ghost use Rattle.std.specs.BTreeMap.{is_at, IsOrdered};
ghost use Rattle.qs_ipc.specs.declared.delivery.Why.TheVariants as whys;
ghost use Rattle.qs_ipc.specs.Queue.{is_for, is_full_at, changed_entry, forgotten};
ghost use Rattle.qs_ipc.specs.Ipc.{server_cmp, queue_at, is_full, waits, queued, served, members, turns, enqueue, next, after_next, forget, mark_queues};

use crate::delivery::{Delivery, Refused, Why, is_for};
use crate::queue::Queue;
use qs_base::{List, NoMemory, NodeNo, ServerNo, Tid};
use std::alloc::Global;
use std::collections::BTreeMap;
use std::collections::btree_map::Iter;
use std::marker::Model;

/// How many server numbers there are.
const SERVERS: u16 = 256;

/// The requests that wait at the servers of a node, and how many each served of each transaction.
#[derive(Drop)]
pub struct Ipc {
    queues: BTreeMap<ServerNo, Queue>,
    alloc: Global,
}

impl Model for Ipc {
    ghost use Rattle.qs_ipc.specs.Ipc.{IpcValue};

    ghost Value = { IpcValue };

    ghost view = { λ i. i.queues.entries };
}

impl Ipc {
    /// Empty queues, and nothing served. It takes no memory.
    pub fn new(alloc: Global) -> Ipc
        ensures { result ≡ [] }
    {
        Ipc {
            queues: BTreeMap::new(alloc),
            alloc,
        }
    }

    /// The request waits at the server, behind all others. It is handed back, and all is as it was,
    /// exactly where the operation is not one of that server's, and for want of memory.
    pub fn enqueue(&mut self, server: ServerNo, delivery: Delivery) -> Result<(), Refused>
        requires { is_full server delivery.tid self.old ≡ false }
        ensures ok { OnOk result (self.new ≡ enqueue server delivery self.old) }
        ensures err { OnErr result (self.new ≡ self.old) }
        ensures back { IfErr result (λ refused. refused.delivery ≡ delivery) }
        ensures foreign { IfErr result (λ refused. (refused.why ≡ whys.Foreign) ↔ (is_for server delivery.op ≡ false)) }
        ensures its_own { OnOk result (is_for server delivery.op ≡ true) }
    {
        if !is_for(server, &delivery.op) {
            return Err(Refused {
                delivery,
                why: Why::Foreign,
            });
        }
        match add(self.alloc, &mut self.queues, server, delivery) {
            Ok(()) => Ok(()),
            Err(delivery) => Err(Refused {
                delivery,
                why: Why::NoMemory,
            }),
        }
    }

    /// Whether the requests of the transaction that wait at the server or were served there are
    /// 4,294,967,295.
    pub fn full(&self, tid: Tid, server: ServerNo) -> bool
        ensures { result ≡ is_full server tid self.now }
    {
        match self.queues.get(&server) {
            Some(queue) => queue.is_full(tid),
            None => false,
        }
    }

    /// The request that the server serves next, which leaves the queue and counts as served; `None`
    /// exactly where nothing waits there. It takes no memory.
    pub fn next(&mut self, server: ServerNo) -> Option<Delivery>
        ensures answer { result ≡ next server self.old }
        ensures state { self.new ≡ after_next server self.old }
    {
        match self.queues.get_mut(&server) {
            Some(queue) => queue.take(),
            None => None,
        }
    }

    /// Whether a request of the transaction waits at some server.
    pub fn waits(&self, tid: Tid) -> bool
        ensures { result ≡ waits tid self.now }
    {
        self.queues.iter().any(|entry| entry.1.waits(tid))
    }

    /// Whether anything waits at some server.
    pub fn queued(&self) -> bool
        ensures { result ≡ queued self.now }
    {
        self.queues.iter().any(|entry| entry.1.has_some())
    }

    /// What waits at each server, in order of their numbers.
    pub fn iter(&self) -> Iter<'_, ServerNo, Queue>
        ensures rest { result ≡ self.now }
        ensures runs { ShowsInOrder (deref_pair {K = ServerNo} {X = Queue}) }
    {
        self.queues.iter()
    }

    /// How many requests of the transaction the server has served since it was last forgotten.
    pub fn served(&self, tid: Tid, server: ServerNo) -> u32
        ensures { result ≡ served server tid self.now }
    {
        match self.queues.get(&server) {
            Some(queue) => queue.counts(tid).served,
            None => 0,
        }
    }

    /// The servers that a request of the transaction has come to since it was last forgotten, in
    /// order of their numbers.
    pub fn members(&self, tid: Tid) -> Result<List<ServerNo>, NoMemory>
        ensures { IfOk result (λ servers. servers ≡ members tid self.now) }
    {
        let mut servers = List::new(self.alloc);
        for (server, queue) in self.queues.iter() {
            if queue.has(tid) {
                servers.push(*server)?;
            }
        }
        Ok(servers)
    }

    /// The servers in order, each as often as a request waits there.
    pub fn turns(&self) -> Result<List<ServerNo>, NoMemory>
        ensures { IfOk result (λ servers. servers ≡ turns self.now) }
    {
        let mut servers = List::new(self.alloc);
        for (server, queue) in self.queues.iter() {
            queue.add_turns(&mut servers, *server)?;
        }
        Ok(servers)
    }

    /// Nothing of the transaction counts as served any more, and it has no members; all else stays.
    /// It takes no memory.
    pub fn forget(&mut self, tid: Tid)
        requires { waits tid self.old ≡ false }
        ensures { self.new ≡ forget tid self.old }
    {
        for number in 0..SERVERS {
            forget_at(&mut self.queues, ServerNo(number as u8), tid);
        }
    }

    /// The requests of that node that wait are of an incarnation that is known to be dead: they are served,
    /// and their replies are not sent. It takes no memory.
    pub fn mark_stale(&mut self, peer: NodeNo)
        ensures { self.new ≡ mark_queues peer self.old }
    {
        self.queues.retain(|_, queue| {
            queue.mark_stale(peer);
            true
        });
    }
}

/// Nothing of the transaction was served at that server.
fn forget_at(queues: &mut BTreeMap<ServerNo, Queue>, server: ServerNo, tid: Tid)
    requires { waits tid queues.old.entries ≡ false }
    ensures entries { queues.new.entries ≡ changed_entry (is_at (server_cmp server)) (forgotten tid) queues.old.entries }
    ensures ordered { IsOrdered server_cmp queues.old }
{
    if let Some(queue) = queues.get_mut(&server) {
        queue.forget(tid);
    }
}

/// The request waits at the server. For want of memory it is handed back, and all is as it was.
fn add(
    alloc: Global,
    queues: &mut BTreeMap<ServerNo, Queue>,
    server: ServerNo,
    delivery: Delivery,
) -> Result<(), Delivery>
    requires { is_full_at delivery.tid (queue_at queues.old.entries server) ≡ false }
    ensures ok { OnOk result (queues.new.entries ≡ enqueue server delivery queues.old.entries) }
    ensures err { OnErr result (queues.new.entries ≡ queues.old.entries) }
    ensures back { IfErr result (λ back. back ≡ delivery) }
{
    if let Some(queue) = queues.get_mut(&server) {
        return queue.add(delivery);
    }
    let mut queue = Queue::new(alloc);
    queue.add(delivery)?;
    let Err(refused) = queues.insert(server, queue) else {
        return Ok(());
    };
    let (_, mut queue) = refused.value;
    match queue.take() {
        Some(delivery) => Err(delivery),
        None => Ok(()),
    }
}

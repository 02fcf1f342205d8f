//! The sending end of a link, by a plan of what it loses, repeats and holds back.
ghost use Rattle.std.specs.Prelude.{◌≡◌, ◌≢◌, ◌≤◌, ◌<◌, ◌↔◌, ◌++◌, ◌∷◌, [], OnOk, OnErr, IfOk, IsTrue, option_to_list, take, drop};
ghost use Rattle.std.specs.List.{list_any};
ghost use Rattle.std.specs.VecDeque.{deque_len, deque_capacity};
ghost use Rattle.qs_link.specs.Plan.{PutOne, PutNone, fate, own, kept, due, early, packet_of, is_of, holds_none, IsFresh, IsPlan};
ghost use Rattle.qs_packet.specs.Grammar.{IsPacket};
ghost use Rattle.rtrb.specs.Ring.{known_free};

use crate::lanes::Feed;
use crate::parcel::Parcel;
use qs_base::{Copied, List, NoMemory};
use qs_packet::Packet;
use std::alloc::Global;
use std::collections::VecDeque;
use std::marker::Model;

/// A fault of a link at one of its packets, which are numbered from 1.
#[derive(Clone, Copy)]
pub enum LinkFault {
    /// It is lost.
    Drop { packet: u64 },
    /// It goes twice.
    Again { packet: u64 },
    /// It goes once `count` further packets were put.
    Hold { packet: u64, count: u64 },
}

/// The faults of a link: no packet has two, and each count is at least 1 (see `is_plan`).
pub type LinkPlan = List<LinkFault>;

impl LinkFault {
    /// The packet that it is of.
    fn packet(self) -> u64
        ensures { result ≡ packet_of self }
    {
        match self {
            LinkFault::Drop { packet }
            | LinkFault::Again { packet }
            | LinkFault::Hold { packet, .. } => packet,
        }
    }

    /// Whether it holds its packet back for no other packet.
    fn holds_none(self) -> bool
        ensures { result ≡ holds_none self }
    {
        matches!(self, LinkFault::Hold { count: 0, .. })
    }
}

/// Whether faults are a plan: no packet has two, and each that is held back is held back for at least
/// one.
#[tactic(auto, using(crate::proofs::Plans::not_held, crate::proofs::Plans::not_once, crate::proofs::Plans::as_rest))]
pub fn is_plan(faults: &[LinkFault]) -> bool
    ensures { IsTrue result ↔ IsPlan faults.now }
{
    let Some((first, rest)) = faults.split_first() else {
        return true;
    };
    if first.holds_none() {
        return false;
    }
    if has_fault(rest, first.packet()) {
        return false;
    }
    is_plan(rest)
}

// Whether a packet has a fault.
fn has_fault(faults: &[LinkFault], packet: u64) -> bool
    ensures { result ≡ list_any (is_of packet) faults.now }
{
    faults.iter().any(|fault| fault.packet() == packet)
}

/// A packet that is held back until the one with number `until` was put.
#[derive(Drop)]
pub struct HeldPacket<T> {
    pub until: u64,
    pub item: T,
}

/// The most packets that an end counts.
const MOST_PACKETS: u64 = (1 << 63) - 1;

/// What becomes of a packet.
#[derive(Clone, Copy)]
enum Way {
    Passes,
    Lost,
    Twice,
    Kept { until: u64 },
}

/// The sending end of a link.
#[derive(Drop)]
pub struct Outgoing {
    pub(crate) feed: Feed<Parcel>,
    plan: LinkPlan,
    count: u64,
    held: VecDeque<HeldPacket<Parcel>>,
    alloc: Global,
}

impl Model for Outgoing {
    ghost use Rattle.qs_link.specs.Plan.{OutgoingValue};

    ghost Value = { OutgoingValue };

    ghost view = { λ o. record { feed = o.feed; plan = o.plan; count = o.count; held = o.held.items } };
}

impl Outgoing {
    // The sending end of a lane, to which nothing was put.
    pub(crate) fn new(alloc: Global, feed: Feed<Parcel>, plan: LinkPlan) -> Outgoing
        ensures fresh { IsFresh plan result }
        ensures feed { result.feed ≡ feed }
    {
        Outgoing {
            feed,
            plan,
            count: 0,
            held: VecDeque::new(alloc),
            alloc,
        }
    }

    /// Puts a packet, by the plan. A repeat goes right behind its packet. A held packet that is due
    /// goes right behind the last of the packets that it was held for, and that packet's repeat;
    /// where several are due, the one that was put first goes first. After `NoMemory`, which comes
    /// where memory was refused, or where 2^63 - 1 packets were put, all is as it was: nothing went,
    /// and the packet counts for nothing.
    pub fn put(&mut self, packet: &Packet) -> Result<(), NoMemory>
        requires { IsPacket packet.now }
        ensures put { OnOk result (PutOne packet.now self.old self.new) }
        ensures err { OnErr result (self.new ≡ self.old) }
        ensures plan { self.new.plan ≡ self.old.plan }
    {
        if self.count >= MOST_PACKETS {
            return Err(NoMemory);
        }
        let number = self.count + 1;
        let parcel = Parcel::new(self.alloc, packet)?;
        let way = fate_of(self.plan.as_slice(), number);
        let mut goes = VecDeque::new(self.alloc);
        let keeps = pass(&mut goes, way, parcel)?;
        add_due(&mut goes, &self.held, number)?;
        self.held.reserve(1)?;
        self.feed.put_all(&mut goes)?;
        drop_due(&mut self.held, number);
        hold(&mut self.held, keeps);
        self.count = number;
        Ok(())
    }

    /// Pushes from the outbox into the ring while it takes them. Afterwards the outbox is empty, or
    /// this end knows of no free place in the ring.
    pub fn push_all(&mut self)
        ensures none { PutNone self.old self.new }
        ensures end { self.new.feed.outbox ≢ [] → known_free self.new.feed.ring ≡ 0 }
    {
        self.feed.push_all();
    }
}

// What becomes of the packet with that number.
fn fate_of(plan: &[LinkFault], number: u64) -> Way
    ensures { result ≡ fate plan.now number }
{
    for fault in plan {
        match *fault {
            LinkFault::Drop { packet } => {
                if packet == number {
                    return Way::Lost;
                }
            }
            LinkFault::Again { packet } => {
                if packet == number {
                    return Way::Twice;
                }
            }
            LinkFault::Hold { packet, count } => {
                if packet == number {
                    return Way::Kept {
                        until: number.saturating_add(count),
                    };
                }
            }
        }
    }
    Way::Passes
}

// Adds what goes of a packet itself, and gives back what is held of it.
fn pass(
    goes: &mut VecDeque<Parcel>,
    way: Way,
    item: Parcel,
) -> Result<Option<HeldPacket<Parcel>>, NoMemory>
    ensures goes { OnOk result (goes.new.items ≡ goes.old.items ++ own way item) }
    ensures held { IfOk result (λ h. option_to_list h ≡ kept way item) }
{
    match way {
        Way::Passes => {
            goes.push_back(item)?;
            Ok(None)
        }
        Way::Lost => Ok(None),
        Way::Twice => {
            add_twice(goes, item)?;
            Ok(None)
        }
        Way::Kept { until } => Ok(Some(HeldPacket { until, item })),
    }
}

fn add_twice(goes: &mut VecDeque<Parcel>, item: Parcel) -> Result<(), NoMemory>
    ensures { OnOk result (goes.new.items ≡ goes.old.items ++ item ∷ item ∷ []) }
{
    let again = item.copy()?;
    goes.push_back(item)?;
    goes.push_back(again)?;
    Ok(())
}

// Adds copies of what is due, in order.
fn add_due(
    goes: &mut VecDeque<Parcel>,
    held: &VecDeque<HeldPacket<Parcel>>,
    number: u64,
) -> Result<(), NoMemory>
    ensures { OnOk result (goes.new.items ≡ goes.old.items ++ due number held.now.items) }
{
    for packet in held.iter() {
        add_if_due(goes, packet, number)?;
    }
    Ok(())
}

// Adds a copy of a held packet if it is due.
fn add_if_due(
    goes: &mut VecDeque<Parcel>,
    packet: &HeldPacket<Parcel>,
    number: u64,
) -> Result<(), NoMemory>
    ensures { OnOk result (goes.new.items ≡ goes.old.items ++ due number (packet.now ∷ [])) }
{
    if packet.until == number {
        goes.push_back(packet.item.copy()?)?;
    }
    Ok(())
}

// Drops what is due, and keeps the order of the rest.
fn drop_due(held: &mut VecDeque<HeldPacket<Parcel>>, number: u64)
    ensures held { held.new.items ≡ early number held.old.items }
    ensures fewer { deque_len held.new ≤ deque_len held.old }
    ensures room { deque_capacity held.new ≡ deque_capacity held.old }
{
    for _turn in 0..held.len() {
        drop_if_due(held, number);
    }
}

// Drops the first of what is held if it is due, or puts it behind the others.
fn drop_if_due(held: &mut VecDeque<HeldPacket<Parcel>>, number: u64)
    ensures held { held.new.items ≡ drop 1 held.old.items ++ early number (take 1 held.old.items) }
    ensures fewer { deque_len held.new ≤ deque_len held.old }
    ensures room { deque_capacity held.new ≡ deque_capacity held.old }
{
    let Some(first) = held.pop_front() else {
        return;
    };
    if first.until != number {
        held.push_back_reserved(first);
    }
}

fn hold(held: &mut VecDeque<HeldPacket<Parcel>>, keeps: Option<HeldPacket<Parcel>>)
    requires { deque_len held.old < deque_capacity held.old }
    ensures { held.new.items ≡ held.old.items ++ option_to_list keeps }
{
    if let Some(packet) = keeps {
        held.push_back_reserved(packet);
    }
}

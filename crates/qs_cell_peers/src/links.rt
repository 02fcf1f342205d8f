//! A node's ends of its links.
ghost use Rattle.std.specs.Prelude.{◌≡◌, ◌+◌, ◌<◌, ◌≤◌, ◌↔◌, ℕ, true, not, [], ◌==◌, ◌∷◌, All, IfOk, IfSome, OnOk, OnErr, Some, length, slice_get};
ghost use Rattle.std.specs.List.{flat_map, list_any};
ghost use Rattle.qs_packet.specs.Grammar.{IsPacket};
ghost use Rattle.qs_node_step.specs.declared.trace.Step.{Step};
ghost use Rattle.qs_link.specs.Lane.{IsLane};
ghost use Rattle.qs_link.specs.Link.{Took, TookNone};
ghost use Rattle.qs_cell_peers.specs.Links.{AreEmptied, HasCarried, HasPut, HasPutSome, IsSameNode, Pulls, Pushes, SameInto, SameOut, carried_from, has_carried, has_packet, into_of, is_peer_of, out_of, puts_any, puts_of};
ghost use Rattle.qs_cell_peers.specs.Peers.{place};
ghost use Rattle.qs_cell_peers.specs.Pulling.{IsEmptiedFrom, PullsFrom, PushesTo};

use crate::peers::{is_other, place_of};
use qs_base::{List, NoMemory, NodeNo};
use qs_link::{Incoming, Outgoing, carry_link};
use qs_node_step::Step;
use qs_packet::Packet;
use std::marker::Model;

/// A node's ends of its links: one to each other node of the run, and one from it.
#[derive(Drop)]
pub struct Links {
    me: NodeNo,
    /// By the numbers of the other nodes.
    out: Vec<Outgoing>,
    into: Vec<Incoming>,
}

impl Model for Links {
    ghost use Rattle.std.specs.Prelude.{◌+◌, length};
    ghost use Rattle.qs_cell_peers.specs.Links.{AreLinks, LinksValue};

    ghost Value = { LinksValue };

    ghost view = { λ l. record { size = length l.out.items + 1; me = l.me; out = l.out.items; into = l.into.items } };

    ghost invariant = { λ l. AreLinks l.me l.out.items l.into.items };
}

impl Links {
    /// The ends of the node `me`, by the numbers of the other nodes. It takes no memory.
    pub fn new(me: NodeNo, out: List<Outgoing>, into: List<Incoming>) -> Links
        requires ends { length out ≡ length into }
        requires me { me.0 < length out + 1 }
        requires few { length out < 256 }
        ensures size { result.size ≡ length out + 1 }
        ensures me { result.me ≡ me }
        ensures out { (m : ℕ) → is_peer_of result m ≡ true → slice_get out (place me.0 m) ≡ Some (out_of result m) }
        ensures into { (m : ℕ) → is_peer_of result m ≡ true → slice_get into (place me.0 m) ≡ Some (into_of result m) }
    {
        Links {
            me,
            out: out.into_vec(),
            into: into.into_vec(),
        }
    }

    /// How many nodes the run has.
    pub fn count(&self) -> usize
        ensures count { result ≡ self.now.size }
        ensures few { result ≤ 256 }
    {
        self.out.len() + 1
    }

    /// The node whose ends they are.
    pub fn node(&self) -> NodeNo
        ensures { result ≡ self.now.me }
    {
        self.me
    }

    /// Whether a packet was carried and not taken.
    pub fn has_carried(&self) -> bool
        ensures { result ≡ has_carried self.now }
    {
        self.into.iter().any(has_packet)
    }

    /// How many packets of a node were carried; none of a number that is no other node of the run.
    pub fn carried_from(&self, from: usize) -> usize
        ensures { result ≡ carried_from self.now from }
    {
        if !is_other(self.out.len(), self.me, from) {
            return 0;
        }
        self.into[place_of(self.me, from)].carried()
    }

    /// Puts the packets, each to the link of its node, in order; one to no other node of the run is dropped. After `NoMemory`, which comes
    /// where memory was refused, the first ones were put, up to one.
    pub fn put_all(&mut self, packets: &[Packet]) -> Result<(), NoMemory>
        requires { All IsPacket packets.now }
        ensures put { OnOk result (HasPut packets.now self.old self.new) }
        ensures some { OnErr result (HasPutSome packets.now self.old self.new) }
    {
        for packet in packets {
            self.put_one(packet)?;
        }
        Ok(())
    }

    /// Puts what these steps put, step by step, and tells whether that is anything. After `NoMemory`, which comes where memory was refused,
    /// the first packets were put, up to one.
    pub fn put_steps(&mut self, steps: &[Step]) -> Result<bool, NoMemory>
        requires { All (λ (step : Step). All IsPacket step.put) steps.now }
        ensures put { OnOk result (HasPut (flat_map puts_of steps.now) self.old self.new) }
        ensures some { OnErr result (HasPutSome (flat_map puts_of steps.now) self.old self.new) }
        ensures any { IfOk result (λ any. any ≡ list_any puts_any steps.now) }
    {
        for step in steps {
            self.put_all(step.put.as_slice())?;
        }
        Ok(steps.iter().any(puts_any))
    }

    /// Puts a packet to the link of its node. After `NoMemory` all is as it was.
    fn put_one(&mut self, packet: &Packet) -> Result<(), NoMemory>
        requires { IsPacket packet.now }
        ensures put { OnOk result (HasPut (packet.now ∷ []) self.old self.new) }
        ensures err { OnErr result (self.new ≡ self.old) }
    {
        let to = usize::from(packet.to.0);
        if !is_other(self.out.len(), self.me, to) {
            return Ok(());
        }
        self.out[place_of(self.me, to)].put(packet)
    }

    /// Takes the next packet of that peer that was carried; `None` exactly where its inbox is empty. No ring is touched. After `NoMemory`, which comes where
    /// memory was refused, that packet is lost.
    pub fn take_carried(&mut self, from: usize) -> Result<Option<Packet>, NoMemory>
        requires { is_peer_of self.old from ≡ true }
        ensures same { IsSameNode self.old self.new }
        ensures out { SameOut (λ m. true) self.old self.new }
        ensures others { SameInto (λ m. not (m == from)) self.old self.new }
        ensures took { Took result (into_of self.old from) (into_of self.new from) }
        ensures ring { (into_of self.new from).ring ≡ (into_of self.old from).ring }
        ensures packet { IfOk result (λ p. IfSome p IsPacket) }
        ensures none { TookNone result ↔ ((into_of self.old from).inbox ≡ []) }
    {
        self.into[place_of(self.me, from)].take_carried()
    }

    /// Looks into the ring of each link to this node, and moves the packets that stand there into its inbox. Their other ends may be used in
    /// other threads meanwhile. After `NoMemory`, which comes where memory was refused, those of the first links were moved.
    pub fn pull_all(&mut self) -> Result<(), NoMemory>
        ensures pulls { Pulls self.old self.new }
        ensures emptied { OnOk result (AreEmptied self.new) }
    {
        for from in 0..self.count() {
            self.pull_from(from)?;
        }
        Ok(())
    }

    /// That of the link from a node, if there is one. After `NoMemory` nothing was moved.
    fn pull_from(&mut self, from: usize) -> Result<(), NoMemory>
        ensures pulls { PullsFrom from self.old self.new }
        ensures emptied { OnOk result (IsEmptiedFrom from self.new) }
    {
        if !is_other(self.out.len(), self.me, from) {
            return Ok(());
        }
        self.into[place_of(self.me, from)].pull()
    }

    /// Pushes what was put to each link, and stands in its outbox, into its ring while that takes it. Their other ends may be used in other
    /// threads meanwhile.
    pub fn push_all(&mut self)
        ensures { Pushes self.old self.new }
    {
        for to in 0..self.count() {
            self.push_to(to);
        }
    }

    /// That of the link to a node, if there is one.
    fn push_to(&mut self, to: usize)
        ensures { PushesTo to self.old self.new }
    {
        if is_other(self.out.len(), self.me, to) {
            self.out[place_of(self.me, to)].push_all();
        }
    }

    /// Moves what stands on the link from another node to this one, in its ring and its outbox, into the inbox, and says how many packets
    /// that then holds. After `NoMemory`, which comes where memory was refused, a front was moved and nothing is lost.
    pub fn carry(&mut self, from: &mut Links) -> Result<usize, NoMemory>
        requires peer { is_peer_of self.old from.old.me.0 ≡ true }
        requires its { is_peer_of from.old self.old.me.0 ≡ true }
        requires lane { IsLane (out_of from.old self.old.me.0).feed (into_of self.old from.old.me.0) }
        ensures same { IsSameNode self.old self.new × IsSameNode from.old from.new }
        ensures own_out { SameOut (λ m. true) self.old self.new }
        ensures own_into { SameInto (λ m. not (m == from.old.me.0)) self.old self.new }
        ensures its_out { SameOut (λ m. not (m == self.old.me.0)) from.old from.new }
        ensures its_into { SameInto (λ m. true) from.old from.new }
        ensures carried { HasCarried result (out_of from.old self.old.me.0) (out_of from.new self.old.me.0) (into_of self.old from.old.me.0) (into_of self.new from.old.me.0) }
    {
        let there = place_of(from.me, usize::from(self.me.0));
        let here = place_of(self.me, usize::from(from.me.0));
        carry_link(&mut from.out[there], &mut self.into[here])
    }
}

/// Whether a packet stands in the inbox of a link.
fn has_packet(end: &Incoming) -> bool
    ensures { result ≡ has_packet end.now }
{
    end.carried() > 0
}

/// Whether a step puts anything.
fn puts_any(step: &Step) -> bool
    ensures { result ≡ puts_any step.now }
{
    !step.put.is_empty()
}

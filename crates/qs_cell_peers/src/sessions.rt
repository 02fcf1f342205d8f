//! The sessions of a node, one with each other node of the run.
ghost use Rattle.std.specs.Prelude.{◌≡◌, ◌≢◌, ◌<◌, ◌≤◌, ◌^◌, ◌+◌, ◌-◌, ◌==◌, ◌∷◌, ◌++◌, [], ℕ, true, All, Err, IfOk, OnOk, map, option_to_list, if◌then◌else◌};
ghost use Rattle.std.specs.List.{filter};
ghost use Rattle.qs_base.specs.declared.memory.GrowFault.TheVariants.{Last};
ghost use Rattle.qs_session_channels.specs.End.{fresh, tick_packets, ticked};
ghost use Rattle.qs_session_channels.specs.Network.{with_at};
ghost use Rattle.qs_packet.specs.Grammar.{IsPacket};
ghost use Rattle.qs_packet.specs.declared.message.Message.{Message};
ghost use Rattle.qs_packet.specs.declared.message.Message.TheVariants.{Hello};
ghost use Rattle.qs_node_spelled.specs.Spelled.{IsSendable};
ghost use Rattle.qs_session.specs.Seen.{answer_with, seen};
ghost use Rattle.qs_node_step.specs.declared.event.Sending.{Sending};
ghost use Rattle.qs_cell_peers.specs.Hears.{ends_heard, heard_as, heard_of};
ghost use Rattle.qs_cell_peers.specs.declared.heard.Heard.TheVariants as heards;
ghost use Rattle.qs_cell_peers.specs.Peers.{goes_from, is_to};
ghost use Rattle.qs_cell_peers.specs.Sessions.{EndAs, LacksNumber, all_sent, ends_of, is_peer_of, numbers_given, one_sent, sent_to};
ghost use Rattle.qs_cell_peers.specs.Steps.{Sends};
ghost use Rattle.qs_cell_peers.specs.Ticks.{all_ticked, tick_to};

use crate::heard::Heard;
use crate::peers::{comes, is_other, place_of};
use qs_base::{Copied, GrowFault, List, NoMemory, NodeNo, Stamp};
use qs_node_step::Sending;
use qs_packet::Packet;
use qs_session::{Session, Taken, hear, post, tick};
use std::alloc::Global;
use std::marker::Model;

/// The sessions of a node, one with each other node of the run.
#[derive(Drop)]
pub struct Sessions {
    me: NodeNo,
    /// By the numbers of the other nodes.
    sessions: Vec<Session>,
}

impl Model for Sessions {
    ghost use Rattle.std.specs.Prelude.{◌+◌, length};
    ghost use Rattle.qs_cell_peers.specs.Sessions.{AreSessions, SessionsValue};

    ghost Value = { SessionsValue };

    ghost view = { λ s. record { size = length s.sessions.items + 1; me = s.me; sessions = s.sessions.items } };

    ghost invariant = { λ s. AreSessions s.me s.sessions.items };
}

impl Sessions {
    /// The sessions of the node `me` of a run of `nodes` nodes, in its incarnation `inc`, which has met nobody.
    pub fn new(alloc: Global, me: NodeNo, nodes: u8, inc: u64) -> Result<Sessions, NoMemory>
        requires me { me.0 < nodes }
        requires nodes { nodes ≤ 8 }
        requires inc { inc < 2 ^ 62 }
        ensures size { IfOk result (λ sessions. sessions.size ≡ nodes) }
        ensures me { IfOk result (λ sessions. sessions.me ≡ me) }
        ensures fresh { IfOk result (λ sessions. (m : ℕ) → is_peer_of sessions m ≡ true → ends_of sessions m ≡ fresh inc) }
    {
        let mut sessions = Vec::new(alloc);
        for number in 0..nodes {
            if number != me.0 {
                sessions.push(Session::new(alloc, me, inc, NodeNo(number)))?;
            }
        }
        Ok(Sessions { me, sessions })
    }

    /// Sends what a step sends: its messages, in order, and where time passes, which `ticks` says, what each session then sends again: the
    /// packets to put on the links, in order.
    ///
    /// `Last` comes exactly where a message is to get a number past the last one, 2^62 - 1, if memory lasted until then. After an
    /// error some of it is sent.
    pub fn send_step(
        &mut self,
        sendings: &[Sending],
        stamp: Stamp,
        ticks: bool,
    ) -> Result<List<Packet>, GrowFault>
        requires spelled { All (λ (s : Sending). IsSendable s.message) sendings.now }
        requires stamp { stamp < 2 ^ 62 }
        ensures sent { IfOk result (λ put. Sends ticks stamp sendings.now self.old put self.new) }
        ensures numbered { OnOk result (LacksNumber self.old sendings.now → ⊥) }
        ensures last { (value : ℕ) → result ≡ Err (Last value) → (value ≡ 2 ^ 62 - 1) × LacksNumber self.old sendings.now }
    {
        let mut packets = self.send_all(sendings, stamp)?;
        if ticks {
            let due = self.tick_all(stamp)?;
            add_all(&mut packets, due)?;
        }
        Ok(packets)
    }

    /// Sends the messages, in order: the packets to put on the links, in order. A message to no other node of the run is dropped, and
    /// one to a peer whose incarnation is unknown waits.
    ///
    /// `Last` comes exactly where a message is to get a number past the last one, 2^62 - 1, if memory lasted until then. After an
    /// error some of them are sent.
    pub fn send_all(
        &mut self,
        sendings: &[Sending],
        stamp: Stamp,
    ) -> Result<List<Packet>, GrowFault>
        requires spelled { All (λ (s : Sending). IsSendable s.message) sendings.now }
        requires stamp { stamp < 2 ^ 62 }
        ensures ends { OnOk result (EndAs self.old (all_sent (is_peer_of self.old) (ends_of self.old) sendings.now) self.new) }
        ensures packets { IfOk result (λ ps. (m : ℕ) → is_peer_of self.old m ≡ true → map seen (filter (is_to m) ps) ≡ sent_to (is_peer_of self.old) stamp m (ends_of self.old) sendings.now) }
        ensures from { IfOk result (All (λ p. goes_from self.old.size self.old.me.0 p ≡ true)) }
        ensures spelled { IfOk result (All IsPacket) }
        ensures last { (value : ℕ) → result ≡ Err (Last value) → (value ≡ 2 ^ 62 - 1) × LacksNumber self.old sendings.now }
        ensures enough { OnOk result (LacksNumber self.old sendings.now → ⊥) }
    {
        let mut packets = List::new(*self.sessions.allocator());
        for sending in sendings {
            self.send_one(sending, stamp, &mut packets)?;
        }
        Ok(packets)
    }

    /// Sends a message; its packet is added, where one goes.
    fn send_one(
        &mut self,
        sending: &Sending,
        stamp: Stamp,
        packets: &mut List<Packet>,
    ) -> Result<(), GrowFault>
        requires spelled { IsSendable sending.now.message }
        requires stamp { stamp < 2 ^ 62 }
        ensures ends { OnOk result (EndAs self.old (one_sent (is_peer_of self.old) (ends_of self.old) sending.now) self.new) }
        ensures packets { OnOk result ((m : ℕ) → is_peer_of self.old m ≡ true → map seen (filter (is_to m) packets.new) ≡ map seen (filter (is_to m) packets.old) ++ sent_to (is_peer_of self.old) stamp m (ends_of self.old) (sending.now ∷ [])) }
        ensures from { OnOk result (All (λ p. goes_from self.old.size self.old.me.0 p ≡ true) packets.old → All (λ p. goes_from self.old.size self.old.me.0 p ≡ true) packets.new) }
        ensures spelled { OnOk result (All IsPacket packets.old → All IsPacket packets.new) }
        ensures last { (value : ℕ) → result ≡ Err (Last value) → (value ≡ 2 ^ 62 - 1) × (is_peer_of self.old sending.now.to.0 ≡ true) × (numbers_given (ends_of self.old sending.now.to.0) ≡ 2 ^ 62 - 1) }
        ensures enough { OnOk result (is_peer_of self.old sending.now.to.0 ≡ true → numbers_given (ends_of self.old sending.now.to.0) ≢ 2 ^ 62 - 1) }
    {
        let number = usize::from(sending.to.0);
        if !is_other(self.sessions.len(), self.me, number) {
            return Ok(());
        }
        let message = sending.message.copy()?;
        let packet = post(
            &mut self.sessions[place_of(self.me, number)],
            message,
            stamp,
        )?;
        add(packets, packet)?;
        Ok(())
    }

    /// The session with the packet's node takes it in, and tells what it is to this one. Takes no memory.
    pub fn hear(&mut self, packet: &Packet) -> Heard
        requires { IsPacket packet.now }
        ensures heard { result ≡ heard_of self.old packet.now }
        ensures ends { EndAs self.old (ends_heard self.old packet.now) self.new }
    {
        if !comes(self.sessions.len(), self.me, packet) {
            return Heard::Strange;
        }
        let at = place_of(self.me, usize::from(packet.from.0));
        let taken = hear(&mut self.sessions[at], packet);
        let heard = heard_as(&taken);
        drop(taken);
        heard
    }

    /// Each session ticks, in the order of the other nodes: the packets that are due, in order. After an error some have ticked.
    pub fn tick_all(&mut self, stamp: Stamp) -> Result<List<Packet>, NoMemory>
        requires { stamp < 2 ^ 62 }
        ensures ends { OnOk result (EndAs self.old (all_ticked self.old.size self.old.me.0 (ends_of self.old)) self.new) }
        ensures packets { IfOk result (λ ps. (m : ℕ) → is_peer_of self.old m ≡ true → map seen (filter (is_to m) ps) ≡ tick_to self.old.size self.old.me.0 stamp m (ends_of self.old)) }
        ensures from { IfOk result (All (λ p. goes_from self.old.size self.old.me.0 p ≡ true)) }
        ensures spelled { IfOk result (All IsPacket) }
    {
        let mut packets = List::new(*self.sessions.allocator());
        let nodes = self.sessions.len() + 1;
        for number in 0..nodes {
            self.tick_one(number, stamp, &mut packets)?;
        }
        Ok(packets)
    }

    /// The session with that node ticks, where that is another one, and its packets are added.
    fn tick_one(
        &mut self,
        number: usize,
        stamp: Stamp,
        packets: &mut List<Packet>,
    ) -> Result<(), NoMemory>
        requires number { number < self.old.size }
        requires stamp { stamp < 2 ^ 62 }
        ensures ends { OnOk result (EndAs self.old (if number == self.old.me.0 then ends_of self.old else with_at (ends_of self.old) number (ticked (ends_of self.old number))) self.new) }
        ensures packets { OnOk result ((m : ℕ) → is_peer_of self.old m ≡ true → map seen (filter (is_to m) packets.new) ≡ map seen (filter (is_to m) packets.old) ++ (if number == self.old.me.0 then [] else if m == number then tick_packets Hello (ends_of self.old number) stamp else [])) }
        ensures from { OnOk result (All (λ p. goes_from self.old.size self.old.me.0 p ≡ true) packets.old → All (λ p. goes_from self.old.size self.old.me.0 p ≡ true) packets.new) }
        ensures spelled { OnOk result (All IsPacket packets.old → All IsPacket packets.new) }
    {
        if number == usize::from(self.me.0) {
            return Ok(());
        }
        let due = tick(&mut self.sessions[place_of(self.me, number)], stamp)?;
        add_all(packets, due)
    }
}

/// What a packet is to the node, by what its session answers; none stands for its message, which is in turn.
fn heard_as(taken: &Option<Taken>) -> Heard
    ensures { (message : Message) → result ≡ heard_as (answer_with taken.now message) }
{
    match taken {
        None | Some(Taken::Message { .. }) => Heard::Message,
        Some(Taken::NewPeer { old, .. }) => known_as(*old),
        Some(
            Taken::OldPeer { .. }
            | Taken::OldSelf { .. }
            | Taken::Hello
            | Taken::Repeat { .. }
            | Taken::Early { .. },
        ) => Heard::Aside,
    }
}

/// What a later incarnation is to the node; the earlier one that it knew is 0 where it knew none.
fn known_as(old: u64) -> Heard
    ensures { result ≡ (if old == 0 then heards.Aside else heards.Restarted old) }
{
    if old == 0 {
        Heard::Aside
    } else {
        Heard::Restarted { old }
    }
}

/// Adds a packet, where there is one.
fn add(packets: &mut List<Packet>, packet: Option<Packet>) -> Result<(), NoMemory>
    ensures { OnOk result (packets.new ≡ packets.old ++ option_to_list packet) }
{
    match packet {
        Some(packet) => packets.push(packet),
        None => Ok(()),
    }
}

/// Adds packets, in order.
fn add_all(packets: &mut List<Packet>, more: List<Packet>) -> Result<(), NoMemory>
    ensures { OnOk result (packets.new ≡ packets.old ++ more) }
{
    for packet in more.into_vec() {
        packets.push(packet)?;
    }
    Ok(())
}

//! Sessions.
ghost use Rattle.std.specs.Prelude.{◌∷◌, ◌++◌, take, ◌≡◌, ℕ, ◌+◌, ◌<◌, ◌≤◌, ◌^◌, ◌-◌, ◌↔◌, List, [], length, map, drop, IfOk, OnOk, OnErr, IsErrOf, IfSome, All, option_map, true, Err};
ghost use Rattle.qs_base.specs.declared.memory.GrowFault.TheVariants.{Last};
ghost use Rattle.qs_session_channels.specs.End.{fresh, sent, sent_packet, answer, received, tick_packets, ticked, packet, again};
ghost use Rattle.qs_packet.specs.declared.message.Message.TheVariants.{Hello};
ghost use Rattle.qs_packet.specs.declared.message.Message.{Message};
ghost use Rattle.qs_session.specs.Seen.{seen, answer_of, answer_with, headed, IsFrom};

use crate::taken::Taken;
use qs_base::{Copied, GrowFault, List, NoMemory, NodeNo, Stamp};
use qs_packet::{Message, Packet};
use std::alloc::Global;
use std::collections::VecDeque;
use std::marker::Model;

/// The last number of a message.
const LAST: u64 = 4611686018427387903;

/// One end of a session: an incarnation of a node sends messages to another node, and hands up what comes from it,
/// in order, each once, between their two incarnations.
#[derive(Drop)]
pub struct Session {
    me: NodeNo,
    peer: NodeNo,
    /// The incarnation of this node.
    mine: u64,
    /// That of the peer, 0 while it is unknown.
    known: u64,
    /// The greatest number that was handed up here.
    taken: u64,
    /// The greatest number that the peer said it handed up.
    acked: u64,
    /// The messages behind that one, in order; while the peer is unknown, those that wait.
    kept: VecDeque<Message>,
    /// An acknowledgement is owed.
    owed: bool,
    /// The peer has sent a packet for this incarnation.
    met: bool,
}

impl Model for Session {
    ghost use Rattle.std.specs.Prelude.{◌+◌, ◌<◌, ◌^◌, length};
    ghost use Rattle.qs_packet.specs.declared.message.Message.{Message};
    ghost use Rattle.qs_session.specs.Seen.{SessionValue};

    ghost Value = { SessionValue };

    ghost view = { λ s. record { me = s.me; peer = s.peer; end = record { mine = s.mine; known = s.known; taken = s.taken; acked = s.acked; kept = s.kept.items; owed = s.owed; met = s.met } } };

    ghost invariant = { λ s. s.acked + length s.kept.items < 2 ^ 62 };
}

impl Session {
    /// The end of the incarnation `mine` of the node `me`, which knows no incarnation of the peer yet.
    pub fn new(alloc: Global, me: NodeNo, mine: u64, peer: NodeNo) -> Session
        ensures { result ≡ record { me = me; peer = peer; end = fresh mine } }
    {
        Session {
            me,
            peer,
            mine,
            known: 0,
            taken: 0,
            acked: 0,
            kept: VecDeque::new(alloc),
            owed: false,
            met: false,
        }
    }

    /// Sends a message: the packet to put on the link, or None exactly where the peer's incarnation is unknown; then
    /// the message waits.
    ///
    /// `Last` comes exactly where the last number is given, or as many messages wait. After an error all is as it was.
    pub fn send(&mut self, message: Message, stamp: Stamp) -> Result<Option<Packet>, GrowFault>
        ensures last { IsErrOf result (Last (2 ^ 62 - 1)) ↔ (self.old.end.acked + length self.old.end.kept ≡ 2 ^ 62 - 1) }
        ensures only { (value : ℕ) → result ≡ Err (Last value) → value ≡ 2 ^ 62 - 1 }
        ensures end { OnOk result (self.new ≡ record self.old { end = sent self.old.end message }) }
        ensures packet { IfOk result (λ p. option_map seen p ≡ sent_packet self.old.end message stamp) }
        ensures from { IfOk result (λ p. IfSome p (IsFrom self.old)) }
        ensures err { OnErr result (self.new ≡ self.old) }
    {
        let before = self.acked + self.kept.len() as u64;
        if before == LAST {
            discard(message);
            return Err(GrowFault::Last { value: LAST });
        }
        if self.known == 0 {
            push(&mut self.kept, message)?;
            return Ok(None);
        }
        match push_copy(&mut self.kept, &message) {
            Ok(()) => {
                self.owed = false;
                Ok(Some(self.packet(self.known, before + 1, stamp, message)))
            }
            Err(NoMemory) => {
                discard(message);
                Err(GrowFault::NoMemory)
            }
        }
    }

    /// Takes a packet from the peer to this node, and answers the first that holds of it: see `Taken`.
    ///
    /// A later incarnation of the peer is known from then on: numbers begin anew, and what the earlier one did not
    /// acknowledge is dropped; what waited is not. `Hello`, `Repeat`, `Early` and `Message` take in the packet's
    /// acknowledgement. All but `OldPeer` and `Hello` owe one. Takes no memory.
    pub fn receive(&mut self, packet: Packet) -> Taken
        ensures answer { answer_of result ≡ answer self.old.end (seen packet) }
        ensures end { self.new ≡ record self.old { end = received self.old.end (seen packet) } }
    {
        let Packet {
            inc,
            to_inc,
            number,
            ack,
            message,
            ..
        } = packet;
        match self.take_in(inc, to_inc, number, ack) {
            Some(taken) => {
                discard(message);
                taken
            }
            None => Taken::Message { message },
        }
    }

    /// Takes in a packet that is lent, as `receive`; `None` exactly where its message is the next one.
    pub(crate) fn hear(&mut self, packet: &Packet) -> Option<Taken>
        ensures answer { answer_with result packet.now.message ≡ answer self.old.end (seen packet.now) }
        ensures end { self.new ≡ record self.old { end = received self.old.end (seen packet.now) } }
    {
        self.take_in(packet.inc, packet.to_inc, packet.number, packet.ack)
    }

    /// What is due at a tick: every unacknowledged message again, in order; where there is none, an acknowledgement
    /// that is owed; else a greeting, while the peer is unknown or was not met. After want of memory all is as it was.
    pub fn tick(&mut self, stamp: Stamp) -> Result<List<Packet>, NoMemory>
        ensures packets { IfOk result (λ ps. map seen ps ≡ tick_packets Hello self.old.end stamp) }
        ensures from { IfOk result (All (IsFrom self.old)) }
        ensures end { OnOk result (self.new ≡ record self.old { end = ticked self.old.end }) }
        ensures err { OnErr result (self.new ≡ self.old) }
    {
        let packets = self.due(stamp)?;
        self.owed = false;
        Ok(packets)
    }

    /// Takes in what stands before a packet's message. None: the message is the next one.
    fn take_in(&mut self, inc: u64, to_inc: u64, number: u64, ack: u64) -> Option<Taken>
        ensures answer { (stamp : ℕ) (message : Message) → answer_with result message ≡ answer self.old.end (headed inc to_inc number ack stamp message) }
        ensures end { (stamp : ℕ) (message : Message) → self.new ≡ record self.old { end = received self.old.end (headed inc to_inc number ack stamp message) } }
    {
        if inc < self.known {
            return Some(Taken::OldPeer {
                known: self.known,
                got: inc,
            });
        }
        if self.known < inc {
            let old = self.known;
            if old != 0 {
                self.kept.clear();
            }
            self.known = inc;
            self.taken = 0;
            self.acked = 0;
            self.owed = true;
            self.met = to_inc == self.mine;
            return Some(Taken::NewPeer { old, new: inc });
        }
        if to_inc != self.mine {
            self.owed = true;
            return Some(Taken::OldSelf {
                mine: self.mine,
                got: to_inc,
            });
        }
        self.met = true;
        self.acked += drop_first(&mut self.kept, ack.saturating_sub(self.acked));
        if number == 0 {
            return Some(Taken::Hello);
        }
        self.owed = true;
        if number <= self.taken {
            return Some(Taken::Repeat { number });
        }
        if number - self.taken > 1 {
            return Some(Taken::Early {
                number,
                expected: self.taken + 1,
            });
        }
        self.taken = number;
        None
    }

    /// The packets of a tick.
    fn due(&self, stamp: Stamp) -> Result<List<Packet>, NoMemory>
        ensures packets { IfOk result (λ ps. map seen ps ≡ tick_packets Hello self.now.end stamp) }
        ensures from { IfOk result (All (IsFrom self.now)) }
    {
        if self.known == 0 {
            return self.alone(0, stamp);
        }
        if !self.kept.is_empty() {
            return self.again(stamp);
        }
        if self.owed {
            return self.alone(self.known, stamp);
        }
        if !self.met {
            return self.alone(0, stamp);
        }
        Ok(List::new(*self.kept.allocator()))
    }

    /// A Hello alone.
    fn alone(&self, to_inc: u64, stamp: Stamp) -> Result<List<Packet>, NoMemory>
        ensures packets { IfOk result (λ ps. map seen ps ≡ packet self.now.end to_inc 0 stamp Hello ∷ []) }
        ensures from { IfOk result (All (IsFrom self.now)) }
    {
        let mut packets = List::new(*self.kept.allocator());
        packets.push(self.packet(to_inc, 0, stamp, Message::Hello))?;
        Ok(packets)
    }

    /// Every unacknowledged message, with its number.
    fn again(&self, stamp: Stamp) -> Result<List<Packet>, NoMemory>
        ensures packets { IfOk result (λ ps. map seen ps ≡ again self.now.end stamp self.now.end.acked self.now.end.kept) }
        ensures from { IfOk result (All (IsFrom self.now)) }
    {
        let mut packets = List::new(*self.kept.allocator());
        let mut number = self.acked;
        for message in self.kept.iter() {
            number += 1;
            packets.push(self.packet(self.known, number, stamp, message.copy()?))?;
        }
        Ok(packets)
    }

    /// A packet of this end.
    fn packet(&self, to_inc: u64, number: u64, stamp: Stamp, message: Message) -> Packet
        ensures seen { seen result ≡ packet self.now.end to_inc number stamp message }
        ensures from { IsFrom self.now result }
    {
        Packet {
            from: self.me,
            inc: self.mine,
            to: self.peer,
            to_inc,
            number,
            ack: self.taken,
            stamp,
            message,
        }
    }
}

fn push(kept: &mut VecDeque<Message>, message: Message) -> Result<(), NoMemory>
    ensures ok { OnOk result (kept.new.items ≡ kept.old.items ++ message ∷ []) }
    ensures err { OnErr result (kept.new.items ≡ kept.old.items) }
{
    kept.push_back(message)?;
    Ok(())
}

fn push_copy(kept: &mut VecDeque<Message>, message: &Message) -> Result<(), NoMemory>
    ensures ok { OnOk result (kept.new.items ≡ kept.old.items ++ message.now ∷ []) }
    ensures err { OnErr result (kept.new.items ≡ kept.old.items) }
{
    let copy = message.copy()?;
    push(kept, copy)
}

/// Drops the first messages, and says how many.
fn drop_first(kept: &mut VecDeque<Message>, count: u64) -> u64
    ensures rest { kept.new.items ≡ drop count kept.old.items }
    ensures dropped { result ≡ length (take count kept.old.items) }
{
    let some = count.min(kept.len() as u64);
    for _turn in 0..some {
        drop_one(kept);
    }
    some
}

fn drop_one(kept: &mut VecDeque<Message>)
    ensures { kept.new.items ≡ drop 1 kept.old.items }
{
    if let Some(message) = kept.pop_front() {
        discard(message);
    }
}

/// Drops a message here, so that its many variants are looked through in one place.
fn discard(_message: Message) {}

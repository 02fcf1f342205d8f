//! Sessions packet by packet, and an exchange with drops, repeats, holds and a restart.
use crate::samples::tid;
use qs_base::{Copied, List, NoMemory, NodeNo};
use qs_packet::{Message, Packet};
use qs_session::{Session, Taken};
use std::alloc::Global;

const A: NodeNo = NodeNo(0);

const B: NodeNo = NodeNo(1);

/// The message with that number of its own.
fn message(seq: u32) -> Message {
    Message::AskVote { tid: tid(seq) }
}

/// A packet from node 1 to node 0: a greeting at number 0.
fn packet(inc: u64, to_inc: u64, number: u64) -> Packet {
    Packet {
        from: B,
        inc,
        to: A,
        to_inc,
        number,
        ack: 0,
        stamp: 0,
        message: if number == 0 {
            Message::Hello
        } else {
            message(1)
        },
    }
}

/// Whether it is one greeting of A, in incarnation 1, to B, of which it knows no incarnation, at stamp 5.
fn is_first_greeting(packets: &[Packet]) -> bool {
    let [packet] = packets else {
        return false;
    };
    let ends = packet.from == A && packet.inc == 1 && packet.to == B && packet.to_inc == 0;
    let counts = packet.number == 0 && packet.ack == 0 && packet.stamp == 5;
    ends && counts && matches!(packet.message, Message::Hello)
}

#[test]
fn the_first_greeting(rt: HostRuntime) {
    let mut end = Session::new(rt.alloc(), A, 1, B);
    let right = matches!(end.tick(5), Ok(packets) if is_first_greeting(packets.as_slice()));
    assert!(rt; right);
}

/// What a node does next. A packet is named by its sender and its place among all that this node has sent.
#[derive(Clone, Copy)]
enum Step {
    Send(u32),
    Tick,
    Deliver(usize),
    Restart(u64),
}

/// What is to come of it.
#[derive(Clone, Copy, PartialEq, Eq)]
enum Outcome {
    /// That many packets go.
    Goes(usize),
    /// The known incarnation of the peer, and the packet's.
    OldPeer(u64, u64),
    NewPeer(u64, u64),
    /// This incarnation, and that which the packet is for.
    OldSelf(u64, u64),
    Hello,
    Repeat(u64),
    /// The packet's number, and the expected one.
    Early(u64, u64),
    /// The message is handed up.
    HandsUp(u32),
    Failed,
}

#[derive(Drop)]
struct Node {
    me: NodeNo,
    peer: NodeNo,
    end: Session,
    sent: List<Packet>,
}

fn outcome_of(taken: &Taken) -> Outcome {
    match taken {
        Taken::OldPeer { known, got } => Outcome::OldPeer(*known, *got),
        Taken::NewPeer { old, new } => Outcome::NewPeer(*old, *new),
        Taken::OldSelf { mine, got } => Outcome::OldSelf(*mine, *got),
        Taken::Hello => Outcome::Hello,
        Taken::Repeat { number } => Outcome::Repeat(*number),
        Taken::Early { number, expected } => Outcome::Early(*number, *expected),
        Taken::Message {
            message: Message::AskVote { tid },
        } => Outcome::HandsUp(tid.seq),
        Taken::Message { .. } => Outcome::Failed,
    }
}

/// What comes of a packet at an end.
fn received(end: &mut Session, packet: Packet) -> Outcome {
    let taken = end.receive(packet);
    let outcome = outcome_of(&taken);
    drop(taken);
    outcome
}

fn tick(node: &mut Node) -> Result<Outcome, NoMemory> {
    let packets = node.end.tick(0)?;
    let count = packets.len();
    for packet in packets.into_vec() {
        node.sent.push(packet)?;
    }
    Ok(Outcome::Goes(count))
}

fn carry_out(
    alloc: Global,
    node: &mut Node,
    other: &mut Node,
    step: Step,
) -> Result<Outcome, NoMemory> {
    match step {
        Step::Send(seq) => match node.end.send(message(seq), 0) {
            Ok(Some(packet)) => {
                node.sent.push(packet)?;
                Ok(Outcome::Goes(1))
            }
            Ok(None) => Ok(Outcome::Goes(0)),
            Err(_) => Ok(Outcome::Failed),
        },
        Step::Tick => tick(node),
        Step::Deliver(at) => match node.sent.get(at) {
            Some(packet) => Ok(received(&mut other.end, packet.copy()?)),
            None => Ok(Outcome::Failed),
        },
        Step::Restart(inc) => {
            node.end = Session::new(alloc, node.me, inc, node.peer);
            Ok(Outcome::Goes(0))
        }
    }
}

fn fresh_node(alloc: Global, me: NodeNo, peer: NodeNo) -> Node {
    Node {
        me,
        peer,
        end: Session::new(alloc, me, 1, peer),
        sent: List::new(alloc),
    }
}

/// The row that comes out otherwise than it should, if any.
fn first_wrong(alloc: Global, rows: &[(NodeNo, Step, Outcome)]) -> Result<Option<usize>, NoMemory> {
    let mut a = fresh_node(alloc, A, B);
    let mut b = fresh_node(alloc, B, A);
    let wrong = first_wrong_of(alloc, &mut a, &mut b, rows);
    drop(a);
    drop(b);
    wrong
}

fn first_wrong_of(
    alloc: Global,
    a: &mut Node,
    b: &mut Node,
    rows: &[(NodeNo, Step, Outcome)],
) -> Result<Option<usize>, NoMemory> {
    for (place, (from, step, wanted)) in rows.iter().enumerate() {
        let outcome = if *from == A {
            carry_out(alloc, a, b, *step)?
        } else {
            carry_out(alloc, b, a, *step)?
        };
        if outcome != *wanted {
            return Ok(Some(place));
        }
    }
    Ok(None)
}

/// Packets of node 1, by incarnation, receiver's incarnation and number, and what incarnation 1 of node 0 answers.
const PACKETS: [(u64, u64, u64, Outcome); 8] = [
    (3, 1, 1, Outcome::NewPeer(0, 3)),
    (3, 1, 1, Outcome::HandsUp(1)),
    (3, 1, 1, Outcome::Repeat(1)),
    (3, 1, 3, Outcome::Early(3, 2)),
    (2, 1, 2, Outcome::OldPeer(3, 2)),
    (3, 0, 0, Outcome::OldSelf(1, 0)),
    (3, 1, 0, Outcome::Hello),
    (4, 1, 1, Outcome::NewPeer(3, 4)),
];

#[test]
fn packets_and_their_answers(rt: HostRuntime) {
    let mut end = Session::new(rt.alloc(), A, 1, B);
    for (inc, to_inc, number, wanted) in PACKETS {
        assert!(rt; received(&mut end, packet(inc, to_inc, number)) == wanted);
    }
}

/// A greeting and a message are dropped, and go again.
const DROPS: [(NodeNo, Step, Outcome); 13] = [
    (A, Step::Send(1), Outcome::Goes(0)),
    (A, Step::Tick, Outcome::Goes(1)),
    (A, Step::Tick, Outcome::Goes(1)),
    (A, Step::Deliver(1), Outcome::NewPeer(0, 1)),
    (B, Step::Tick, Outcome::Goes(1)),
    (B, Step::Deliver(0), Outcome::NewPeer(0, 1)),
    (A, Step::Tick, Outcome::Goes(1)),
    (A, Step::Tick, Outcome::Goes(1)),
    (A, Step::Deliver(3), Outcome::HandsUp(1)),
    (B, Step::Tick, Outcome::Goes(1)),
    (B, Step::Deliver(1), Outcome::Hello),
    (A, Step::Tick, Outcome::Goes(0)),
    (B, Step::Tick, Outcome::Goes(0)),
];

/// Messages come in another order and again, and one is held over a restart of its receiver.
const HOLDS: [(NodeNo, Step, Outcome); 24] = [
    (A, Step::Tick, Outcome::Goes(1)),
    (A, Step::Deliver(0), Outcome::NewPeer(0, 1)),
    (B, Step::Tick, Outcome::Goes(1)),
    (B, Step::Deliver(0), Outcome::NewPeer(0, 1)),
    (A, Step::Send(1), Outcome::Goes(1)),
    (A, Step::Send(2), Outcome::Goes(1)),
    (A, Step::Send(3), Outcome::Goes(1)),
    (A, Step::Deliver(3), Outcome::Early(3, 1)),
    (A, Step::Deliver(1), Outcome::HandsUp(1)),
    (A, Step::Deliver(2), Outcome::HandsUp(2)),
    (A, Step::Deliver(1), Outcome::Repeat(1)),
    (B, Step::Restart(2), Outcome::Goes(0)),
    (A, Step::Deliver(3), Outcome::NewPeer(0, 1)),
    (A, Step::Deliver(3), Outcome::OldSelf(2, 1)),
    (A, Step::Send(4), Outcome::Goes(1)),
    (A, Step::Deliver(4), Outcome::OldSelf(2, 1)),
    (B, Step::Tick, Outcome::Goes(1)),
    (B, Step::Deliver(1), Outcome::NewPeer(1, 2)),
    (B, Step::Deliver(0), Outcome::OldPeer(2, 1)),
    (A, Step::Send(5), Outcome::Goes(1)),
    (A, Step::Deliver(5), Outcome::HandsUp(5)),
    (A, Step::Deliver(4), Outcome::OldSelf(2, 1)),
    (B, Step::Tick, Outcome::Goes(1)),
    (B, Step::Deliver(2), Outcome::Hello),
];

#[test]
fn exchanges(rt: HostRuntime) {
    for rows in [DROPS.as_slice(), HOLDS.as_slice()] {
        assert!(rt; matches!(first_wrong(rt.alloc(), rows), Ok(None)));
    }
}

//! A link from a node to another, by a drawn plan.
ghost use Rattle.std.specs.Prelude.{◌≡◌, false, IsTrue};
ghost use Rattle.qs_packet.specs.Grammar.{IsPacket, IsMessage, is_hello};

use crate::sessions::drawn::Drawn;
use crate::sessions::failed::Failed;
use qs_link::{Incoming, LinkFault, LinkPlan, Outgoing, is_plan, link};
use qs_packet::{Message, Packet};
use std::alloc::Global;

/// How many packets of a link have a drawn fate. All behind them come.
const PLANNED: u64 = 64;

/// Nodes are below it.
const NODES: u8 = 16;

/// The numbers of a packet are below it.
const LIMIT: u64 = 1 << 62;

#[derive(Drop)]
pub(crate) struct Link {
    from: Outgoing,
    to: Incoming,
    /// The faults of its plan.
    faults: Vec<LinkFault>,
    /// How many packets were put.
    count: u64,
}

impl Link {
    pub(crate) fn new(alloc: Global, drawn: &mut Drawn) -> Result<Link, Failed> {
        let mut faults = Vec::new(alloc);
        for packet in 1..=PLANNED {
            if let Some(fault) = drawn.fault(packet) {
                faults.push(fault)?;
            }
        }
        let plan = LinkPlan::from_vec(faults.clone()?);
        if !is_plan(plan.as_slice()) {
            return Err(Failed::NoPlan);
        }
        let (from, to) = link(alloc, plan)?;
        Ok(Link {
            from,
            to,
            faults,
            count: 0,
        })
    }

    pub(crate) fn put(&mut self, packet: &Packet, drawn: &mut Drawn) -> Result<(), Failed> {
        if !has_spelling(packet) {
            return Err(Failed::NoSpelling);
        }
        self.from.put(packet)?;
        self.count = self.count.saturating_add(1);
        for fault in self.faults.iter() {
            drawn.note(*fault, self.count);
        }
        Ok(())
    }

    /// The next packet that comes, if one does.
    pub(crate) fn take(&mut self) -> Result<Option<Packet>, Failed> {
        self.from.push_all();
        Ok(self.to.take()?)
    }
}

/// Whether the packet is one that this program's sessions may put, all of which have a spelling.
fn has_spelling(packet: &Packet) -> bool
    ensures { IsTrue result → IsPacket packet.now }
{
    if packet.from.0 >= NODES || packet.to.0 >= NODES {
        return false;
    }
    if packet.inc >= LIMIT || packet.to_inc >= LIMIT || packet.stamp >= LIMIT {
        return false;
    }
    if packet.number >= LIMIT || packet.ack >= LIMIT {
        return false;
    }
    if packet.number == 0 {
        matches!(packet.message, Message::Hello)
    } else {
        asks(&packet.message)
    }
}

/// Whether the message asks for a vote on a transaction whose identifier has a spelling.
fn asks(message: &Message) -> bool
    ensures spelled { IsTrue result → IsMessage message.now }
    ensures numbered { IsTrue result → is_hello message.now ≡ false }
{
    match message {
        Message::AskVote { tid } => tid.home.0 < NODES && tid.inc < LIMIT,
        _ => false,
    }
}

//! What an event of a node is made of.
ghost use Rattle.std.specs.Prelude.{◌≡◌, IfOk};
ghost use Rattle.qs_cell_chronicle.specs.Occasions.{event_of, did_of, stamp_in};

use qs_base::{Copied, NoMemory, Stamp};
use qs_book_journal::ScriptLine;
use qs_node_step::{Did, Event};
use qs_packet::Packet;

/// What an event of a node is made of.
#[derive(Drop)]
pub enum Occasion {
    /// A client's command.
    Command { line: ScriptLine },
    /// The requests that wait in the queues.
    Queues,
    /// Time that passes.
    Clock,
    /// The message in turn of another node, in a packet.
    Message { packet: Packet },
    /// Another node, known in incarnation `old`, was found to be in that of the packet.
    Restarted { packet: Packet, old: u64 },
}

impl Occasion {
    /// The event that it is for the node. The only error is a refusal of memory.
    pub fn event(&self) -> Result<Event, NoMemory>
        ensures { IfOk result (λ event. event ≡ event_of self.now) }
    {
        Ok(match self {
            Occasion::Command { line } => Event::Command {
                client: line.client,
                line: line.line,
                label: line.label.copy()?,
                command: line.command.copy()?,
            },
            Occasion::Queues => Event::ServeAll,
            Occasion::Clock => Event::Tick,
            Occasion::Message { packet } => Event::Received {
                peer: packet.from,
                message: packet.message.copy()?,
            },
            Occasion::Restarted { packet, old } => Event::PeerRestarted {
                peer: packet.from,
                old: *old,
                new: packet.inc,
            },
        })
    }

    /// The stamp of the packet that it brings, and 0 where it brings none.
    pub fn stamp(&self) -> Stamp
        ensures { result ≡ stamp_in self.now }
    {
        match self {
            Occasion::Message { packet } | Occasion::Restarted { packet, .. } => packet.stamp,
            Occasion::Command { .. } | Occasion::Queues | Occasion::Clock => 0,
        }
    }

    /// As a step of the trace names it.
    pub fn into_did(self) -> Did
        ensures { result ≡ did_of self }
    {
        match self {
            Occasion::Command { line } => Did::Command { line },
            Occasion::Queues => Did::ServeAll,
            Occasion::Clock => Did::Tick,
            Occasion::Message { packet } | Occasion::Restarted { packet, .. } => {
                Did::Packet { packet }
            }
        }
    }
}

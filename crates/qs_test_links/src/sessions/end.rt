//! One end of a session, with its link, what it sent to the peer's incarnation, and what it handed up.

use crate::sessions::drawn::Drawn;
use crate::sessions::failed::Failed;
use crate::sessions::link::Link;
use qs_base::{GrowFault, NodeNo, Tid};
use qs_packet::{Message, Packet};
use qs_session::{Session, Taken};
use std::alloc::Global;

#[derive(Drop)]
pub(crate) struct End {
    pub(crate) me: NodeNo,
    pub(crate) peer: NodeNo,
    /// The incarnation of this node, and that of the peer that is known: 0 while none is.
    pub(crate) inc: u64,
    pub(crate) known: u64,
    session: Session,
    /// The messages for the incarnation of the peer that is known, or for the first that will be.
    pub(crate) sent: Vec<u32>,
    /// Those that came from it and were handed up.
    pub(crate) got: Vec<u32>,
    /// What goes to the peer.
    link: Link,
}

impl End {
    pub(crate) fn new(
        alloc: Global,
        me: NodeNo,
        peer: NodeNo,
        drawn: &mut Drawn,
    ) -> Result<End, Failed> {
        let link = Link::new(alloc, drawn)?;
        Ok(End {
            me,
            peer,
            inc: 1,
            known: 0,
            session: Session::new(alloc, me, 1, peer),
            sent: Vec::new(alloc),
            got: Vec::new(alloc),
            link,
        })
    }

    /// The node crashes and restarts; what is on the link stays there.
    pub(crate) fn restart(&mut self, alloc: Global) {
        self.inc = self.inc.saturating_add(1);
        self.session = Session::new(alloc, self.me, self.inc, self.peer);
        self.known = 0;
        self.sent.clear();
        self.got.clear();
    }

    pub(crate) fn send(&mut self, message: u32, drawn: &mut Drawn) -> Result<(), Failed> {
        self.sent.push(message)?;
        match self.session.send(numbered(message), 0) {
            Ok(Some(packet)) => {
                let put = self.link.put(&packet, drawn);
                drop(packet);
                put
            }
            Ok(None) => Ok(()),
            Err(GrowFault::NoMemory) => Err(Failed::NoMemory),
            Err(GrowFault::Last { .. }) => Err(Failed::Last),
        }
    }

    pub(crate) fn tick(&mut self, drawn: &mut Drawn) -> Result<(), Failed> {
        let packets = self.session.tick(0)?;
        for packet in packets.as_slice() {
            self.link.put(packet, drawn)?;
        }
        Ok(())
    }

    /// The next packet that comes to the peer, if one does.
    pub(crate) fn next(&mut self) -> Result<Option<Packet>, Failed> {
        self.link.take()
    }

    /// A packet comes to this end.
    pub(crate) fn take(&mut self, packet: Packet) -> Result<(), Failed> {
        match self.session.receive(packet) {
            Taken::NewPeer { old, new } => {
                self.known = new;
                if old != 0 {
                    self.sent.clear();
                }
                self.got.clear();
            }
            Taken::Message { message } => {
                let number = number_of(&message);
                drop(message);
                self.got.push(number)?;
            }
            other => drop(other),
        }
        Ok(())
    }
}

/// The number of its own that a message has.
fn number_of(message: &Message) -> u32 {
    match message {
        Message::AskVote { tid } => tid.seq,
        _ => 0,
    }
}

/// The message with that number of its own.
fn numbered(message: u32) -> Message {
    Message::AskVote {
        tid: Tid {
            home: NodeNo(0),
            inc: 1,
            seq: message,
        },
    }
}

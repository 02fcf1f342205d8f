//! What comes to a node, and what a step of it brings about.

use qs_base::{Bytes, ClientNo, List, NodeNo};
use qs_book_journal::{Act, Command, LineAnswer};
use qs_packet::Message;
use qs_record::Record;

/// What comes to a node.
#[derive(Drop)]
pub enum Event {
    /// A client's command, at that line of its script.
    Command {
        client: ClientNo,
        line: u32,
        label: Bytes,
        command: Command,
    },
    /// A message of another node.
    Received {
        peer: NodeNo,
        message: Message,
    },
    /// The requests that wait are to be served.
    ServeAll,
    /// Another node, known in incarnation `old`, was found to be in incarnation `new`.
    PeerRestarted {
        peer: NodeNo,
        old: u64,
        new: u64,
    },
    /// Time passes.
    Tick,
}

/// A message and whom it goes to.
#[derive(Drop)]
pub struct Sending {
    pub to: NodeNo,
    pub message: Message,
}

/// An answer and whose it is.
#[derive(Drop)]
pub struct ClientAnswer {
    pub client: ClientNo,
    pub answer: LineAnswer,
}

/// What a step brings about, each list in order.
#[derive(Drop)]
pub struct Effects {
    /// Records to append to the log.
    pub records: List<Record>,
    /// Whether the log is to be forced before anything else is done.
    pub force: bool,
    pub messages: List<Sending>,
    pub answers: List<ClientAnswer>,
    pub entries: List<Act>,
}

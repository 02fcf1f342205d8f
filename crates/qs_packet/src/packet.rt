//! What goes over a link.

use crate::message::Message;
use qs_base::{Copied, NoMemory, NodeNo, Stamp};

/// A packet from one node to another.
#[derive(Debug, Drop)]
pub struct Packet {
    /// The node that sends it, in its incarnation `inc`.
    pub from: NodeNo,
    pub inc: u64,
    /// The node that it is for, in the incarnation `to_inc`; 0 where the sender knows none.
    pub to: NodeNo,
    pub to_inc: u64,
    /// The message's number between the two incarnations, from 1; a Hello, and nothing else, has 0.
    pub number: u64,
    /// The greatest number that the sender has handed up.
    pub ack: u64,
    /// The sender's stamp as it went.
    pub stamp: Stamp,
    pub message: Message,
}

impl Copied for Packet {
    fn copy(&self) -> Result<Self, NoMemory> {
        Ok(Packet {
            from: self.from,
            inc: self.inc,
            to: self.to,
            to_inc: self.to_inc,
            number: self.number,
            ack: self.ack,
            stamp: self.stamp,
            message: self.message.copy()?,
        })
    }
}

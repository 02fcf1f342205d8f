//! What a session answers a packet.

use qs_packet::Message;

/// What a packet is answered: the first that holds.
#[derive(Drop)]
pub enum Taken {
    /// It comes from an earlier incarnation of the peer than the known one.
    OldPeer { known: u64, got: u64 },
    /// It comes from a later one, which is known from now on. `old` is 0 where none was known.
    NewPeer { old: u64, new: u64 },
    /// It is for another incarnation of this node.
    OldSelf { mine: u64, got: u64 },
    /// It bears no message.
    Hello,
    /// Its message was handed up before.
    Repeat { number: u64 },
    /// A message before it was not handed up yet.
    Early { number: u64, expected: u64 },
    /// Its message is the next one, and is handed up.
    Message { message: Message },
}

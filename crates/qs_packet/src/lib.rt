//! Messages between nodes, and packets: what carries a message, as bytes with one spelling.
#![tactic(auto)]

mod body;
mod decoding;
mod encoding;
mod fault;
mod laws;
mod message;
mod packet;
mod part;
mod source;
mod tag;

pub use decoding::decode_packet;
pub use encoding::encode_packet;
pub use fault::PacketFault;
pub use laws::{no_prefix, one_spelling, reads_back, valid};
pub use message::Message;
pub use packet::Packet;

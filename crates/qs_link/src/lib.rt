//! Lanes between two threads, the node's ends of those between it and its clients, and links: lanes of packets with a plan of
//! what is lost, repeated and held back.
#![tactic(auto)]

mod ends;
mod lanes;
mod laws;
mod links;
mod outgoing;
mod parcel;

pub use ends::{NodeEnds, carry_in, carry_out, deliver, has_line, take_line};
pub use lanes::{Draw, Feed, carry, lane, look};
pub use laws::{taken_is_put, went};
pub use links::{Incoming, carry_link, link};
pub use outgoing::{HeldPacket, LinkFault, LinkPlan, Outgoing, is_plan};
pub use parcel::Parcel;

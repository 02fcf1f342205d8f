//! Rows of packets.
ghost use Rattle.qs_packet.specs.Grammar.{IsPacket};

use anyhow::{Error, bail};
use qs_packet::{Packet, PacketFault, decode_packet, encode_packet, valid};
use std::alloc::Global;

/// What comes of the bytes that these digits spell, as a packet.
pub(crate) fn packet_row(alloc: Global, digits: &str) -> Result<String, Error> {
    let bytes = hex::decode(alloc, digits)?;
    valid();
    match decode_packet(alloc, bytes.as_slice()) {
        Ok(packet) => {
            let text = packet_text(alloc, &packet);
            drop(packet);
            text
        }
        Err(PacketFault::NoMemory) => bail!("there is no memory"),
        Err(fault) => Ok(format!(in alloc; "{fault}")?),
    }
}

/// The packet, and the digits of the bytes that spell it.
fn packet_text(alloc: Global, packet: &Packet) -> Result<String, Error>
    requires { IsPacket packet.now }
{
    let Ok(bytes) = encode_packet(alloc, packet) else {
        bail!("there is no memory");
    };
    let digits = hex::encode(alloc, bytes.as_slice())?;
    Ok(format!(in alloc; "{packet:?} {digits}")?)
}

//! A packet as its bytes.
ghost use Rattle.std.specs.Prelude.{◌≡◌, IfOk};
ghost use Rattle.qs_packet.specs.Grammar.{IsPacket};

use qs_base::{Bytes, Copied, NoMemory};
use qs_packet::{Packet, decode_packet, encode_packet, reads_back, valid};
use std::alloc::Global;
use std::marker::Model;

/// Bytes that spell a packet, seen as that packet.
#[derive(Drop)]
pub struct Parcel {
    bytes: Bytes,
}

impl Model for Parcel {
    ghost use Rattle.std.specs.Prelude.{◌≡◌, true, is_ok};
    ghost use Rattle.qs_link.specs.Parcel.{packet_in};
    ghost use Rattle.qs_packet.specs.Reading.{decoded};
    ghost use Rattle.qs_packet.specs.declared.packet.Packet.{Packet};

    ghost Value = { Packet };

    ghost view = { λ p. packet_in (decoded p.bytes) };

    ghost invariant = { λ p. is_ok (decoded p.bytes) ≡ true };
}

impl Parcel {
    /// The parcel of the packet.
    pub(crate) fn new(alloc: Global, packet: &Packet) -> Result<Parcel, NoMemory>
        requires { IsPacket packet.now }
        ensures { IfOk result (λ parcel. parcel ≡ packet.now) }
    {
        let bytes = encode_packet(alloc, packet)?;
        reads_back();
        Ok(Parcel { bytes })
    }

    /// The packet of the parcel.
    pub(crate) fn open(&self, alloc: Global) -> Result<Packet, NoMemory>
        ensures value { IfOk result (λ packet. packet ≡ self.now) }
        ensures spelled { IfOk result IsPacket }
    {
        valid();
        match decode_packet(alloc, self.bytes.as_slice()) {
            Ok(packet) => Ok(packet),
            Err(_) => Err(NoMemory),
        }
    }
}

impl Copied for Parcel {
    fn copy(&self) -> Result<Self, NoMemory> {
        let bytes = self.bytes.copy()?;
        Ok(Parcel { bytes })
    }
}

//! A session that is given only what has a spelling.
ghost use Rattle.std.specs.Prelude.{◌≡◌, ℕ, ◌<◌, ◌^◌, ◌+◌, ◌-◌, ◌↔◌, All, Err, IfOk, IfSome, OnOk, OnErr, IsErrOf, length, option_map, map};
ghost use Rattle.qs_base.specs.declared.memory.GrowFault.TheVariants.{Last};
ghost use Rattle.qs_session_channels.specs.End.{sent, sent_packet, received, answer, tick_packets, ticked};
ghost use Rattle.qs_packet.specs.Grammar.{IsPacket};
ghost use Rattle.qs_packet.specs.declared.message.Message.TheVariants.{Hello};
ghost use Rattle.qs_node_spelled.specs.Spelled.{IsSendable};
ghost use Rattle.qs_session.specs.Seen.{seen, answer_with, IsFrom};
ghost use Rattle.qs_session.specs.Spelled.{IsSpelled};

use crate::session::Session;
use crate::taken::Taken;
use qs_base::{GrowFault, List, NoMemory, Stamp};
use qs_packet::{Message, Packet};

/// Sends a message: the packet to put on the link, where one goes, has a spelling.
pub fn post(
    session: &mut Session,
    message: Message,
    stamp: Stamp,
) -> Result<Option<Packet>, GrowFault>
    requires spelled { IsSpelled session.old }
    requires message { IsSendable message }
    requires stamp { stamp < 2 ^ 62 }
    ensures spelled { IsSpelled session.new }
    ensures packet { IfOk result (λ p. IfSome p IsPacket) }
    ensures sent { IfOk result (λ p. option_map seen p ≡ sent_packet session.old.end message stamp) }
    ensures from { IfOk result (λ p. IfSome p (IsFrom session.old)) }
    ensures end { OnOk result (session.new ≡ record session.old { end = sent session.old.end message }) }
    ensures last { IsErrOf result (Last (2 ^ 62 - 1)) ↔ (session.old.end.acked + length session.old.end.kept ≡ 2 ^ 62 - 1) }
    ensures only { (value : ℕ) → result ≡ Err (Last value) → value ≡ 2 ^ 62 - 1 }
    ensures err { OnErr result (session.new ≡ session.old) }
{
    session.send(message, stamp)
}

/// Takes in a packet that came over a link, as `receive`; `None` exactly where its message is the next one. Takes no memory.
#[tactic(auto, using(crate::proofs::Spelling::spelled_receive))]
pub fn hear(session: &mut Session, packet: &Packet) -> Option<Taken>
    requires spelled { IsSpelled session.old }
    requires packet { IsPacket packet.now }
    ensures spelled { IsSpelled session.new }
    ensures answer { answer_with result packet.now.message ≡ answer session.old.end (seen packet.now) }
    ensures end { session.new ≡ record session.old { end = received session.old.end (seen packet.now) } }
{
    session.hear(packet)
}

/// What is due at a tick has a spelling.
#[tactic(auto, using(crate::proofs::Posts::tick_spelled, crate::proofs::Spelling::spelled_tick))]
pub fn tick(session: &mut Session, stamp: Stamp) -> Result<List<Packet>, NoMemory>
    requires spelled { IsSpelled session.old }
    requires stamp { stamp < 2 ^ 62 }
    ensures spelled { IsSpelled session.new }
    ensures packets { IfOk result (All IsPacket) }
    ensures due { IfOk result (λ ps. map seen ps ≡ tick_packets Hello session.old.end stamp) }
    ensures from { IfOk result (All (IsFrom session.old)) }
    ensures end { OnOk result (session.new ≡ record session.old { end = ticked session.old.end }) }
    ensures err { OnErr result (session.new ≡ session.old) }
{
    session.tick(stamp)
}

//! Which packets of a session have a spelling.
ghost use Rattle.std.specs.Prelude.{◌≡◌, ℕ, ◌+◌, ◌<◌, ◌^◌, true, List, length, map, Some};
ghost use Rattle.std.specs.List.{All};
ghost use Rattle.qs_base.specs.declared.identifiers.NodeNo.{NodeNo};
ghost use Rattle.qs_session_channels.specs.End.{fresh, sent, sent_packet, received, tick_packets, ticked};
ghost use Rattle.qs_packet.specs.Grammar.{IsPacket};
ghost use Rattle.qs_packet.specs.declared.message.Message.{Message};
ghost use Rattle.qs_packet.specs.declared.message.Message.TheVariants.{Hello};
ghost use Rattle.qs_packet.specs.declared.packet.Packet.{Packet};
ghost use Rattle.qs_record.specs.Grammar.{is_node};
ghost use Rattle.qs_session.specs.Seen.{SessionValue, seen, IsFrom};
ghost use Rattle.qs_node_spelled.specs.Spelled.{IsSendable};
ghost use Rattle.qs_session.specs.Spelled.{IsSpelled};

/// The packets of a session between two nodes have a spelling, as long as it is given only messages, stamps and packets that have one.
pub fn spelled()
    ensures new { (me peer : NodeNo) (mine : ℕ) → is_node me.0 ≡ true → is_node peer.0 ≡ true → mine < 2 ^ 62 → IsSpelled (record { me = me; peer = peer; end = fresh mine }) }
    ensures send { (s : SessionValue) (message : Message) → IsSpelled s → IsSendable message → s.end.acked + length s.end.kept + 1 < 2 ^ 62 → IsSpelled (record s { end = sent s.end message }) }
    ensures packet { (s : SessionValue) (message : Message) (stamp : ℕ) (p : Packet) → IsSpelled s → IsSendable message → stamp < 2 ^ 62 → s.end.acked + length s.end.kept + 1 < 2 ^ 62 → Some (seen p) ≡ sent_packet s.end message stamp → IsFrom s p → IsPacket p }
    ensures receive { (s : SessionValue) (p : Packet) → IsSpelled s → IsPacket p → IsSpelled (record s { end = received s.end (seen p) }) }
    ensures tick { (s : SessionValue) (stamp : ℕ) (ps : List Packet) → IsSpelled s → stamp < 2 ^ 62 → map seen ps ≡ tick_packets Hello s.end stamp → All (IsFrom s) ps → All IsPacket ps }
    ensures ticked { (s : SessionValue) → IsSpelled s → IsSpelled (record s { end = ticked s.end }) }
{}

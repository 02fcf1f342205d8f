//! The ends of sessions in the world over packets.
ghost use Rattle.qs_world_packets.specs.PacketSessions.{IsPlain};

/// An end of a session whose messages have the stamps of the steps that posted them answers, keeps and sends what the end without these stamps does: so
/// the ends of the world do as the sessions of the code.
pub fn sessions_are_plain()
    ensures { IsPlain }
{}

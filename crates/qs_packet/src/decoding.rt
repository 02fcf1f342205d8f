//! Packets read from bytes.
ghost use Rattle.std.specs.Prelude.{◌≡◌, ◌==◌, List, ℕ, true, false, IfOk, MatchResult};
ghost use Rattle.qs_packet.specs.declared.packet.Packet.{Packet};
ghost use Rattle.qs_packet.specs.declared.fault.PacketFault.TheVariants.{NoMemory};
ghost use Rattle.qs_packet.specs.Grammar.{SpellsPacket, IsNumbered, message_parts, packet_parts, is_hello};
ghost use Rattle.qs_packet.specs.Reading.{GivesIfRoom, TakesParts, TakesBehind, decoded, packet_at, message_at, hello_behind, message_behind, request_at, answered_at, covered_at, voted_yes_at, voted_abort_at, tell_at, told_at};
ghost use Rattle.qs_record.specs.Reading.{FindsIfRoom};

use crate::body::{take_cause, take_reply};
use crate::fault::PacketFault;
use crate::message::Message;
use crate::packet::Packet;
use crate::source::{NAME_LIMIT, Source, bad_tag};
use crate::tag;
use qs_record::RecordFault;
use std::alloc::Global;

/// The packet that these bytes spell, whole. The first fault from the left comes: `BadTag` at a node
/// that is not below 16, a server that is not 0 to 6 or 32 to 95, at an outcome that is not 0 or 1,
/// at a tag of no message, reply, cause or reason, and at the tag of a Hello whose number is not 0
/// or of another message whose number is 0; `BadNumber` at a number that is not below 2^62; `Short`
/// where a field is cut off, and at a count above the bytes that are left; the faults of an
/// identifier, a member, a list of nodes, an operation and a text; `Trailing` at the first byte
/// behind the message; and `NoMemory` where memory was refused.
pub fn decode_packet(alloc: Global, bytes: &[u8]) -> Result<Packet, PacketFault>
    // A packet exactly where the bytes are its spelling and there is memory.
    ensures value { IfOk result (λ packet. SpellsPacket packet bytes.now) }
    ensures only { (packet : Packet) → SpellsPacket packet bytes.now → MatchResult result (λ found. found ≡ packet) (λ fault. fault ≡ NoMemory) }

    // Which packet or fault it is.
    ensures exact { GivesIfRoom result (decoded bytes.now) }
{
    let mut source = Source::new(alloc, bytes);
    let packet = take_packet(&mut source)?;
    if source.left() > 0 {
        drop(packet);
        return Err(PacketFault::Trailing { at: source.place() });
    }
    Ok(packet)
}

// A packet, whatever follows.
#[tactic(auto, using(crate::proofs::Parts::seven_more), unfolding(crate::specs::Reading::packet_at))]
fn take_packet(source: &mut Source<'_>) -> Result<Packet, RecordFault>
    ensures exact { FindsIfRoom result source.new (packet_at source.old) }
    ensures value { IfOk result (λ packet. TakesParts (packet_parts packet) source.old source.new) }
    ensures numbered { IfOk result IsNumbered }
{
    let from = source.node()?;
    let inc = source.number()?;
    let to = source.node()?;
    let to_inc = source.number()?;
    let number = source.number()?;
    let ack = source.number()?;
    let stamp = source.number()?;
    let message = take_message(source, number == 0)?;
    Ok(Packet {
        from,
        inc,
        to,
        to_inc,
        number,
        ack,
        stamp,
        message,
    })
}

// A message: a Hello, or any other.
#[tactic(auto, using(crate::proofs::Parts::message_answered, crate::proofs::Parts::one_part), unfolding(crate::specs::Reading::message_at, crate::specs::Reading::hello_behind))]
fn take_message(source: &mut Source<'_>, hello: bool) -> Result<Message, RecordFault>
    ensures exact { FindsIfRoom result source.new (message_at hello source.old) }
    ensures value { IfOk result (λ message. TakesParts (message_parts message) source.old source.new) }
    ensures numbered { IfOk result (λ message. is_hello message ≡ hello) }
{
    let at = source.place();
    let tag = source.tag()?;
    if !hello {
        return take_behind(source, at, tag);
    }
    if tag != tag::HELLO {
        return Err(bad_tag(at, tag));
    }
    Ok(Message::Hello)
}

// What stands behind a tag, which stood at that place.
#[tactic(auto, using(crate::proofs::Messages::ask_vote_taken, crate::proofs::Messages::inquire_taken), unfolding(crate::specs::Reading::message_behind, crate::specs::Reading::ask_vote_at, crate::specs::Reading::inquire_at))]
fn take_behind(source: &mut Source<'_>, at: u64, tag: u8) -> Result<Message, RecordFault>
    ensures exact { FindsIfRoom result source.new (message_behind at tag source.old) }
    ensures value { IfOk result (λ message. TakesBehind tag (message_parts message) source.old source.new) }
    ensures numbered { IfOk result (λ message. is_hello message ≡ false) }
{
    match tag {
        tag::REQUEST => take_request(source),
        tag::ANSWERED => take_answered(source),
        tag::ASK_VOTE => Ok(Message::AskVote { tid: source.tid()? }),
        tag::COVERED => take_covered(source),
        tag::VOTED_YES => take_voted_yes(source),
        tag::VOTED_ABORT => take_voted_abort(source),
        tag::TELL => take_tell(source),
        tag::TOLD => take_told(source),
        tag::INQUIRE => Ok(Message::Inquire { tid: source.tid()? }),
        _ => Err(bad_tag(at, tag)),
    }
}

// The fields of a request.
#[tactic(auto, using(crate::proofs::Messages::request_taken), unfolding(crate::specs::Reading::request_at))]
fn take_request(source: &mut Source<'_>) -> Result<Message, RecordFault>
    ensures exact { FindsIfRoom result source.new (request_at source.old) }
    ensures value { IfOk result (λ message. TakesBehind 1 (message_parts message) source.old source.new) }
    ensures numbered { IfOk result (λ message. is_hello message ≡ false) }
{
    let tid = source.tid()?;
    let label = source.text(NAME_LIMIT)?;
    let member = source.member()?;
    let number = source.word()?;
    let issuer = source.server()?;
    let op = source.op()?;
    Ok(Message::Request {
        tid,
        label,
        member,
        number,
        issuer,
        op,
    })
}

// The fields of a reply.
#[tactic(auto, using(crate::proofs::Messages::answered_taken), unfolding(crate::specs::Reading::answered_at))]
fn take_answered(source: &mut Source<'_>) -> Result<Message, RecordFault>
    ensures exact { FindsIfRoom result source.new (answered_at source.old) }
    ensures value { IfOk result (λ message. TakesBehind 2 (message_parts message) source.old source.new) }
    ensures numbered { IfOk result (λ message. is_hello message ≡ false) }
{
    let tid = source.tid()?;
    let member = source.member()?;
    let number = source.word()?;
    let reply = take_reply(source)?;
    Ok(Message::Answered {
        tid,
        member,
        number,
        reply,
    })
}

// The fields of a count of requests that votes cover.
#[tactic(auto, using(crate::proofs::Messages::covered_taken), unfolding(crate::specs::Reading::covered_at))]
fn take_covered(source: &mut Source<'_>) -> Result<Message, RecordFault>
    ensures exact { FindsIfRoom result source.new (covered_at source.old) }
    ensures value { IfOk result (λ message. TakesBehind 4 (message_parts message) source.old source.new) }
    ensures numbered { IfOk result (λ message. is_hello message ≡ false) }
{
    let tid = source.tid()?;
    let up_to = source.word()?;
    Ok(Message::Covered { tid, up_to })
}

// The fields of a vote for commit.
#[tactic(auto, using(crate::proofs::Messages::voted_yes_taken), unfolding(crate::specs::Reading::voted_yes_at))]
fn take_voted_yes(source: &mut Source<'_>) -> Result<Message, RecordFault>
    ensures exact { FindsIfRoom result source.new (voted_yes_at source.old) }
    ensures value { IfOk result (λ message. TakesBehind 5 (message_parts message) source.old source.new) }
    ensures numbered { IfOk result (λ message. is_hello message ≡ false) }
{
    let tid = source.tid()?;
    let up_to = source.word()?;
    let told = source.nodes()?;
    Ok(Message::VotedYes { tid, up_to, told })
}

// The fields of a vote for abort.
#[tactic(auto, using(crate::proofs::Messages::voted_abort_taken), unfolding(crate::specs::Reading::voted_abort_at))]
fn take_voted_abort(source: &mut Source<'_>) -> Result<Message, RecordFault>
    ensures exact { FindsIfRoom result source.new (voted_abort_at source.old) }
    ensures value { IfOk result (λ message. TakesBehind 6 (message_parts message) source.old source.new) }
    ensures numbered { IfOk result (λ message. is_hello message ≡ false) }
{
    let tid = source.tid()?;
    let cause = take_cause(source)?;
    Ok(Message::VotedAbort { tid, cause })
}

// The fields of an outcome.
#[tactic(auto, using(crate::proofs::Messages::tell_taken), unfolding(crate::specs::Reading::tell_at))]
fn take_tell(source: &mut Source<'_>) -> Result<Message, RecordFault>
    ensures exact { FindsIfRoom result source.new (tell_at source.old) }
    ensures value { IfOk result (λ message. TakesBehind 7 (message_parts message) source.old source.new) }
    ensures numbered { IfOk result (λ message. is_hello message ≡ false) }
{
    let tid = source.tid()?;
    let outcome = source.outcome()?;
    Ok(Message::Tell { tid, outcome })
}

// The fields of what is answered to an outcome.
#[tactic(auto, using(crate::proofs::Messages::told_taken), unfolding(crate::specs::Reading::told_at))]
fn take_told(source: &mut Source<'_>) -> Result<Message, RecordFault>
    ensures exact { FindsIfRoom result source.new (told_at source.old) }
    ensures value { IfOk result (λ message. TakesBehind 8 (message_parts message) source.old source.new) }
    ensures numbered { IfOk result (λ message. is_hello message ≡ false) }
{
    let tid = source.tid()?;
    let further = source.nodes()?;
    Ok(Message::Told { tid, further })
}

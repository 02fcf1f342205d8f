//! Replies, causes and reasons read.
ghost use Rattle.std.specs.Prelude.{IfOk};
ghost use Rattle.qs_ops.specs.declared.answer.Cause.TheVariants as causes;
ghost use Rattle.qs_ops.specs.declared.vote.Reason.TheVariants as reasons;
ghost use Rattle.qs_packet.specs.Grammar.{reply_parts, cause_parts, reason_parts};
ghost use Rattle.qs_packet.specs.Reading.{TakesParts, TakesBehind, reply_at, reply_behind, cause_at, cause_behind, voted_at, gone_at, reason_at, reason_behind};
ghost use Rattle.qs_record.specs.Reading.{FindsIfRoom};

use crate::source::{NAME_LIMIT, REPLY_LIMIT, Source, bad_tag};
use crate::tag;
use qs_ops::{Cause, Reason, Reply};
use qs_record::RecordFault;

// A reply.
#[tactic(auto, using(crate::proofs::Parts::reply_answered), unfolding(crate::specs::Reading::reply_at))]
pub(crate) fn take_reply(source: &mut Source<'_>) -> Result<Reply, RecordFault>
    ensures exact { FindsIfRoom result source.new (reply_at source.old) }
    ensures value { IfOk result (λ reply. TakesParts (reply_parts reply) source.old source.new) }
{
    let at = source.place();
    let tag = source.tag()?;
    reply_behind(source, at, tag)
}

// The fields of a reply behind its tag, which stood at that place.
#[tactic(auto, using(crate::proofs::Messages::done_taken, crate::proofs::Messages::value_taken, crate::proofs::Messages::left_taken, crate::proofs::Messages::names_taken, crate::proofs::Messages::notes_taken, crate::proofs::Messages::busy_taken, crate::proofs::Messages::absent_taken, crate::proofs::Messages::too_many_taken, crate::proofs::Messages::too_long_taken), unfolding(crate::specs::Reading::reply_behind, crate::specs::Reading::value_at, crate::specs::Reading::left_at, crate::specs::Reading::names_at, crate::specs::Reading::notes_at, crate::specs::Reading::busy_at))]
fn reply_behind(source: &mut Source<'_>, at: u64, tag: u8) -> Result<Reply, RecordFault>
    ensures exact { FindsIfRoom result source.new (reply_behind at tag source.old) }
    ensures value { IfOk result (λ reply. TakesBehind tag (reply_parts reply) source.old source.new) }
{
    match tag {
        tag::DONE => Ok(Reply::Done),
        tag::VALUE => {
            let text = source.text(REPLY_LIMIT)?;
            Ok(Reply::Value { text })
        }
        tag::LEFT => {
            let ticks = source.word()?;
            Ok(Reply::Left { ticks })
        }
        tag::NAMES => {
            let list = source.texts(NAME_LIMIT)?;
            Ok(Reply::Names { list })
        }
        tag::NOTES => {
            let list = source.texts(REPLY_LIMIT)?;
            Ok(Reply::Notes { list })
        }
        tag::BUSY => {
            let holder = source.tid()?;
            Ok(Reply::Busy { holder })
        }
        tag::ABSENT => Ok(Reply::Absent),
        tag::TOO_MANY => Ok(Reply::TooMany),
        tag::TOO_LONG => Ok(Reply::TooLong),
        _ => Err(bad_tag(at, tag)),
    }
}

// A cause.
#[tactic(auto, using(crate::proofs::Parts::cause_answered), unfolding(crate::specs::Reading::cause_at))]
pub(crate) fn take_cause(source: &mut Source<'_>) -> Result<Cause, RecordFault>
    ensures exact { FindsIfRoom result source.new (cause_at source.old) }
    ensures value { IfOk result (λ cause. TakesParts (cause_parts cause) source.old source.new) }
{
    let at = source.place();
    let tag = source.tag()?;
    cause_behind(source, at, tag)
}

// The fields of a cause behind its tag, which stood at that place.
#[tactic(auto, using(crate::proofs::Messages::asked_taken, crate::proofs::Messages::gone_taken, crate::proofs::Messages::home_taken, crate::proofs::Messages::room_taken, crate::proofs::Messages::old_taken), unfolding(crate::specs::Reading::cause_behind, crate::specs::Reading::gone_at, crate::specs::Reading::home_at, crate::specs::Reading::old_at, crate::specs::Reading::two_numbers_at))]
fn cause_behind(source: &mut Source<'_>, at: u64, tag: u8) -> Result<Cause, RecordFault>
    ensures exact { FindsIfRoom result source.new (cause_behind at tag source.old) }
    ensures value { IfOk result (λ cause. TakesBehind tag (cause_parts cause) source.old source.new) }
{
    match tag {
        tag::ASKED => Ok(Cause::Asked),
        tag::VOTED => take_voted(source),
        tag::GONE => {
            let node = source.node()?;
            let inc = source.number()?;
            Ok(Cause::Gone { node, inc })
        }
        tag::HOME => {
            let inc = source.number()?;
            Ok(Cause::Home { inc })
        }
        tag::ROOM => {
            let need = source.number()?;
            let room = source.number()?;
            Ok(Cause::Room { need, room })
        }
        tag::OLD => {
            let age = source.number()?;
            Ok(Cause::Old { age })
        }
        _ => Err(bad_tag(at, tag)),
    }
}

// The fields of a cause that was voted.
#[tactic(auto, using(crate::proofs::Messages::voted_taken), unfolding(crate::specs::Reading::voted_at))]
fn take_voted(source: &mut Source<'_>) -> Result<Cause, RecordFault>
    ensures exact { FindsIfRoom result source.new (voted_at source.old) }
    ensures value { IfOk result (λ cause. TakesBehind 2 (cause_parts cause) source.old source.new) }
{
    let member = source.member()?;
    let reason = take_reason(source)?;
    Ok(Cause::Voted { member, reason })
}

// A reason.
#[tactic(auto, using(crate::proofs::Parts::reason_answered), unfolding(crate::specs::Reading::reason_at))]
fn take_reason(source: &mut Source<'_>) -> Result<Reason, RecordFault>
    ensures exact { FindsIfRoom result source.new (reason_at source.old) }
    ensures value { IfOk result (λ reason. TakesParts (reason_parts reason) source.old source.new) }
{
    let at = source.place();
    let tag = source.tag()?;
    reason_behind(source, at, tag)
}

// The fields of a reason behind its tag, which stood at that place.
#[tactic(auto, using(crate::proofs::Messages::quota_taken, crate::proofs::Messages::log_room_taken, crate::proofs::Messages::name_taken_taken, crate::proofs::Messages::code_taken), unfolding(crate::specs::Reading::reason_behind, crate::specs::Reading::two_numbers_at, crate::specs::Reading::taken_at, crate::specs::Reading::code_at))]
fn reason_behind(source: &mut Source<'_>, at: u64, tag: u8) -> Result<Reason, RecordFault>
    ensures exact { FindsIfRoom result source.new (reason_behind at tag source.old) }
    ensures value { IfOk result (λ reason. TakesBehind tag (reason_parts reason) source.old source.new) }
{
    match tag {
        tag::QUOTA => {
            let bytes = source.number()?;
            let limit = source.number()?;
            Ok(Reason::Quota { bytes, limit })
        }
        tag::LOG_ROOM => {
            let need = source.number()?;
            let room = source.number()?;
            Ok(Reason::LogRoom { need, room })
        }
        tag::TAKEN => {
            let name = source.text(NAME_LIMIT)?;
            Ok(Reason::Taken { name })
        }
        tag::CODE => {
            let code = source.word()?;
            Ok(Reason::Code { code })
        }
        _ => Err(bad_tag(at, tag)),
    }
}

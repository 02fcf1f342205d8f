//! Which messages have a spelling in bytes.
ghost use Rattle.std.specs.Prelude.{◌≡◌, ◌↔◌, true, All};
ghost use Rattle.qs_ops.specs.Spelled.{IsText};
ghost use Rattle.qs_packet.specs.Grammar.{AreTexts, AreParts, IsMessage, reply_parts, reason_parts, cause_parts};
ghost use Rattle.qs_node_spelled.specs.Spelled.{IsSendable};

use crate::parts::{
    NAME_LIMIT, are_nodes, is_member, is_node, is_number, is_server, is_spelled, is_text, is_tid,
};
use qs_base::{Bytes, List};
use qs_ops::{Cause, Reason, Reply};
use qs_packet::Message;

/// The most bytes of a text of a reply.
const REPLY_LIMIT: usize = 16_777_216;

/// Whether the message has a spelling and bears a number, so that a session may send it.
pub fn is_sendable(message: &Message) -> bool
    ensures { (result ≡ true) ↔ IsSendable message.now }
{
    !matches!(message, Message::Hello) && is_message(message)
}

/// Whether the message has a spelling: its identifiers, members, nodes, names, texts, counts and numbers keep their limits.
pub fn is_message(message: &Message) -> bool
    ensures { (result ≡ true) ↔ IsMessage message.now }
{
    match message {
        Message::Hello => true,
        Message::Request {
            tid,
            label,
            member,
            issuer,
            op,
            ..
        } => {
            is_tid(*tid)
                && is_text(label, NAME_LIMIT)
                && is_member(*member)
                && is_server(*issuer)
                && is_spelled(op)
        }
        Message::Answered {
            tid,
            member,
            reply,
            ..
        } => is_tid(*tid) && is_member(*member) && is_reply(reply),
        Message::AskVote { tid }
        | Message::Covered { tid, .. }
        | Message::Tell { tid, .. }
        | Message::Inquire { tid } => is_tid(*tid),
        Message::VotedYes { tid, told, .. } => is_tid(*tid) && are_nodes(told.as_slice()),
        Message::VotedAbort { tid, cause } => is_tid(*tid) && is_cause(cause),
        Message::Told { tid, further } => is_tid(*tid) && are_nodes(further.as_slice()),
    }
}

fn is_reply(reply: &Reply) -> bool
    ensures { (result ≡ true) ↔ AreParts (reply_parts reply.now) }
{
    match reply {
        Reply::Value { text } => is_text(text, REPLY_LIMIT),
        Reply::Names { list } => are_texts(list, NAME_LIMIT),
        Reply::Notes { list } => are_texts(list, REPLY_LIMIT),
        Reply::Busy { holder } => is_tid(*holder),
        Reply::Done | Reply::Left { .. } | Reply::Absent | Reply::TooMany | Reply::TooLong => true,
    }
}

/// Not too many for a count of four bytes, each of at most so many printable characters.
fn are_texts(texts: &List<Bytes>, limit: usize) -> bool
    ensures { (result ≡ true) ↔ AreTexts limit texts.now }
{
    texts.len() <= u32::MAX as usize && texts.as_slice().iter().all(|text| is_text(text, limit))
}

fn is_cause(cause: &Cause) -> bool
    ensures { (result ≡ true) ↔ AreParts (cause_parts cause.now) }
{
    match cause {
        Cause::Asked => true,
        Cause::Voted { member, reason } => is_member(*member) && is_reason(reason),
        Cause::Gone { node, inc } => is_node(*node) && is_number(*inc),
        Cause::Home { inc } => is_number(*inc),
        Cause::Room { need, room } => is_number(*need) && is_number(*room),
        Cause::Old { age } => is_number(*age),
    }
}

fn is_reason(reason: &Reason) -> bool
    ensures { (result ≡ true) ↔ AreParts (reason_parts reason.now) }
{
    match reason {
        Reason::Quota { bytes, limit } => is_number(*bytes) && is_number(*limit),
        Reason::LogRoom { need, room } => is_number(*need) && is_number(*room),
        Reason::Taken { name } => is_text(name, NAME_LIMIT),
        Reason::Code { .. } => true,
    }
}

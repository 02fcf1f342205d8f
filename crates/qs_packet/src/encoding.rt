//! Packets written as bytes.
ghost use Rattle.std.specs.Prelude.{◌≡◌, IfOk, OnOk};
ghost use Rattle.qs_packet.specs.Grammar.{AreParts, IsMessage, IsPacket, SpellsParts, SpellsPacket, outcome_tag, reply_parts, reason_parts, cause_parts, message_parts};
ghost use Rattle.qs_record.specs.Writing.{Adds};

use crate::message::Message;
use crate::packet::Packet;
use crate::part::{Part, add_parts};
use crate::tag;
use qs_base::{Bytes, List, NoMemory, Outcome};
use qs_ops::{Cause, Reason, Reply};
use std::alloc::Global;

/// The bytes that spell the packet: its head, and its message behind a tag. `NoMemory` comes where
/// memory was refused.
pub fn encode_packet(alloc: Global, packet: &Packet) -> Result<Bytes, NoMemory>
    requires { IsPacket packet.now }
    ensures { IfOk result (λ bytes. SpellsPacket packet.now bytes) }
{
    let mut out = List::new(alloc);
    add_parts(
        &mut out,
        &[
            Part::Node(packet.from),
            Part::Number(packet.inc),
            Part::Node(packet.to),
            Part::Number(packet.to_inc),
            Part::Number(packet.number),
            Part::Number(packet.ack),
            Part::Number(packet.stamp),
        ],
    )?;
    add_message(&mut out, &packet.message)?;
    Bytes::from_slice(alloc, out.as_slice())
}

// Adds a message at the end.
fn add_message(out: &mut List<u8>, message: &Message) -> Result<(), NoMemory>
    requires { IsMessage message.now }
    ensures { OnOk result (Adds (SpellsParts (message_parts message.now)) out.old out.new) }
{
    match message {
        Message::Hello => add_parts(out, &[Part::Tag(tag::HELLO)]),
        Message::Request {
            tid,
            label,
            member,
            number,
            issuer,
            op,
        } => add_parts(
            out,
            &[
                Part::Tag(tag::REQUEST),
                Part::Tid(*tid),
                Part::Name(label),
                Part::Member(*member),
                Part::Word(*number),
                Part::Server(*issuer),
                Part::Op(op),
            ],
        ),
        Message::Answered {
            tid,
            member,
            number,
            reply,
        } => {
            add_parts(
                out,
                &[
                    Part::Tag(tag::ANSWERED),
                    Part::Tid(*tid),
                    Part::Member(*member),
                    Part::Word(*number),
                ],
            )?;
            add_reply(out, reply)
        }
        Message::AskVote { tid } => add_parts(out, &[Part::Tag(tag::ASK_VOTE), Part::Tid(*tid)]),
        Message::Covered { tid, up_to } => add_parts(
            out,
            &[Part::Tag(tag::COVERED), Part::Tid(*tid), Part::Word(*up_to)],
        ),
        Message::VotedYes { tid, up_to, told } => add_parts(
            out,
            &[
                Part::Tag(tag::VOTED_YES),
                Part::Tid(*tid),
                Part::Word(*up_to),
                Part::Nodes(told),
            ],
        ),
        Message::VotedAbort { tid, cause } => {
            add_parts(out, &[Part::Tag(tag::VOTED_ABORT), Part::Tid(*tid)])?;
            add_cause(out, cause)
        }
        Message::Tell { tid, outcome } => add_parts(
            out,
            &[
                Part::Tag(tag::TELL),
                Part::Tid(*tid),
                Part::Tag(outcome_tag(*outcome)),
            ],
        ),
        Message::Told { tid, further } => add_parts(
            out,
            &[Part::Tag(tag::TOLD), Part::Tid(*tid), Part::Nodes(further)],
        ),
        Message::Inquire { tid } => add_parts(out, &[Part::Tag(tag::INQUIRE), Part::Tid(*tid)]),
    }
}

fn outcome_tag(outcome: Outcome) -> u8
    ensures { result ≡ outcome_tag outcome }
{
    match outcome {
        Outcome::Commit => tag::COMMIT,
        Outcome::Abort => tag::ABORT,
    }
}

// Adds a reply at the end.
fn add_reply(out: &mut List<u8>, reply: &Reply) -> Result<(), NoMemory>
    requires { AreParts (reply_parts reply.now) }
    ensures { OnOk result (Adds (SpellsParts (reply_parts reply.now)) out.old out.new) }
{
    match reply {
        Reply::Done => add_parts(out, &[Part::Tag(tag::DONE)]),
        Reply::Value { text } => add_parts(out, &[Part::Tag(tag::VALUE), Part::Text(text)]),
        Reply::Left { ticks } => add_parts(out, &[Part::Tag(tag::LEFT), Part::Word(*ticks)]),
        Reply::Names { list } => add_parts(out, &[Part::Tag(tag::NAMES), Part::Names(list)]),
        Reply::Notes { list } => add_parts(out, &[Part::Tag(tag::NOTES), Part::Texts(list)]),
        Reply::Busy { holder } => add_parts(out, &[Part::Tag(tag::BUSY), Part::Tid(*holder)]),
        Reply::Absent => add_parts(out, &[Part::Tag(tag::ABSENT)]),
        Reply::TooMany => add_parts(out, &[Part::Tag(tag::TOO_MANY)]),
        Reply::TooLong => add_parts(out, &[Part::Tag(tag::TOO_LONG)]),
    }
}

// Adds a cause at the end.
fn add_cause(out: &mut List<u8>, cause: &Cause) -> Result<(), NoMemory>
    requires { AreParts (cause_parts cause.now) }
    ensures { OnOk result (Adds (SpellsParts (cause_parts cause.now)) out.old out.new) }
{
    match cause {
        Cause::Asked => add_parts(out, &[Part::Tag(tag::ASKED)]),
        Cause::Voted { member, reason } => {
            add_parts(out, &[Part::Tag(tag::VOTED), Part::Member(*member)])?;
            add_reason(out, reason)
        }
        Cause::Gone { node, inc } => add_parts(
            out,
            &[Part::Tag(tag::GONE), Part::Node(*node), Part::Number(*inc)],
        ),
        Cause::Home { inc } => add_parts(out, &[Part::Tag(tag::HOME), Part::Number(*inc)]),
        Cause::Room { need, room } => add_parts(
            out,
            &[
                Part::Tag(tag::ROOM),
                Part::Number(*need),
                Part::Number(*room),
            ],
        ),
        Cause::Old { age } => add_parts(out, &[Part::Tag(tag::OLD), Part::Number(*age)]),
    }
}

// Adds a reason at the end.
fn add_reason(out: &mut List<u8>, reason: &Reason) -> Result<(), NoMemory>
    requires { AreParts (reason_parts reason.now) }
    ensures { OnOk result (Adds (SpellsParts (reason_parts reason.now)) out.old out.new) }
{
    match reason {
        Reason::Quota { bytes, limit } => add_parts(
            out,
            &[
                Part::Tag(tag::QUOTA),
                Part::Number(*bytes),
                Part::Number(*limit),
            ],
        ),
        Reason::LogRoom { need, room } => add_parts(
            out,
            &[
                Part::Tag(tag::LOG_ROOM),
                Part::Number(*need),
                Part::Number(*room),
            ],
        ),
        Reason::Taken { name } => add_parts(out, &[Part::Tag(tag::TAKEN), Part::Name(name)]),
        Reason::Code { code } => add_parts(out, &[Part::Tag(tag::CODE), Part::Word(*code)]),
    }
}

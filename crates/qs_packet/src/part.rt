//! The parts of packets, written one behind the other.
ghost use Rattle.std.specs.Prelude.{map, OnOk, All, ◌∷◌, length};
ghost use Rattle.qs_codec.specs.Grammar.{Word, Text};
ghost use Rattle.qs_packet.specs.Grammar.{IsPart, AreParts, AreTexts, SpellsPart, SpellsParts, reply_limit};
ghost use Rattle.qs_ops.specs.Spelled.{IsText};
ghost use Rattle.qs_packet.specs.Writing.{seen};
ghost use Rattle.qs_record.specs.Grammar.{SpellsAll};
ghost use Rattle.qs_record.specs.Writing.{Adds};

use qs_base::{Bytes, List, Member, NoMemory, NodeNo, ServerNo, Tid};
use qs_codec::{put_text, put_u8, put_u32, put_u64};
use qs_ops::Op;
use qs_record::{encode_op, put_member, put_nodes, put_tid};

/// A part of a packet.
#[derive(Drop)]
pub(crate) enum Part<'a> {
    Tag(u8),
    Node(NodeNo),
    Server(ServerNo),
    /// A number of four bytes.
    Word(u32),
    /// A number below 2^62, of eight bytes.
    Number(u64),
    Name(&'a Bytes),
    /// A text of a reply.
    Text(&'a Bytes),
    Names(&'a List<Bytes>),
    Texts(&'a List<Bytes>),
    Tid(Tid),
    Member(Member),
    Nodes(&'a List<NodeNo>),
    Op(&'a Op),
}

// Adds the parts at the end, or a front of them where memory is refused.
#[tactic(auto, using(crate::proofs::Adding::adds_none, crate::proofs::Adding::adds_next, crate::proofs::Adding::valid_at))]
pub(crate) fn add_parts(out: &mut List<u8>, parts: &[Part<'_>]) -> Result<(), NoMemory>
    requires { AreParts (map seen parts.now) }
    ensures { OnOk result (Adds (SpellsParts (map seen parts.now)) out.old out.new) }
{
    for part in parts {
        add_part(out, part)?;
    }
    Ok(())
}

#[tactic(auto, using(crate::proofs::Adding::names_as_texts))]
fn add_part(out: &mut List<u8>, part: &Part<'_>) -> Result<(), NoMemory>
    requires { IsPart (seen part.now) }
    ensures { OnOk result (Adds (SpellsPart (seen part.now)) out.old out.new) }
{
    match part {
        Part::Tag(tag) => put_u8(out, *tag),
        Part::Node(node) => put_u8(out, node.0),
        Part::Server(server) => put_u8(out, server.0),
        Part::Word(n) => put_u32(out, *n),
        Part::Number(n) => put_u64(out, *n),
        Part::Name(text) => put_text(out, text.as_slice()),
        Part::Text(text) => put_text(out, text.as_slice()),
        Part::Names(texts) => add_texts(out, texts),
        Part::Texts(texts) => add_texts(out, texts),
        Part::Tid(tid) => put_tid(out, *tid),
        Part::Member(member) => put_member(out, *member),
        Part::Nodes(nodes) => put_nodes(out, nodes),
        Part::Op(op) => encode_op(op, out),
    }
}

// Texts behind their count.
#[tactic(auto, using(crate::proofs::Adding::texts_added))]
fn add_texts(out: &mut List<u8>, texts: &List<Bytes>) -> Result<(), NoMemory>
    requires { AreTexts reply_limit texts.now }
    ensures { OnOk result (Adds (SpellsAll (Word (length texts.now) ∷ map Text texts.now)) out.old out.new) }
{
    put_u32(out, texts.len() as u32)?;
    add_each(out, texts.as_slice())
}

#[tactic(auto, using(crate::proofs::Adding::no_text, crate::proofs::Adding::adds_text))]
fn add_each(out: &mut List<u8>, texts: &[Bytes]) -> Result<(), NoMemory>
    requires { All (IsText reply_limit) texts.now }
    ensures { OnOk result (Adds (SpellsAll (map Text texts.now)) out.old out.new) }
{
    for text in texts {
        put_text(out, text.as_slice())?;
    }
    Ok(())
}

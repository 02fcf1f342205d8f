//! The parts of packets, read front to back by a reader that may stand anywhere after a fault.
ghost use Rattle.std.specs.Prelude.{◌≡◌, length, IfOk};
ghost use Rattle.std.specs.Int.{w8, w32};
ghost use Rattle.qs_codec.specs.Reading.{Reading, left_of, integer_at, number_at, text_at};
ghost use Rattle.qs_codec.specs.declared.fault.CodecFault.TheVariants.{Short, BadTag};
ghost use Rattle.qs_packet.specs.Grammar.{ATag, ANode, AServer, AWord, ANumber, AText, Texts, ATid, AMember, Nodes, AnOp, outcome_tag};
ghost use Rattle.qs_packet.specs.Reading.{TakesPart, TakesTexts, node_at, server_at, outcome_at, texts_behind, texts_at};
ghost use Rattle.qs_record.specs.Reading.{FindsIfRoom, tid_at, member_at, nodes_at, op_at};
ghost use Rattle.qs_record.specs.declared.fault.RecordFault.TheVariants.{Codec};

use qs_base::{Bytes, List, Member, NodeNo, Outcome, ServerNo, Tid};
use qs_codec::{CodecFault, Reader};
use qs_ops::Op;
use qs_record::{RecordFault, decode_op, read_member, read_nodes, read_tid};
use std::alloc::Global;
use std::marker::Model;

/// A name has at most 64 bytes.
pub(crate) const NAME_LIMIT: u32 = 64;
/// And the text of a reply, which may be that of a file from a log that was handed in, at most
/// 16 MiB.
pub(crate) const REPLY_LIMIT: u32 = 16_777_216;

// A reader that tells its place.
#[derive(Drop)]
pub(crate) struct Source<'a> {
    reader: Reader<'a>,
    len: usize,
    alloc: Global,
}

impl<'a> Model for Source<'a> {
    ghost use Rattle.std.specs.Prelude.{◌≡◌, ◌+◌, length};
    ghost use Rattle.qs_codec.specs.Reading.{Reading, left_of};

    ghost Value = { Reading };

    ghost view = { λ s. s.reader };

    ghost invariant = { λ s. s.len ≡ s.reader.at + length (left_of s.reader) };
}

impl<'a> Source<'a> {
    // A reader that stands at the first of these bytes.
    pub(crate) fn new(alloc: Global, bytes: &'a [u8]) -> Source<'a>
        ensures { result ≡ record { bytes = bytes.now; at = 0 } }
    {
        Source {
            reader: Reader::new(bytes),
            len: bytes.len(),
            alloc,
        }
    }

    // How many bytes lie before the place.
    pub(crate) fn place(&self) -> u64
        ensures { result ≡ self.now.at }
    {
        (self.len - self.reader.left()) as u64
    }

    // How many bytes are left.
    pub(crate) fn left(&self) -> usize
        ensures { result ≡ length (left_of self.now) }
    {
        self.reader.left()
    }

    // A byte that tells what stands behind it.
    #[tactic(auto, using(crate::proofs::Places::read_on))]
    pub(crate) fn tag(&mut self) -> Result<u8, RecordFault>
        ensures exact { FindsIfRoom result self.new (integer_at w8 self.old) }
        ensures value { IfOk result (λ tag. TakesPart (ATag tag) self.old self.new) }
    {
        Ok(self.reader.u8()?)
    }

    #[tactic(auto, using(crate::proofs::Places::read_on), unfolding(qs_record::specs::Reading::byte_where, crate::specs::Reading::node_at, crate::specs::Reading::server_at, crate::specs::Reading::outcome_at))]
    pub(crate) fn node(&mut self) -> Result<NodeNo, RecordFault>
        ensures exact { FindsIfRoom result self.new (node_at self.old) }
        ensures value { IfOk result (λ node. TakesPart (ANode node) self.old self.new) }
    {
        let at = self.place();
        let node = self.reader.u8()?;
        if node < 16 {
            Ok(NodeNo(node))
        } else {
            Err(bad_tag(at, node))
        }
    }

    #[tactic(auto, using(crate::proofs::Places::read_on), unfolding(qs_record::specs::Reading::byte_where, crate::specs::Reading::node_at, crate::specs::Reading::server_at, crate::specs::Reading::outcome_at))]
    pub(crate) fn server(&mut self) -> Result<ServerNo, RecordFault>
        ensures exact { FindsIfRoom result self.new (server_at self.old) }
        ensures value { IfOk result (λ server. TakesPart (AServer server) self.old self.new) }
    {
        let at = self.place();
        let server = self.reader.u8()?;
        if server <= 6 || (32..=95).contains(&server) {
            Ok(ServerNo(server))
        } else {
            Err(bad_tag(at, server))
        }
    }

    #[tactic(auto, using(crate::proofs::Places::read_on), unfolding(qs_record::specs::Reading::byte_where, crate::specs::Reading::node_at, crate::specs::Reading::server_at, crate::specs::Reading::outcome_at))]
    pub(crate) fn outcome(&mut self) -> Result<Outcome, RecordFault>
        ensures exact { FindsIfRoom result self.new (outcome_at self.old) }
        ensures value { IfOk result (λ outcome. TakesPart (ATag (outcome_tag outcome)) self.old self.new) }
    {
        let at = self.place();
        match self.reader.u8()? {
            1 => Ok(Outcome::Commit),
            0 => Ok(Outcome::Abort),
            tag => Err(bad_tag(at, tag)),
        }
    }

    // A number of four bytes.
    #[tactic(auto, using(crate::proofs::Places::read_on))]
    pub(crate) fn word(&mut self) -> Result<u32, RecordFault>
        ensures exact { FindsIfRoom result self.new (integer_at w32 self.old) }
        ensures value { IfOk result (λ n. TakesPart (AWord n) self.old self.new) }
    {
        Ok(self.reader.u32()?)
    }

    // A number below 2^62, of eight bytes.
    #[tactic(auto, using(crate::proofs::Places::read_on))]
    pub(crate) fn number(&mut self) -> Result<u64, RecordFault>
        ensures exact { FindsIfRoom result self.new (number_at self.old) }
        ensures value { IfOk result (λ n. TakesPart (ANumber n) self.old self.new) }
    {
        Ok(self.reader.number()?)
    }

    // A text of at most so many bytes.
    #[tactic(auto, using(crate::proofs::Places::read_on))]
    pub(crate) fn text(&mut self, limit: u32) -> Result<Bytes, RecordFault>
        ensures exact { FindsIfRoom result self.new (text_at limit self.old) }
        ensures value { IfOk result (λ text. TakesPart (AText limit text) self.old self.new) }
    {
        let text = self.reader.text(limit)?;
        Ok(Bytes::from_slice(self.alloc, text)?)
    }

    // Texts of at most so many bytes each, behind their count.
    #[tactic(auto, using(crate::proofs::Texts::texts_taken), unfolding(crate::specs::Reading::texts_at))]
    pub(crate) fn texts(&mut self, limit: u32) -> Result<List<Bytes>, RecordFault>
        ensures exact { FindsIfRoom result self.new (texts_at limit self.old) }
        ensures value { IfOk result (λ texts. TakesPart (Texts limit texts) self.old self.new) }
    {
        let at = self.place();
        let count = self.word()?;
        if self.left() < count as usize {
            return Err(short(at, count as u64));
        }
        self.each_text(limit, count)
    }

    // So many texts.
    #[tactic(auto, using(crate::proofs::Texts::texts_begun, crate::proofs::Texts::texts_on, crate::proofs::Texts::texts_ended, crate::proofs::Texts::texts_done, crate::proofs::Texts::texts_read))]
    fn each_text(&mut self, limit: u32, count: u32) -> Result<List<Bytes>, RecordFault>
        ensures exact { FindsIfRoom result self.new (texts_behind limit count self.old) }
        ensures value { IfOk result (TakesTexts limit count self.old self.new) }
    {
        let mut texts = List::new(self.alloc);
        for _turn in 0..count {
            texts.push(self.text(limit)?)?;
        }
        Ok(texts)
    }

    #[tactic(auto, using(crate::proofs::Places::taken_on))]
    pub(crate) fn tid(&mut self) -> Result<Tid, RecordFault>
        ensures exact { FindsIfRoom result self.new (tid_at self.old) }
        ensures value { IfOk result (λ tid. TakesPart (ATid tid) self.old self.new) }
    {
        Ok(read_tid(&mut self.reader)?)
    }

    #[tactic(auto, using(crate::proofs::Places::taken_on))]
    pub(crate) fn member(&mut self) -> Result<Member, RecordFault>
        ensures exact { FindsIfRoom result self.new (member_at self.old) }
        ensures value { IfOk result (λ member. TakesPart (AMember member) self.old self.new) }
    {
        Ok(read_member(&mut self.reader)?)
    }

    #[tactic(auto, using(crate::proofs::Places::taken_on))]
    pub(crate) fn nodes(&mut self) -> Result<List<NodeNo>, RecordFault>
        ensures exact { FindsIfRoom result self.new (nodes_at self.old) }
        ensures value { IfOk result (λ nodes. TakesPart (Nodes nodes) self.old self.new) }
    {
        read_nodes(self.alloc, &mut self.reader)
    }

    #[tactic(auto, using(crate::proofs::Places::taken_on))]
    pub(crate) fn op(&mut self) -> Result<Op, RecordFault>
        ensures exact { FindsIfRoom result self.new (op_at self.old) }
        ensures value { IfOk result (λ op. TakesPart (AnOp op) self.old self.new) }
    {
        decode_op(self.alloc, &mut self.reader)
    }
}

// The tag at that place is no value's.
pub(crate) fn bad_tag(at: u64, tag: u8) -> RecordFault
    ensures { result ≡ Codec (BadTag at tag) }
{
    RecordFault::Codec {
        fault: CodecFault::BadTag { at, tag },
    }
}

// The count at that place tells of more than is left.
pub(crate) fn short(at: u64, need: u64) -> RecordFault
    ensures { result ≡ Codec (Short at need) }
{
    RecordFault::Codec {
        fault: CodecFault::Short { at, need },
    }
}

//! Records written at the end of a list of bytes.
ghost use Rattle.std.specs.Prelude.{◌≡◌, ◌∷◌, [], OnOk, OnErr};
ghost use Rattle.qs_codec.specs.Grammar.{Byte, Word, Spells};
ghost use Rattle.qs_record.specs.Grammar.{IsTid, IsRecord, Joined, SpellsTid, SpellsAll, SpellsRecord, record_length};
ghost use Rattle.qs_record.specs.Writing.{Adds, Grows};

use crate::op_writing::add_changes;
use crate::record::Record;
use crate::writing::{add_nodes, add_tid, settle};
use qs_base::{List, NoMemory, ServerNo, Tid};
use qs_codec::{put_u8, put_u32};
use qs_ops::prepare_length;

/// Adds a record at the end: its tag, the identifier, and what the record says of it. After
/// `NoMemory`, which comes where memory was refused, the list is as it was.
pub fn encode(rec: &Record, out: &mut List<u8>) -> Result<(), NoMemory>
    requires { IsRecord rec.now }
    ensures ok { OnOk result (Adds (SpellsRecord rec.now) out.old out.new) }
    ensures err { OnErr result (out.new ≡ out.old) }
{
    let len = out.len();
    let added = add_record(out, rec);
    settle(out, len, added)
}

/// How many bytes spell the record.
#[tactic(auto, using(crate::proofs::Nodes::rising_few))]
pub fn length(rec: &Record) -> u64
    requires { IsRecord rec.now }
    ensures { result ≡ record_length rec.now }
{
    match rec {
        Record::Prepare { changes, .. } => prepare_length(changes),
        Record::Commit { told, .. } => 15 + told.len() as u64,
        Record::Aborted { .. } | Record::End { .. } => 14,
    }
}

// Adds a record, or a front of it where memory is refused.
fn add_record(out: &mut List<u8>, rec: &Record) -> Result<(), NoMemory>
    requires { IsRecord rec.now }
    ensures ok { OnOk result (Adds (SpellsRecord rec.now) out.old out.new) }
    ensures err { OnErr result (Grows out.old out.new) }
{
    match rec {
        Record::Prepare {
            tid,
            server,
            covers,
            changes,
        } => {
            add_tagged(out, 1, *tid)?;
            add_share(out, *server, *covers)?;
            add_changes(out, changes)
        }
        Record::Commit { tid, told } => {
            add_tagged(out, 2, *tid)?;
            add_nodes(out, told)
        }
        Record::Aborted { tid } => add_tagged(out, 3, *tid),
        Record::End { tid } => add_tagged(out, 4, *tid),
    }
}

// Adds a tag and an identifier, or a front of them where memory is refused.
fn add_tagged(out: &mut List<u8>, tag: u8, tid: Tid) -> Result<(), NoMemory>
    requires { IsTid tid }
    ensures ok { OnOk result (Adds (Joined (Spells (Byte tag)) (SpellsTid tid)) out.old out.new) }
    ensures err { OnErr result (Grows out.old out.new) }
{
    put_u8(out, tag)?;
    add_tid(out, tid)
}

// Adds a server and how many requests are covered, or a front of them where memory is refused.
#[tactic(auto, using(crate::proofs::Writers::two_added))]
fn add_share(out: &mut List<u8>, server: ServerNo, covers: u32) -> Result<(), NoMemory>
    ensures ok { OnOk result (Adds (SpellsAll (Byte server.0 ∷ Word covers ∷ [])) out.old out.new) }
    ensures err { OnErr result (Grows out.old out.new) }
{
    put_u8(out, server.0)?;
    put_u32(out, covers)
}

//! The pieces of journal lines, each added after a blank.
ghost use Rattle.std.specs.Prelude.{◌≡◌, ◌∷◌, [], ◌++◌, IfOk, OnOk, decimal, string_bytes};
ghost use Rattle.qs_text_script.specs.Answers.{list_text, tid_text};
ghost use Rattle.qs_text_script.specs.Journal.{member_text, part_text, pend_text, done_text};

use crate::answers::{put, server_text, tid_text};
use qs_base::{Bytes, Member, NoMemory, ServerNo, Tid};
use qs_book_journal::Found;
use qs_ops::servers::FIRST_CLIENT;
use std::alloc::{AllocError, Global};

/// Adds bytes.
pub fn add_bytes(out: &mut Bytes, bytes: &[u8]) -> Result<(), NoMemory>
    ensures { OnOk result (out.new ≡ out.old ++ list_text (bytes.now ∷ [])) }
{
    out.append(" ".as_bytes())?;
    out.append(bytes)
}

/// Adds a text.
pub fn add_text(out: &mut Bytes, text: &str) -> Result<(), NoMemory>
    ensures { OnOk result (out.new ≡ out.old ++ list_text (text.now ∷ [])) }
{
    add_bytes(out, text.as_bytes())
}

/// Adds a number.
pub fn add_number(alloc: Global, out: &mut Bytes, number: u64) -> Result<(), NoMemory>
    ensures { OnOk result (out.new ≡ out.old ++ list_text (decimal number ∷ [])) }
{
    put(out, format!(in alloc; " {number}")?)
}

/// Adds the identifier of a transaction.
pub fn add_tid(alloc: Global, out: &mut Bytes, tid: Tid) -> Result<(), NoMemory>
    ensures { OnOk result (out.new ≡ out.old ++ list_text (tid_text tid ∷ [])) }
{
    put(out, format!(in alloc; " {}", tid_text(alloc, tid)?)?)
}

/// Adds a word and the identifier of a transaction.
pub fn add_word_and_tid(
    alloc: Global,
    out: &mut Bytes,
    word: &str,
    tid: Tid,
) -> Result<(), NoMemory>
    ensures { OnOk result (out.new ≡ out.old ++ list_text (word.now ∷ tid_text tid ∷ [])) }
{
    add_text(out, word)?;
    add_tid(alloc, out, tid)
}

/// Adds a member: its server and its node.
pub fn add_member(alloc: Global, out: &mut Bytes, member: Member) -> Result<(), NoMemory>
    ensures { OnOk result (out.new ≡ out.old ++ list_text (member_text member ∷ [])) }
{
    let server = part_text(alloc, member.server)?;
    put(out, format!(in alloc; " {}@{}", server, member.node.0)?)
}

/// The name of a server, or of a client as borrower.
fn part_text(alloc: Global, server: ServerNo) -> Result<String, AllocError>
    ensures { IfOk result (λ text. string_bytes text ≡ part_text server.0) }
{
    if server.0 < FIRST_CLIENT.0 {
        server_text(alloc, server)
    } else {
        format!(in alloc; "client{}", server.0 - FIRST_CLIENT.0)
    }
}

/// Adds a Prepare that a restart found.
pub fn add_pend(alloc: Global, out: &mut Bytes, found: Found) -> Result<(), NoMemory>
    ensures { OnOk result (out.new ≡ out.old ++ list_text (pend_text found ∷ [])) }
{
    let tid = tid_text(alloc, found.tid)?;
    put(
        out,
        format!(in alloc; " pend:{}:{}:{}", tid, found.server.0, found.covers)?,
    )
}

/// Adds the transaction of a Commit that a restart found.
pub fn add_done(alloc: Global, out: &mut Bytes, tid: Tid) -> Result<(), NoMemory>
    ensures { OnOk result (out.new ≡ out.old ++ list_text (done_text tid ∷ [])) }
{
    put(out, format!(in alloc; " done:{}", tid_text(alloc, tid)?)?)
}

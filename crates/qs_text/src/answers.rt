//! The texts of answers, causes and identifiers.
ghost use Rattle.std.specs.Prelude.{◌≡◌, ◌++◌, IfOk, OnOk, string_bytes};
ghost use Rattle.std.specs.Option.{option_copied};
ghost use Rattle.qs_text_script.specs.Answers.{tid_text, server_text, reason_text, cause_text, holder_text, list_text, vote_text, answer_text, answer_words};

use qs_base::{Bytes, Member, NoMemory, ServerNo, Tid};
use qs_ops::servers::{AUDIT, EXTRA, FILES, NAMES, SCRATCH, TIMERS, WINDOWS};
use qs_ops::{Answer, Cause, Reason};
use std::alloc::{AllocError, Global};

/// The transaction manager of a node, where it is named like a server.
const MANAGER: ServerNo = ServerNo(7);

/// Adds a text.
pub fn put(out: &mut Bytes, text: String) -> Result<(), NoMemory>
    ensures { OnOk result (out.new ≡ out.old ++ string_bytes text) }
{
    out.append(text.as_bytes())
}

/// Adds an answer. The label is that of the transaction that a busy answer names.
pub fn put_answer(
    alloc: Global,
    out: &mut Bytes,
    answer: &Answer,
    label: Option<&Bytes>,
) -> Result<(), NoMemory>
    ensures { OnOk result (out.new ≡ out.old ++ answer_text (option_copied label.entry) answer.now) }
{
    put(out, answer_words(alloc, answer)?)?;
    match answer {
        Answer::Value { text } => out.append(text.as_slice()),
        Answer::Names { list } | Answer::Notes { list } => put_list(out, list.as_slice()),
        Answer::Busy { holder } => put_holder(alloc, out, *holder, label),
        Answer::Aborted { cause } => put_cause(alloc, out, cause),
        _ => Ok(()),
    }
}

/// The first words of an answer.
fn answer_words(alloc: Global, answer: &Answer) -> Result<String, AllocError>
    ensures { IfOk result (λ words. string_bytes words ≡ answer_words answer.now) }
{
    match answer {
        Answer::Done => format!(in alloc; "ok"),
        Answer::Value { .. } => format!(in alloc; "value "),
        Answer::Left { ticks } => format!(in alloc; "left {}", *ticks),
        Answer::Names { .. } => format!(in alloc; "names"),
        Answer::Notes { .. } => format!(in alloc; "notes"),
        Answer::Busy { .. } => format!(in alloc; "busy "),
        Answer::Absent => format!(in alloc; "absent"),
        Answer::TooMany => format!(in alloc; "too many"),
        Answer::TooLong => format!(in alloc; "too long"),
        Answer::Committed => format!(in alloc; "committed"),
        Answer::Aborted { .. } => format!(in alloc; "aborted "),
        Answer::Ended => format!(in alloc; "ended"),
        Answer::NotYours => format!(in alloc; "not yours"),
        Answer::NotBegun => format!(in alloc; "not begun"),
        Answer::LogFull { need, room } => format!(in alloc; "log full {} {}", *need, *room),
    }
}

/// Adds texts, each after a blank.
fn put_list(out: &mut Bytes, list: &[Bytes]) -> Result<(), NoMemory>
    ensures { OnOk result (out.new ≡ out.old ++ list_text list.now) }
{
    for text in list {
        out.append(" ".as_bytes())?;
        out.append(text.as_slice())?;
    }
    Ok(())
}

/// Adds the label of a transaction, or its identifier where it has none.
fn put_holder(
    alloc: Global,
    out: &mut Bytes,
    tid: Tid,
    label: Option<&Bytes>,
) -> Result<(), NoMemory>
    ensures { OnOk result (out.new ≡ out.old ++ holder_text (option_copied label.entry) tid) }
{
    match label {
        Some(label) => out.append(label.as_slice()),
        None => put_tid(alloc, out, tid),
    }
}

/// Adds the identifier of a transaction.
fn put_tid(alloc: Global, out: &mut Bytes, tid: Tid) -> Result<(), NoMemory>
    ensures { OnOk result (out.new ≡ out.old ++ tid_text tid) }
{
    put(out, tid_text(alloc, tid)?)
}

/// The identifier of a transaction.
pub fn tid_text(alloc: Global, tid: Tid) -> Result<String, AllocError>
    ensures { IfOk result (λ text. string_bytes text ≡ tid_text tid) }
{
    format!(in alloc; "{}.{}.{}", tid.home.0, tid.inc, tid.seq)
}

/// Adds why a transaction was aborted.
pub fn put_cause(alloc: Global, out: &mut Bytes, cause: &Cause) -> Result<(), NoMemory>
    ensures { OnOk result (out.new ≡ out.old ++ cause_text cause.now) }
{
    match cause {
        Cause::Asked => put(out, format!(in alloc; "asked")?),
        Cause::Voted { member, reason } => put_vote(alloc, out, *member, reason),
        Cause::Gone { node, inc } => put(out, format!(in alloc; "gone {} {}", node.0, *inc)?),
        Cause::Home { inc } => put(out, format!(in alloc; "home {}", *inc)?),
        Cause::Room { need, room } => put(out, format!(in alloc; "room {} {}", *need, *room)?),
        Cause::Old { age } => put(out, format!(in alloc; "old {}", *age)?),
    }
}

/// Adds the member that voted abort, and its reason.
fn put_vote(alloc: Global, out: &mut Bytes, member: Member, reason: &Reason) -> Result<(), NoMemory>
    ensures { OnOk result (out.new ≡ out.old ++ vote_text member reason.now) }
{
    put(out, server_text(alloc, member.server)?)?;
    put(out, format!(in alloc; " {} ", member.node.0)?)?;
    put_reason(alloc, out, reason)
}

/// The name of a server.
pub fn server_text(alloc: Global, server: ServerNo) -> Result<String, AllocError>
    ensures { IfOk result (λ name. string_bytes name ≡ server_text server.0) }
{
    match server {
        FILES => format!(in alloc; "files"),
        AUDIT => format!(in alloc; "audit"),
        NAMES => format!(in alloc; "names"),
        TIMERS => format!(in alloc; "timers"),
        WINDOWS => format!(in alloc; "windows"),
        SCRATCH => format!(in alloc; "scratch"),
        EXTRA => format!(in alloc; "extra"),
        MANAGER => format!(in alloc; "manager"),
        ServerNo(number) => format!(in alloc; "server{number}"),
    }
}

/// Adds why a member voted abort.
pub fn put_reason(alloc: Global, out: &mut Bytes, reason: &Reason) -> Result<(), NoMemory>
    ensures { OnOk result (out.new ≡ out.old ++ reason_text reason.now) }
{
    match reason {
        Reason::Quota { bytes, limit } => {
            put(out, format!(in alloc; "quota {} {}", *bytes, *limit)?)
        }
        Reason::LogRoom { need, room } => put(out, format!(in alloc; "log {} {}", *need, *room)?),
        Reason::Taken { name } => {
            put(out, format!(in alloc; "taken ")?)?;
            out.append(name.as_slice())
        }
        Reason::Code { code } => put(out, format!(in alloc; "code {}", *code)?),
    }
}

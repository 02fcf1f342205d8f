//! The history as text, a line for each entry.
ghost use Rattle.std.specs.Prelude.{◌≡◌, ◌++◌, ◌∷◌, [], IfOk, OnOk, codes, decimal, map};
ghost use Rattle.std.specs.Option.{option_copied};
ghost use Rattle.qs_text_script.specs.Answers.{list_text, tid_text};
ghost use Rattle.qs_text_script.specs.Journal.{journal_text, entry_row, entry_line, act_words, begin_words, issue_words, serve_words, vote_words, counted_words, decide_words, learn_words, answer_act_words, restart_words, reply_text, ballot_text, outcome_text, cause_words, crash_words, member_text, pend_text, done_text};
ghost use Rattle.qs_text.specs.Output.{label_of};

use crate::answers::{put, put_answer, put_cause, put_reason};
use crate::labels::put_told;
use crate::operations::add_op;
use crate::pieces::{
    add_bytes, add_done, add_member, add_number, add_pend, add_text, add_word_and_tid,
};
use qs_base::{Bytes, ClientNo, Copied, List, Member, NoMemory, NodeNo, Outcome, Tid};
use qs_book::Book;
use qs_book_journal::{Act, CrashCause, Entry, Found};
use qs_ops::{Answer, Cause, Op, Reply, Vote, answer_of};
use std::alloc::Global;

/// The history, a line for each entry. A busy answer names the holder by the label under which the
/// book has it begun, and by its identifier where it has none.
pub fn journal_text(alloc: Global, history: &List<Entry>, book: &Book) -> Result<Bytes, NoMemory>
    ensures { IfOk result (λ text. text ≡ journal_text (label_of book.now) history.now) }
{
    let mut out = Bytes::new(alloc);
    put_journal(alloc, &mut out, history.as_slice(), book)?;
    Ok(out)
}

/// Adds the lines of a history.
pub fn put_journal(
    alloc: Global,
    out: &mut Bytes,
    history: &[Entry],
    book: &Book,
) -> Result<(), NoMemory>
    ensures { OnOk result (out.new ≡ out.old ++ journal_text (label_of book.now) history.now) }
{
    for entry in history {
        put_row(alloc, out, entry, book)?;
    }
    Ok(())
}

/// Adds the line of an entry, with its line feed.
fn put_row(alloc: Global, out: &mut Bytes, entry: &Entry, book: &Book) -> Result<(), NoMemory>
    ensures { OnOk result (out.new ≡ out.old ++ entry_row (label_of book.now) entry.now) }
{
    put(out, format!(in alloc; "{} {}", entry.stamp, entry.node.0)?)?;
    add_act(alloc, out, &entry.act, book)?;
    out.append("\n".as_bytes())
}

/// Adds what tells an act.
fn add_act(alloc: Global, out: &mut Bytes, act: &Act, book: &Book) -> Result<(), NoMemory>
    ensures { OnOk result (out.new ≡ out.old ++ list_text (act_words (label_of book.now) act.now)) }
{
    match act {
        Act::Begin { tid, label, client } => add_begin(alloc, out, *tid, label, *client),
        Act::Issue {
            tid,
            issuer,
            member,
            number,
            op,
        } => add_issue(alloc, out, *tid, *issuer, *member, *number, op),
        Act::Serve {
            tid,
            member,
            from,
            number,
            reply,
        } => add_serve(alloc, out, *tid, *member, *from, *number, reply),
        Act::Ask { tid } => add_word_and_tid(alloc, out, "ask", *tid),
        Act::Vote {
            tid,
            member,
            vote,
            covers,
        } => add_vote(alloc, out, *tid, *member, vote, *covers),
        Act::Counted { tid, peer, up_to } => add_counted(alloc, out, *tid, *peer, *up_to),
        Act::Decide {
            tid,
            outcome,
            cause,
        } => add_decide(alloc, out, *tid, *outcome, cause.as_ref()),
        Act::Ending { tid, member } => add_of_member(alloc, out, "ending", *tid, *member),
        Act::Learn {
            tid,
            member,
            outcome,
        } => add_learn(alloc, out, *tid, *member, *outcome),
        Act::Answer {
            client,
            line,
            answer,
        } => add_answer(alloc, out, *client, *line, answer, book),
        Act::Loan { tid, client } => add_of_client(alloc, out, "loan", *tid, *client),
        Act::Yield { tid, client } => add_of_client(alloc, out, "yield", *tid, *client),
        Act::Tick => add_text(out, "tick"),
        Act::Crash { cause } => add_crash(alloc, out, *cause),
        Act::Restart { inc, pend, done } => {
            add_restart(alloc, out, *inc, pend.as_slice(), done.as_slice())
        }
    }
}

/// Adds that a client began a transaction under a label.
fn add_begin(
    alloc: Global,
    out: &mut Bytes,
    tid: Tid,
    label: &Bytes,
    client: ClientNo,
) -> Result<(), NoMemory>
    ensures { OnOk result (out.new ≡ out.old ++ list_text (begin_words tid label.now client)) }
{
    add_word_and_tid(alloc, out, "begin", tid)?;
    add_bytes(out, label.as_slice())?;
    add_number(alloc, out, u64::from(client.0))
}

/// Adds that a request went to a member.
fn add_issue(
    alloc: Global,
    out: &mut Bytes,
    tid: Tid,
    issuer: Member,
    member: Member,
    number: u32,
    op: &Op,
) -> Result<(), NoMemory>
    ensures { OnOk result (out.new ≡ out.old ++ list_text (issue_words tid issuer member number op.now)) }
{
    add_of_member(alloc, out, "issue", tid, issuer)?;
    add_member(alloc, out, member)?;
    add_number(alloc, out, u64::from(number))?;
    add_op(alloc, out, op)
}

/// Adds that a member served a request.
fn add_serve(
    alloc: Global,
    out: &mut Bytes,
    tid: Tid,
    member: Member,
    from: NodeNo,
    number: u32,
    reply: &Reply,
) -> Result<(), NoMemory>
    ensures { OnOk result (out.new ≡ out.old ++ list_text (serve_words tid member from number reply.now)) }
{
    add_of_member(alloc, out, "serve", tid, member)?;
    put(out, format!(in alloc; " {} {}", from.0, number)?)?;
    add_reply(alloc, out, reply)
}

/// Adds a reply.
fn add_reply(alloc: Global, out: &mut Bytes, reply: &Reply) -> Result<(), NoMemory>
    ensures { OnOk result (out.new ≡ out.old ++ list_text (reply_text reply.now ∷ [])) }
{
    out.append(" ".as_bytes())?;
    let answer = answer_of(reply.copy()?);
    let added = put_answer(alloc, out, &answer, None);
    drop(answer);
    added
}

/// Adds that a member voted.
fn add_vote(
    alloc: Global,
    out: &mut Bytes,
    tid: Tid,
    member: Member,
    vote: &Vote,
    covers: u32,
) -> Result<(), NoMemory>
    ensures { OnOk result (out.new ≡ out.old ++ list_text (vote_words tid member vote.now covers)) }
{
    add_of_member(alloc, out, "vote", tid, member)?;
    add_ballot(alloc, out, vote)?;
    add_number(alloc, out, u64::from(covers))
}

/// Adds a vote.
fn add_ballot(alloc: Global, out: &mut Bytes, vote: &Vote) -> Result<(), NoMemory>
    ensures { OnOk result (out.new ≡ out.old ++ list_text (ballot_text vote.now ∷ [])) }
{
    match vote {
        Vote::Abort { reason } => {
            out.append(" abort ".as_bytes())?;
            put_reason(alloc, out, reason)
        }
        Vote::ReadOnly => add_text(out, "readonly"),
        Vote::Volatile => add_text(out, "volatile"),
        Vote::Recoverable => add_text(out, "recoverable"),
    }
}

/// Adds that a node counted the answers of a peer.
fn add_counted(
    alloc: Global,
    out: &mut Bytes,
    tid: Tid,
    peer: NodeNo,
    up_to: u32,
) -> Result<(), NoMemory>
    ensures { OnOk result (out.new ≡ out.old ++ list_text (counted_words tid peer up_to)) }
{
    add_word_and_tid(alloc, out, "counted", tid)?;
    add_number(alloc, out, u64::from(peer.0))?;
    add_number(alloc, out, u64::from(up_to))
}

/// Adds that the home decided.
fn add_decide(
    alloc: Global,
    out: &mut Bytes,
    tid: Tid,
    outcome: Outcome,
    cause: Option<&Cause>,
) -> Result<(), NoMemory>
    ensures { OnOk result (out.new ≡ out.old ++ list_text (decide_words tid outcome (option_copied cause.entry))) }
{
    add_word_and_tid(alloc, out, "decide", tid)?;
    add_text(out, outcome_text(outcome))?;
    add_cause(alloc, out, outcome, cause)
}

/// Adds the cause of an abort, where it has one.
fn add_cause(
    alloc: Global,
    out: &mut Bytes,
    outcome: Outcome,
    cause: Option<&Cause>,
) -> Result<(), NoMemory>
    ensures { OnOk result (out.new ≡ out.old ++ list_text (cause_words outcome (option_copied cause.entry))) }
{
    match (outcome, cause) {
        (Outcome::Abort, Some(cause)) => {
            out.append(" ".as_bytes())?;
            put_cause(alloc, out, cause)
        }
        _ => Ok(()),
    }
}

/// The word of an outcome.
fn outcome_text(outcome: Outcome) -> &'static str
    ensures { result.now ≡ outcome_text outcome }
{
    match outcome {
        Outcome::Commit => "commit",
        Outcome::Abort => "abort",
    }
}

/// Adds that a member learnt the outcome.
fn add_learn(
    alloc: Global,
    out: &mut Bytes,
    tid: Tid,
    member: Member,
    outcome: Outcome,
) -> Result<(), NoMemory>
    ensures { OnOk result (out.new ≡ out.old ++ list_text (learn_words tid member outcome)) }
{
    add_of_member(alloc, out, "learn", tid, member)?;
    add_text(out, outcome_text(outcome))
}

/// Adds that a client was answered.
fn add_answer(
    alloc: Global,
    out: &mut Bytes,
    client: ClientNo,
    line: u32,
    answer: &Answer,
    book: &Book,
) -> Result<(), NoMemory>
    ensures { OnOk result (out.new ≡ out.old ++ list_text (answer_act_words (label_of book.now) client line answer.now)) }
{
    put(out, format!(in alloc; " answer {} ", client.0)?)?;
    put_told(alloc, out, line, answer, book)
}

/// Adds a word, a transaction and a member of it.
fn add_of_member(
    alloc: Global,
    out: &mut Bytes,
    word: &str,
    tid: Tid,
    member: Member,
) -> Result<(), NoMemory>
    ensures { OnOk result (out.new ≡ out.old ++ list_text (word.now ∷ tid_text tid ∷ member_text member ∷ [])) }
{
    add_word_and_tid(alloc, out, word, tid)?;
    add_member(alloc, out, member)
}

/// Adds a word, a transaction and a client.
fn add_of_client(
    alloc: Global,
    out: &mut Bytes,
    word: &str,
    tid: Tid,
    client: ClientNo,
) -> Result<(), NoMemory>
    ensures { OnOk result (out.new ≡ out.old ++ list_text (word.now ∷ tid_text tid ∷ decimal client.0 ∷ [])) }
{
    add_word_and_tid(alloc, out, word, tid)?;
    add_number(alloc, out, u64::from(client.0))
}

/// Adds that a node stopped.
fn add_crash(alloc: Global, out: &mut Bytes, cause: CrashCause) -> Result<(), NoMemory>
    ensures { OnOk result (out.new ≡ out.old ++ list_text (codes "crash" ∷ crash_words cause)) }
{
    add_text(out, "crash")?;
    add_crash_cause(alloc, out, cause)
}

/// Adds why a node stopped.
fn add_crash_cause(alloc: Global, out: &mut Bytes, cause: CrashCause) -> Result<(), NoMemory>
    ensures { OnOk result (out.new ≡ out.old ++ list_text (crash_words cause)) }
{
    match cause {
        CrashCause::Plan => add_text(out, "plan"),
        CrashCause::Disk { from, to } => put(out, format!(in alloc; " disk {from} {to}")?),
        CrashCause::Last { value } => put(out, format!(in alloc; " last {value}")?),
        CrashCause::Memory => add_text(out, "memory"),
    }
}

/// Adds that a node started, and what it found in its log.
fn add_restart(
    alloc: Global,
    out: &mut Bytes,
    inc: u64,
    pend: &[Found],
    done: &[Tid],
) -> Result<(), NoMemory>
    ensures { OnOk result (out.new ≡ out.old ++ list_text (restart_words inc pend.now done.now)) }
{
    put(out, format!(in alloc; " restart {inc}")?)?;
    add_pends(alloc, out, pend)?;
    add_dones(alloc, out, done)
}

/// Adds the Prepares that a restart found.
fn add_pends(alloc: Global, out: &mut Bytes, pend: &[Found]) -> Result<(), NoMemory>
    ensures { OnOk result (out.new ≡ out.old ++ list_text (map pend_text pend.now)) }
{
    for found in pend {
        add_pend(alloc, out, *found)?;
    }
    Ok(())
}

/// Adds the transactions of the Commits that a restart found.
fn add_dones(alloc: Global, out: &mut Bytes, done: &[Tid]) -> Result<(), NoMemory>
    ensures { OnOk result (out.new ≡ out.old ++ list_text (map done_text done.now)) }
{
    for tid in done {
        add_done(alloc, out, *tid)?;
    }
    Ok(())
}

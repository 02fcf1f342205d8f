//! The reasons, causes, votes, outcomes and crashes that words spell.
ghost use Rattle.std.specs.Prelude.{◌≡◌, IfOk, map};
ghost use Rattle.qs_text_history.specs.Inner.Answers.{short_reason, long_reason, asked, short_cause, long_cause, voted_cause, reason_behind, voted_of, brief_cause, cause_of, ballot_of, refusal_of, outcome_of, bare_crash, last_crash, disk_crash, crash_of};

use crate::identifiers::{member_with, server_of};
use crate::words::{is, u8_of, u32_of, u64_of};
use qs_base::{Bytes, NoMemory, NodeNo, Outcome};
use qs_book_journal::CrashCause;
use qs_ops::{Cause, Reason, Vote};
use std::alloc::Global;

/// The cause that the words spell.
#[tactic(auto, unfolding(crate::specs::Inner::Answers::cause_of))]
pub fn cause_of(alloc: Global, words: &[&[u8]]) -> Result<Option<Cause>, NoMemory>
    ensures { IfOk result (λ cause. cause ≡ cause_of (map (λ word. word.now) words.now)) }
{
    if 3 < words.len() {
        voted_of(alloc, words)
    } else {
        Ok(brief_cause(words))
    }
}

/// The cause that at most three words spell.
fn brief_cause(words: &[&[u8]]) -> Option<Cause>
    ensures { result ≡ brief_cause (map (λ word. word.now) words.now) }
{
    if let [word] = words {
        return asked(*word);
    }
    if let [word, one] = words {
        return short_cause(*word, *one);
    }
    if let [word, one, two] = words {
        return long_cause(*word, *one, *two);
    }
    None
}

/// The vote of a member that the words spell as a cause.
fn voted_of(alloc: Global, words: &[&[u8]]) -> Result<Option<Cause>, NoMemory>
    ensures { IfOk result (λ cause. cause ≡ voted_of (map (λ word. word.now) words.now)) }
{
    let [server, node, word, rest @ ..] = words else {
        return Ok(None);
    };
    let reason = reason_behind(alloc, *word, rest)?;
    Ok(voted_cause(*server, *node, reason))
}

/// The reason of this word and those behind it.
fn reason_behind(alloc: Global, word: &[u8], rest: &[&[u8]]) -> Result<Option<Reason>, NoMemory>
    ensures { IfOk result (λ reason. reason ≡ reason_behind word.now (map (λ word. word.now) rest.now)) }
{
    if let [one] = rest {
        return short_reason(alloc, word, *one);
    }
    if let [one, two] = rest {
        return Ok(long_reason(word, *one, *two));
    }
    Ok(None)
}

/// The cause of one word.
fn asked(word: &[u8]) -> Option<Cause>
    ensures { result ≡ asked word.now }
{
    if is(word, "asked") {
        Some(Cause::Asked)
    } else {
        None
    }
}

/// The cause of two words.
fn short_cause(word: &[u8], one: &[u8]) -> Option<Cause>
    ensures { result ≡ short_cause word.now one.now }
{
    if is(word, "home") {
        let inc = u64_of(one)?;
        Some(Cause::Home { inc })
    } else if is(word, "old") {
        let age = u64_of(one)?;
        Some(Cause::Old { age })
    } else {
        None
    }
}

/// The cause of three words.
fn long_cause(word: &[u8], one: &[u8], two: &[u8]) -> Option<Cause>
    ensures { result ≡ long_cause word.now one.now two.now }
{
    if is(word, "gone") {
        let node = u8_of(one)?;
        let inc = u64_of(two)?;
        Some(Cause::Gone {
            node: NodeNo(node),
            inc,
        })
    } else if is(word, "room") {
        let need = u64_of(one)?;
        let room = u64_of(two)?;
        Some(Cause::Room { need, room })
    } else {
        None
    }
}

/// The cause that a member voted abort for this reason.
fn voted_cause(server: &[u8], node: &[u8], reason: Option<Reason>) -> Option<Cause>
    ensures { result ≡ voted_cause server.now node.now reason }
{
    let member = member_with(server_of(server), u8_of(node))?;
    let reason = reason?;
    Some(Cause::Voted { member, reason })
}

/// The reason of two words.
#[tactic(auto, unfolding(crate::specs::Inner::Answers::short_reason))]
pub fn short_reason(alloc: Global, word: &[u8], one: &[u8]) -> Result<Option<Reason>, NoMemory>
    ensures { IfOk result (λ reason. reason ≡ short_reason word.now one.now) }
{
    if is(word, "taken") {
        let name = Bytes::from_slice(alloc, one)?;
        return Ok(Some(Reason::Taken { name }));
    }
    if is(word, "code") {
        return Ok(u32_of(one).map(|code| Reason::Code { code }));
    }
    Ok(None)
}

/// The reason of three words.
#[tactic(auto, unfolding(crate::specs::Inner::Answers::long_reason))]
pub fn long_reason(word: &[u8], one: &[u8], two: &[u8]) -> Option<Reason>
    ensures { result ≡ long_reason word.now one.now two.now }
{
    if is(word, "quota") {
        let bytes = u64_of(one)?;
        let limit = u64_of(two)?;
        Some(Reason::Quota { bytes, limit })
    } else if is(word, "log") {
        let need = u64_of(one)?;
        let room = u64_of(two)?;
        Some(Reason::LogRoom { need, room })
    } else {
        None
    }
}

/// The vote of one word.
#[tactic(auto, unfolding(crate::specs::Inner::Answers::ballot_of))]
pub fn ballot_of(word: &[u8]) -> Option<Vote>
    ensures { result ≡ ballot_of word.now }
{
    if is(word, "readonly") {
        Some(Vote::ReadOnly)
    } else if is(word, "volatile") {
        Some(Vote::Volatile)
    } else if is(word, "recoverable") {
        Some(Vote::Recoverable)
    } else {
        None
    }
}

/// The vote for abort of this reason.
#[tactic(auto, unfolding(crate::specs::Inner::Answers::refusal_of))]
pub fn refusal_of(reason: Option<Reason>) -> Option<Vote>
    ensures { result ≡ refusal_of reason }
{
    let reason = reason?;
    Some(Vote::Abort { reason })
}

/// The outcome of this word.
#[tactic(auto, unfolding(crate::specs::Inner::Answers::outcome_of))]
pub fn outcome_of(word: &[u8]) -> Option<Outcome>
    ensures { result ≡ outcome_of word.now }
{
    if is(word, "commit") {
        Some(Outcome::Commit)
    } else if is(word, "abort") {
        Some(Outcome::Abort)
    } else {
        None
    }
}

/// Why a node stopped, as the words spell it.
#[tactic(auto, unfolding(crate::specs::Inner::Answers::crash_of))]
pub fn crash_of(words: &[&[u8]]) -> Option<CrashCause>
    ensures { result ≡ crash_of (map (λ word. word.now) words.now) }
{
    if let [word] = words {
        return bare_crash(*word);
    }
    if let [word, value] = words {
        return last_crash(*word, *value);
    }
    if let [word, from, to] = words {
        return disk_crash(*word, *from, *to);
    }
    None
}

/// Why a node stopped, as one word spells it.
fn bare_crash(word: &[u8]) -> Option<CrashCause>
    ensures { result ≡ bare_crash word.now }
{
    if is(word, "plan") {
        Some(CrashCause::Plan)
    } else if is(word, "memory") {
        Some(CrashCause::Memory)
    } else {
        None
    }
}

/// That a counter stood at its last value.
fn last_crash(word: &[u8], value: &[u8]) -> Option<CrashCause>
    ensures { result ≡ last_crash word.now value.now }
{
    if is(word, "last") {
        let value = u64_of(value)?;
        Some(CrashCause::Last { value })
    } else {
        None
    }
}

/// That the disk's count of faults rose.
fn disk_crash(word: &[u8], from: &[u8], to: &[u8]) -> Option<CrashCause>
    ensures { result ≡ disk_crash word.now from.now to.now }
{
    if is(word, "disk") {
        let from = u64_of(from)?;
        let to = u64_of(to)?;
        Some(CrashCause::Disk { from, to })
    } else {
        None
    }
}

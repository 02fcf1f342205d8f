//! The answers and replies that words spell.
ghost use Rattle.std.specs.Prelude.{◌≡◌, IfOk, map};
ghost use Rattle.qs_text_history.specs.Inner.Answers.{bare_answer, too, refused, answer_on, log_full, short_answer, plain_answer, answer_of, reply_from, reply_of, busy_of};
ghost use Rattle.qs_text_history.specs.Inner.Begun.{holder_by};
ghost use Rattle.qs_text_history.specs.Inner.Lifts.{lift1};
ghost use Rattle.qs_text_history.specs.Inner.Words.{tid_of};

use crate::begun::BegunLabels;
use crate::causes::cause_of;
use crate::identifiers::tid_of;
use crate::words::{is, u32_of, u64_of};
use qs_base::{Bytes, List, NoMemory, Tid};
use qs_ops::{Answer, Reply};
use std::alloc::Global;

/// The answer that the words spell, behind these begins.
#[tactic(auto, unfolding(crate::specs::Inner::Answers::answer_of))]
pub fn answer_of(
    alloc: Global,
    begun: &BegunLabels,
    words: &[&[u8]],
) -> Result<Option<Answer>, NoMemory>
    ensures { IfOk result (λ answer. answer ≡ answer_of (holder_by begun.now) (map (λ word. word.now) words.now)) }
{
    let [word, rest @ ..] = words else {
        return Ok(None);
    };
    if is(*word, "busy") {
        return busy_of(alloc, begun, rest);
    }
    plain_answer(alloc, *word, rest)
}

/// The busy answer whose holder the one word names.
fn busy_of(alloc: Global, begun: &BegunLabels, words: &[&[u8]]) -> Result<Option<Answer>, NoMemory>
    ensures { IfOk result (λ answer. answer ≡ busy_of (holder_by begun.now) (map (λ word. word.now) words.now)) }
{
    let [name] = words else {
        return Ok(None);
    };
    Ok(busy_with(begun.holder(alloc, *name)?))
}

/// The busy answer of this holder.
fn busy_with(holder: Option<Tid>) -> Option<Answer>
    ensures { result ≡ lift1 Answer.Busy holder }
{
    let holder = holder?;
    Some(Answer::Busy { holder })
}

/// The reply that the words spell.
#[tactic(auto, unfolding(crate::specs::Inner::Answers::reply_of, crate::specs::Inner::Answers::answer_of))]
pub fn reply_of(alloc: Global, words: &[&[u8]]) -> Result<Option<Reply>, NoMemory>
    ensures { IfOk result (λ reply. reply ≡ reply_of (map (λ word. word.now) words.now)) }
{
    let [word, rest @ ..] = words else {
        return Ok(None);
    };
    if is(*word, "busy") {
        return Ok(reply_from(busy_by_tid(rest)));
    }
    Ok(reply_from(plain_answer(alloc, *word, rest)?))
}

/// The busy answer whose holder the one word identifies.
fn busy_by_tid(words: &[&[u8]]) -> Option<Answer>
    ensures { result ≡ busy_of tid_of (map (λ word. word.now) words.now) }
{
    let [name] = words else {
        return None;
    };
    busy_with(tid_of(*name))
}

/// The reply that makes this answer.
fn reply_from(answer: Option<Answer>) -> Option<Reply>
    ensures { result ≡ reply_from answer }
{
    match answer? {
        Answer::Done => Some(Reply::Done),
        Answer::Value { text } => Some(Reply::Value { text }),
        Answer::Left { ticks } => Some(Reply::Left { ticks }),
        Answer::Names { list } => Some(Reply::Names { list }),
        Answer::Notes { list } => Some(Reply::Notes { list }),
        Answer::Busy { holder } => Some(Reply::Busy { holder }),
        Answer::Absent => Some(Reply::Absent),
        Answer::TooMany => Some(Reply::TooMany),
        Answer::TooLong => Some(Reply::TooLong),
        _ => None,
    }
}

/// The answer that these words spell, unless it is busy.
fn plain_answer(alloc: Global, word: &[u8], rest: &[&[u8]]) -> Result<Option<Answer>, NoMemory>
    ensures { IfOk result (λ answer. answer ≡ plain_answer word.now (map (λ word. word.now) rest.now)) }
{
    if is(word, "names") {
        let list = copies(alloc, rest)?;
        return Ok(Some(Answer::Names { list }));
    }
    if is(word, "notes") {
        let list = copies(alloc, rest)?;
        return Ok(Some(Answer::Notes { list }));
    }
    if is(word, "log") {
        return Ok(log_full(rest));
    }
    if is(word, "aborted") {
        return Ok(cause_of(alloc, rest)?.map(|cause| Answer::Aborted { cause }));
    }
    short_answer(alloc, word, rest)
}

/// The words as byte strings.
fn copies(alloc: Global, words: &[&[u8]]) -> Result<List<Bytes>, NoMemory>
    ensures { IfOk result (λ list. list ≡ map (λ word. word.now) words.now) }
{
    let mut list = List::new(alloc);
    for word in words {
        list.push(Bytes::from_slice(alloc, *word)?)?;
    }
    Ok(list)
}

/// The answer of one or two words.
fn short_answer(alloc: Global, word: &[u8], rest: &[&[u8]]) -> Result<Option<Answer>, NoMemory>
    ensures { IfOk result (λ answer. answer ≡ short_answer word.now (map (λ word. word.now) rest.now)) }
{
    if let [] = rest {
        return Ok(bare_answer(word));
    }
    if let [one] = rest {
        return answer_on(alloc, word, *one);
    }
    Ok(None)
}

/// The answer of one word.
fn bare_answer(word: &[u8]) -> Option<Answer>
    ensures { result ≡ bare_answer word.now }
{
    if is(word, "ok") {
        Some(Answer::Done)
    } else if is(word, "absent") {
        Some(Answer::Absent)
    } else if is(word, "committed") {
        Some(Answer::Committed)
    } else if is(word, "ended") {
        Some(Answer::Ended)
    } else {
        None
    }
}

/// The answer of two words.
fn answer_on(alloc: Global, word: &[u8], one: &[u8]) -> Result<Option<Answer>, NoMemory>
    ensures { IfOk result (λ answer. answer ≡ answer_on word.now one.now) }
{
    if is(word, "value") {
        let text = Bytes::from_slice(alloc, one)?;
        return Ok(Some(Answer::Value { text }));
    }
    if is(word, "left") {
        return Ok(u32_of(one).map(|ticks| Answer::Left { ticks }));
    }
    if is(word, "too") {
        return Ok(too(one));
    }
    if is(word, "not") {
        return Ok(refused(one));
    }
    Ok(None)
}

/// The answer `too` and this word.
fn too(word: &[u8]) -> Option<Answer>
    ensures { result ≡ too word.now }
{
    if is(word, "many") {
        Some(Answer::TooMany)
    } else if is(word, "long") {
        Some(Answer::TooLong)
    } else {
        None
    }
}

/// The answer `not` and this word.
fn refused(word: &[u8]) -> Option<Answer>
    ensures { result ≡ refused word.now }
{
    if is(word, "yours") {
        Some(Answer::NotYours)
    } else if is(word, "begun") {
        Some(Answer::NotBegun)
    } else {
        None
    }
}

/// The answer of the words `full NEED ROOM` behind `log`.
fn log_full(words: &[&[u8]]) -> Option<Answer>
    ensures { result ≡ log_full (map (λ word. word.now) words.now) }
{
    let [full, need, room] = words else {
        return None;
    };
    if is(*full, "full") {
        let need = u64_of(*need)?;
        let room = u64_of(*room)?;
        Some(Answer::LogFull { need, room })
    } else {
        None
    }
}

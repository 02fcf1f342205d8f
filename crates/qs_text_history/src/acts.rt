//! The acts that words spell.
ghost use Rattle.std.specs.Prelude.{◌≡◌, Some, IfOk, map};
ghost use Rattle.qs_text_history.specs.Inner.Acts.{begin_of, counted_of, ending_of, learn_of, ask_of, loan_of, yield_of, tick_of, crash_act, issue_of, serve_of, serve_with, answer_with, voted, refusal_act, ballot_act, vote_of, committed, aborted, decide_of, answer_act, member_act, short_act, act_of, entry_of, entry_with};
ghost use Rattle.qs_text_history.specs.Inner.Begun.{holder_by};
ghost use Rattle.qs_text_history.specs.Inner.Lifts.{lift5};

use crate::answers::{answer_of, reply_of};
use crate::begun::BegunLabels;
use crate::causes::{
    ballot_of, cause_of, crash_of, long_reason, outcome_of, refusal_of, short_reason,
};
use crate::identifiers::{member_of, tid_of};
use crate::operations::op_of;
use crate::restarts::restart_of;
use crate::words::{is, u8_of, u32_of, u64_of};
use qs_base::{Bytes, ClientNo, Member, NoMemory, NodeNo, Outcome, Tid};
use qs_book_journal::{Act, Entry};
use qs_ops::{Answer, Cause, Op, Reply, Vote};
use std::alloc::Global;

/// The entry that the words spell, behind these begins.
#[tactic(auto, unfolding(crate::specs::Inner::Acts::entry_of))]
pub fn entry_of(
    alloc: Global,
    begun: &BegunLabels,
    words: &[&[u8]],
) -> Result<Option<Entry>, NoMemory>
    ensures { IfOk result (λ entry. entry ≡ entry_of (holder_by begun.now) (map (λ word. word.now) words.now)) }
{
    let [stamp, node, act @ ..] = words else {
        return Ok(None);
    };
    let (Some(stamp), Some(node)) = (u64_of(*stamp), u8_of(*node)) else {
        return Ok(None);
    };
    let act = act_of(alloc, begun, act)?;
    Ok(entry_with(stamp, node, act))
}

/// The entry of these.
fn entry_with(stamp: u64, node: u8, act: Option<Act>) -> Option<Entry>
    ensures { result ≡ entry_with (Some stamp) (Some node) act }
{
    let act = act?;
    Some(Entry {
        stamp,
        node: NodeNo(node),
        act,
    })
}

/// The act that the words spell, behind these begins.
#[tactic(auto, unfolding(crate::specs::Inner::Acts::act_of))]
fn act_of(alloc: Global, begun: &BegunLabels, words: &[&[u8]]) -> Result<Option<Act>, NoMemory>
    ensures { IfOk result (λ act. act ≡ act_of (holder_by begun.now) (map (λ word. word.now) words.now)) }
{
    let [word, rest @ ..] = words else {
        return Ok(None);
    };
    if is(*word, "answer") {
        return answer_act(alloc, begun, rest);
    }
    match short_act(alloc, *word, rest)? {
        Some(act) => Ok(Some(act)),
        None => member_act(alloc, *word, rest),
    }
}

/// The act of this word and those behind it, where it is one of few words.
#[tactic(auto, unfolding(crate::specs::Inner::Acts::short_act))]
fn short_act(alloc: Global, word: &[u8], rest: &[&[u8]]) -> Result<Option<Act>, NoMemory>
    ensures { IfOk result (λ act. act ≡ short_act word.now (map (λ word. word.now) rest.now)) }
{
    if is(word, "begin") {
        return begin_of(alloc, rest);
    }
    Ok(if is(word, "ask") {
        ask_of(rest)
    } else if is(word, "counted") {
        counted_of(rest)
    } else if is(word, "ending") {
        ending_of(rest)
    } else if is(word, "learn") {
        learn_of(rest)
    } else if is(word, "loan") {
        loan_of(rest)
    } else if is(word, "yield") {
        yield_of(rest)
    } else if is(word, "tick") {
        tick_of(rest)
    } else if is(word, "crash") {
        crash_act(rest)
    } else {
        None
    })
}

/// The act of this word and those behind it, where these hold further lists of words.
#[tactic(auto, unfolding(crate::specs::Inner::Acts::member_act))]
fn member_act(alloc: Global, word: &[u8], rest: &[&[u8]]) -> Result<Option<Act>, NoMemory>
    ensures { IfOk result (λ act. act ≡ member_act word.now (map (λ word. word.now) rest.now)) }
{
    if is(word, "issue") {
        issue_of(alloc, rest)
    } else if is(word, "serve") {
        serve_of(alloc, rest)
    } else if is(word, "vote") {
        vote_of(alloc, rest)
    } else if is(word, "decide") {
        decide_of(alloc, rest)
    } else if is(word, "restart") {
        restart_of(alloc, rest)
    } else {
        Ok(None)
    }
}

/// That a client began a transaction.
#[tactic(auto, unfolding(crate::specs::Inner::Acts::begin_of))]
fn begin_of(alloc: Global, words: &[&[u8]]) -> Result<Option<Act>, NoMemory>
    ensures { IfOk result (λ act. act ≡ begin_of (map (λ word. word.now) words.now)) }
{
    let [tid, label, client] = words else {
        return Ok(None);
    };
    let label = Bytes::from_slice(alloc, *label)?;
    let (Some(tid), Some(client)) = (tid_of(*tid), u8_of(*client)) else {
        return Ok(None);
    };
    Ok(Some(Act::Begin {
        tid,
        label,
        client: ClientNo(client),
    }))
}

/// That an owner asked for commit.
#[tactic(auto, unfolding(crate::specs::Inner::Acts::ask_of))]
fn ask_of(words: &[&[u8]]) -> Option<Act>
    ensures { result ≡ ask_of (map (λ word. word.now) words.now) }
{
    let [tid] = words else {
        return None;
    };
    let tid = tid_of(*tid)?;
    Some(Act::Ask { tid })
}

/// That a node counted the answers of a peer.
#[tactic(auto, unfolding(crate::specs::Inner::Acts::counted_of))]
fn counted_of(words: &[&[u8]]) -> Option<Act>
    ensures { result ≡ counted_of (map (λ word. word.now) words.now) }
{
    let [tid, peer, up_to] = words else {
        return None;
    };
    let tid = tid_of(*tid)?;
    let peer = u8_of(*peer)?;
    let up_to = u32_of(*up_to)?;
    Some(Act::Counted {
        tid,
        peer: NodeNo(peer),
        up_to,
    })
}

/// That a member was told that the transaction ends.
#[tactic(auto, unfolding(crate::specs::Inner::Acts::ending_of))]
fn ending_of(words: &[&[u8]]) -> Option<Act>
    ensures { result ≡ ending_of (map (λ word. word.now) words.now) }
{
    let [tid, member] = words else {
        return None;
    };
    let tid = tid_of(*tid)?;
    let member = member_of(*member)?;
    Some(Act::Ending { tid, member })
}

/// That a member learnt the outcome.
#[tactic(auto, unfolding(crate::specs::Inner::Acts::learn_of))]
fn learn_of(words: &[&[u8]]) -> Option<Act>
    ensures { result ≡ learn_of (map (λ word. word.now) words.now) }
{
    let [tid, member, outcome] = words else {
        return None;
    };
    let tid = tid_of(*tid)?;
    let member = member_of(*member)?;
    let outcome = outcome_of(*outcome)?;
    Some(Act::Learn {
        tid,
        member,
        outcome,
    })
}

/// That a transaction was lent to a client.
#[tactic(auto, unfolding(crate::specs::Inner::Acts::loan_of))]
fn loan_of(words: &[&[u8]]) -> Option<Act>
    ensures { result ≡ loan_of (map (λ word. word.now) words.now) }
{
    let [tid, client] = words else {
        return None;
    };
    let tid = tid_of(*tid)?;
    let client = u8_of(*client)?;
    Some(Act::Loan {
        tid,
        client: ClientNo(client),
    })
}

/// That a client gave a loan back.
#[tactic(auto, unfolding(crate::specs::Inner::Acts::yield_of))]
fn yield_of(words: &[&[u8]]) -> Option<Act>
    ensures { result ≡ yield_of (map (λ word. word.now) words.now) }
{
    let [tid, client] = words else {
        return None;
    };
    let tid = tid_of(*tid)?;
    let client = u8_of(*client)?;
    Some(Act::Yield {
        tid,
        client: ClientNo(client),
    })
}

/// One tick.
#[tactic(auto, unfolding(crate::specs::Inner::Acts::tick_of))]
fn tick_of(words: &[&[u8]]) -> Option<Act>
    ensures { result ≡ tick_of (map (λ word. word.now) words.now) }
{
    if words.is_empty() {
        Some(Act::Tick)
    } else {
        None
    }
}

/// That a node stopped.
#[tactic(auto, unfolding(crate::specs::Inner::Acts::crash_act))]
fn crash_act(words: &[&[u8]]) -> Option<Act>
    ensures { result ≡ crash_act (map (λ word. word.now) words.now) }
{
    let cause = crash_of(words)?;
    Some(Act::Crash { cause })
}

/// That a request went to a member.
#[tactic(auto, unfolding(crate::specs::Inner::Acts::issue_of))]
fn issue_of(alloc: Global, words: &[&[u8]]) -> Result<Option<Act>, NoMemory>
    ensures { IfOk result (λ act. act ≡ issue_of (map (λ word. word.now) words.now)) }
{
    let [tid, issuer, member, number, op @ ..] = words else {
        return Ok(None);
    };
    let (Some(tid), Some(issuer), Some(member), Some(number)) = (
        tid_of(*tid),
        member_of(*issuer),
        member_of(*member),
        u32_of(*number),
    ) else {
        return Ok(None);
    };
    let op = op_of(alloc, op)?;
    Ok(issue_with(tid, issuer, member, number, op))
}

/// The issue of these.
fn issue_with(tid: Tid, issuer: Member, member: Member, number: u32, op: Option<Op>) -> Option<Act>
    ensures { result ≡ lift5 Act.Issue (Some tid) (Some issuer) (Some member) (Some number) op }
{
    let op = op?;
    Some(Act::Issue {
        tid,
        issuer,
        member,
        number,
        op,
    })
}

/// That a member served a request.
#[tactic(auto, unfolding(crate::specs::Inner::Acts::serve_of))]
fn serve_of(alloc: Global, words: &[&[u8]]) -> Result<Option<Act>, NoMemory>
    ensures { IfOk result (λ act. act ≡ serve_of (map (λ word. word.now) words.now)) }
{
    let [tid, member, from, number, reply @ ..] = words else {
        return Ok(None);
    };
    let (Some(tid), Some(member), Some(from), Some(number)) = (
        tid_of(*tid),
        member_of(*member),
        u8_of(*from),
        u32_of(*number),
    ) else {
        return Ok(None);
    };
    let reply = reply_of(alloc, reply)?;
    Ok(serve_with(tid, member, from, number, reply))
}

/// The serve of these.
fn serve_with(tid: Tid, member: Member, from: u8, number: u32, reply: Option<Reply>) -> Option<Act>
    ensures { result ≡ serve_with (Some tid) (Some member) (Some from) (Some number) reply }
{
    let reply = reply?;
    Some(Act::Serve {
        tid,
        member,
        from: NodeNo(from),
        number,
        reply,
    })
}

/// That a member voted.
#[tactic(auto, unfolding(crate::specs::Inner::Acts::vote_of))]
fn vote_of(alloc: Global, words: &[&[u8]]) -> Result<Option<Act>, NoMemory>
    ensures { IfOk result (λ act. act ≡ vote_of (map (λ word. word.now) words.now)) }
{
    let [tid, member, word, rest @ ..] = words else {
        return Ok(None);
    };
    if is(*word, "abort") {
        return refusal_act(alloc, *tid, *member, rest);
    }
    Ok(ballot_act(*tid, *member, *word, rest))
}

/// That a member voted this word, for as many requests as the one word behind it says.
fn ballot_act(tid: &[u8], member: &[u8], word: &[u8], rest: &[&[u8]]) -> Option<Act>
    ensures { result ≡ ballot_act tid.now member.now word.now (map (λ word. word.now) rest.now) }
{
    let [covers] = rest else {
        return None;
    };
    voted(tid, member, ballot_of(word), *covers)
}

/// That a member voted abort, for a reason and as many requests as these words say.
fn refusal_act(
    alloc: Global,
    tid: &[u8],
    member: &[u8],
    rest: &[&[u8]],
) -> Result<Option<Act>, NoMemory>
    ensures { IfOk result (λ act. act ≡ refusal_act tid.now member.now (map (λ word. word.now) rest.now)) }
{
    let [word, one, rest @ ..] = rest else {
        return Ok(None);
    };
    if let [covers] = rest {
        let reason = short_reason(alloc, *word, *one)?;
        return Ok(voted(tid, member, refusal_of(reason), *covers));
    }
    if let [two, covers] = rest {
        let reason = long_reason(*word, *one, *two);
        return Ok(voted(tid, member, refusal_of(reason), *covers));
    }
    Ok(None)
}

/// That this member voted so.
#[tactic(auto, unfolding(crate::specs::Inner::Acts::voted))]
fn voted(tid: &[u8], member: &[u8], vote: Option<Vote>, covers: &[u8]) -> Option<Act>
    ensures { result ≡ voted tid.now member.now vote covers.now }
{
    let (Some(tid), Some(member), Some(covers)) = (tid_of(tid), member_of(member), u32_of(covers))
    else {
        return None;
    };
    let vote = vote?;
    Some(Act::Vote {
        tid,
        member,
        vote,
        covers,
    })
}

/// That the home decided.
#[tactic(auto, unfolding(crate::specs::Inner::Acts::decide_of))]
fn decide_of(alloc: Global, words: &[&[u8]]) -> Result<Option<Act>, NoMemory>
    ensures { IfOk result (λ act. act ≡ decide_of (map (λ word. word.now) words.now)) }
{
    let [tid, outcome, cause @ ..] = words else {
        return Ok(None);
    };
    if is(*outcome, "commit") {
        return Ok(committed(*tid, cause));
    }
    if is(*outcome, "abort") {
        let cause = cause_of(alloc, cause)?;
        return Ok(aborted(*tid, cause));
    }
    Ok(None)
}

/// That the home decided commit, with no further words.
fn committed(tid: &[u8], cause: &[&[u8]]) -> Option<Act>
    ensures { result ≡ committed tid.now (map (λ word. word.now) cause.now) }
{
    let [] = cause else {
        return None;
    };
    let tid = tid_of(tid)?;
    Some(Act::Decide {
        tid,
        outcome: Outcome::Commit,
        cause: None,
    })
}

/// That the home decided abort for this cause.
fn aborted(tid: &[u8], cause: Option<Cause>) -> Option<Act>
    ensures { result ≡ aborted tid.now cause }
{
    let tid = tid_of(tid)?;
    let cause = cause?;
    Some(Act::Decide {
        tid,
        outcome: Outcome::Abort,
        cause: Some(cause),
    })
}

/// That a client was answered.
#[tactic(auto, unfolding(crate::specs::Inner::Acts::answer_act))]
fn answer_act(alloc: Global, begun: &BegunLabels, words: &[&[u8]]) -> Result<Option<Act>, NoMemory>
    ensures { IfOk result (λ act. act ≡ answer_act (holder_by begun.now) (map (λ word. word.now) words.now)) }
{
    let [client, line, answer @ ..] = words else {
        return Ok(None);
    };
    let (Some(client), Some(line)) = (u8_of(*client), u32_of(*line)) else {
        return Ok(None);
    };
    let answer = answer_of(alloc, begun, answer)?;
    Ok(answer_with(client, line, answer))
}

/// The answer of these.
fn answer_with(client: u8, line: u32, answer: Option<Answer>) -> Option<Act>
    ensures { result ≡ answer_with (Some client) (Some line) answer }
{
    let answer = answer?;
    Some(Act::Answer {
        client: ClientNo(client),
        line,
        answer,
    })
}

//! The rules of each kind of entry.
ghost use Rattle.std.specs.Prelude.{◌≡◌, IfOk};
ghost use Rattle.std.specs.Option.{option_copied};
ghost use Rattle.qs_book_conformance.specs.Rules.{broken_issue, broken_cause, broken_decision, is_seated, broken_loan, broken_rest, broken_act, broken_rule};

use crate::answering::broken_answer;
use crate::commands::{broken_ask, broken_asked, broken_begin};
use crate::crashing::broken_crash;
use crate::lending::{broken_request, broken_yield};
use crate::stakes::{broken_note, broken_restart, broken_vote};
use qs_base::{ClientNo, Member, NoMemory, NodeNo, Outcome, Stamp, Tid};
use qs_book_conformance::Rule;
use qs_book_course::{Course, client_of};
use qs_book_journal::{Act, Entry};
use qs_ops::servers::{FILES, FIRST_CLIENT};
use qs_ops::{Cause, Op};

fn broken_issue(
    course: &Course,
    here: NodeNo,
    tid: Tid,
    issuer: Member,
    member: Member,
    op: &Op,
) -> Option<Rule>
    ensures { result ≡ broken_issue course.now here.0 tid issuer member op.now }
{
    if issuer.server.0 >= FIRST_CLIENT.0 {
        return broken_request(course, here, tid, client_of(issuer.server), member, op);
    }
    if issuer.server == FILES {
        return broken_note(course, member);
    }
    Some(Rule::IssuerIsKnown)
}

fn broken_cause(course: &Course, here: NodeNo, tid: Tid, cause: &Cause) -> Option<Rule>
    ensures { result ≡ broken_cause course.now here.0 tid cause.now }
{
    match cause {
        Cause::Asked => broken_asked(course, here, tid),
        Cause::Voted { .. } | Cause::Gone { .. } | Cause::Room { .. } => None,
        Cause::Home { .. } | Cause::Old { .. } => Some(Rule::CauseIsAllowed),
    }
}

fn broken_decision(
    course: &Course,
    here: NodeNo,
    tid: Tid,
    outcome: Outcome,
    cause: Option<&Cause>,
) -> Option<Rule>
    ensures { result ≡ broken_decision course.now here.0 tid outcome (option_copied cause.entry) }
{
    match (outcome, cause) {
        (Outcome::Commit, None) => None,
        (Outcome::Abort, Some(cause)) => broken_cause(course, here, tid, cause),
        _ => Some(Rule::CauseIsAllowed),
    }
}

fn is_seated(course: &Course, here: NodeNo, client: ClientNo) -> bool
    ensures { result ≡ is_seated course.now here.0 client }
{
    match course.client(client) {
        Some(state) => state.sits_at(here),
        None => false,
    }
}

fn broken_loan(course: &Course, here: NodeNo, client: ClientNo) -> Option<Rule>
    ensures { result ≡ broken_loan course.now here.0 client }
{
    if is_seated(course, here, client) {
        return None;
    }
    Some(Rule::LoanAtItsNode)
}

fn broken_rest(
    course: &Course,
    stamp: Stamp,
    here: NodeNo,
    act: &Act,
) -> Result<Option<Rule>, NoMemory>
    ensures { IfOk result (λ rule. rule ≡ broken_rest course.now stamp here.0 act.now) }
{
    match act {
        Act::Serve { .. }
        | Act::Counted { .. }
        | Act::Ending { .. }
        | Act::Learn { .. }
        | Act::Tick => Ok(None),
        Act::Crash { cause } => Ok(broken_crash(course, here, stamp, *cause)),
        Act::Restart { pend, .. } => broken_restart(course, here, pend.as_slice()),
        _ => Ok(Some(Rule::CarriesOutItsCommand)),
    }
}

fn broken_act(
    course: &Course,
    stamp: Stamp,
    here: NodeNo,
    act: &Act,
) -> Result<Option<Rule>, NoMemory>
    ensures { IfOk result (λ rule. rule ≡ broken_act course.now stamp here.0 act.now) }
{
    Ok(match act {
        Act::Begin { label, client, .. } => broken_begin(course, here, label, *client),
        Act::Issue {
            tid,
            issuer,
            member,
            op,
            ..
        } => broken_issue(course, here, *tid, *issuer, *member, op),
        Act::Ask { tid } => broken_ask(course, here, *tid),
        Act::Vote {
            tid,
            member,
            vote,
            ..
        } => return broken_vote(course, here, *tid, *member, vote),
        Act::Decide {
            tid,
            outcome,
            cause,
        } => broken_decision(course, here, *tid, *outcome, cause.as_ref()),
        Act::Answer {
            client,
            line,
            answer,
        } => broken_answer(course, here, *client, *line, answer),
        Act::Loan { client, .. } => broken_loan(course, here, *client),
        Act::Yield { tid, client } => broken_yield(course, here, *tid, *client),
        _ => return broken_rest(course, stamp, here, act),
    })
}

/// The first rule that an entry breaks. The only error is a refusal of memory.
pub fn broken_rule(course: &Course, entry: &Entry) -> Result<Option<Rule>, NoMemory>
    ensures { IfOk result (λ rule. rule ≡ broken_rule course.now entry.now) }
{
    broken_act(course, entry.stamp, entry.node, &entry.act)
}

//! A home that decides, a node that answers it, and what a log brings back. Expected numbers are those of
//! the formats: a Commit with one node has 16 bytes, a batch 41 besides, and 128 are kept.
ghost use Rattle.std.specs.Prelude.{◌≤◌};

use qs_base::{ClientNo, List, Member, NodeNo, Outcome, ServerNo, Tid};
use qs_engage::Engaged;
use qs_ops::servers::{FILES, SCRATCH};
use qs_ops::{Cause, Reason, Vote};
use qs_record::Record;
use qs_tm::{BeginFault, Due, Manager, Outstanding, Standing};
use std::alloc::Global;
use std::test::Fail;

const HOME: NodeNo = NodeNo(0);

const OTHER: NodeNo = NodeNo(1);

const FIRST: Tid = Tid {
    home: NodeNo(0),
    inc: 1,
    seq: 1,
};

fn files_at(node: NodeNo) -> Member {
    Member {
        node,
        server: FILES,
    }
}

#[test]
fn a_transaction_needs_room(rt: HostRuntime) -> Result<(), Fail> {
    let mut manager = Manager::new(rt.alloc(), HOME, 1, 0, 128);
    let is_right = begins_with_room(&mut manager);
    drop(manager);
    assert!(rt; is_right?);
    Ok(())
}

fn begins_with_room(manager: &mut Manager) -> Result<bool, Fail>
    requires extra { manager.old.extra ≤ 8 }
    requires keep { manager.old.keep ≤ 144 }
{
    let is_full = matches!(
        manager.begin(ClientNo(0), 72),
        Err(BeginFault::LogFull {
            need: 128,
            room: 72
        })
    );
    let has_begun = manager.begin(ClientNo(0), 128).ok() == Some(FIRST);
    Ok(is_full && has_begun && needs(manager)?)
}

// What its Commit needs, with node 1 to be told.
fn needs(manager: &mut Manager) -> Result<bool, Fail>
    requires extra { manager.old.extra ≤ 8 }
    requires keep { manager.old.keep ≤ 144 }
{
    manager.add_told(FIRST, OTHER);
    let is_needed = manager.need_past(FIRST, 150)? == Some(185);
    Ok(is_needed && manager.need_past(FIRST, 185)? == None)
}

// A request goes to node 1, one is served here, and the owner asks for the commit.
fn is_asked(manager: &mut Manager) -> Result<bool, Fail> {
    let is_sent = manager.begin(ClientNo(0), 128).ok() == Some(FIRST)
        && manager.sent(FIRST, OTHER) == Some(1);
    let request = Outstanding {
        issuer: ServerNo(32),
        member: files_at(OTHER),
        number: 1,
        count: 0,
    };
    manager.issued(FIRST, request)?;
    let is_served = manager.served(FIRST, FILES) == Some(1);
    manager.note_served(FIRST, 1)?;
    manager.ask(FIRST);
    manager.voted(FIRST, files_at(HOME), &Vote::Recoverable, 1)?;
    Ok(is_sent && is_served)
}

// Node 1 covers what it was sent: then, and not before, the home may decide.
fn is_ready_once_covered(manager: &mut Manager, told: &List<NodeNo>) -> Result<bool, Fail> {
    let was_ready = manager.ready(FIRST, false);
    manager.counted(FIRST, OTHER, 1, told);
    let is_ready = !manager.ready(FIRST, true) && manager.ready(FIRST, false);
    Ok(!was_ready && is_ready && manager.due()?.as_slice() == [FIRST].as_slice())
}

fn is_decided(manager: &mut Manager, told: List<NodeNo>) -> Result<bool, Fail> {
    let made = manager.decide(FIRST, Outcome::Commit)?;
    let tells = made.tell == told;
    let commit = Record::Commit { tid: FIRST, told };
    manager.logged(FIRST, &commit);
    let commit = Some(commit);
    let is_recorded = made.rec == commit;
    drop(made);
    drop(commit);
    Ok(tells && is_recorded)
}

// The commit stands until node 1 took it in.
fn is_forgotten(manager: &mut Manager) -> bool {
    let stands = manager.standing(FIRST) == Standing::Committed;
    let is_last = manager.acknowledged(FIRST, OTHER);
    manager.forget(FIRST);
    stands && is_last && manager.standing(FIRST) == Standing::Unknown
}

fn commits(alloc: Global, manager: &mut Manager) -> Result<bool, Fail> {
    let mut told = List::new(alloc);
    told.push(OTHER)?;
    let is_asked = is_asked(manager)?;
    let is_ready = is_ready_once_covered(manager, &told)?;
    Ok(is_asked && is_ready && is_decided(manager, told)? && is_forgotten(manager))
}

#[test]
fn a_home_commits(rt: HostRuntime) -> Result<(), Fail> {
    let mut manager = Manager::new(rt.alloc(), HOME, 1, 0, 128);
    let is_right = commits(rt.alloc(), &mut manager);
    drop(manager);
    assert!(rt; is_right?);
    Ok(())
}

// Node 0 asks, two servers serve, and one of them refuses.
fn is_refused(manager: &mut Manager) -> Result<bool, Fail> {
    manager.meet(FIRST)?;
    let is_served = manager.requested(FIRST, HOME, 1) == Engaged::Superior
        && manager.served(FIRST, FILES) == Some(1)
        && manager.served(FIRST, SCRATCH) == Some(1);
    let refusal = Vote::Abort {
        reason: Reason::Quota {
            bytes: 11,
            limit: 10,
        },
    };
    let voted = manager.voted(FIRST, files_at(OTHER), &refusal, 1);
    drop(refusal);
    voted?;
    manager.add_cause(FIRST, Cause::Asked)?;
    Ok(is_served && manager.take_causes(FIRST).len() == 2)
}

fn has_learners(alloc: Global, manager: &Manager) -> Result<bool, Fail> {
    let Some(part) = manager.part(FIRST) else {
        return Ok(false);
    };
    let are_right = part.learners(alloc)?.as_slice() == [FILES, SCRATCH].as_slice();
    Ok(are_right && part.servers_due(alloc, Due::Vote)?.len() == 0)
}

fn answers(alloc: Global, manager: &mut Manager) -> Result<bool, Fail> {
    let is_refused = is_refused(manager)?;
    let is_released = manager.released(FIRST) == Some((HOME, 1));
    let is_concerned = manager.concerned(HOME)?.as_slice() == [FIRST].as_slice();
    Ok(
        is_refused
            && is_released
            && is_concerned
            && has_learners(alloc, manager)?
            && manager.told(FIRST)?.len() == 0,
    )
}

#[test]
fn another_node_answers(rt: HostRuntime) -> Result<(), Fail> {
    let mut manager = Manager::new(rt.alloc(), OTHER, 1, 0, 128);
    let is_right = answers(rt.alloc(), &mut manager);
    drop(manager);
    assert!(rt; is_right?);
    Ok(())
}

// The vote of node 1 is in doubt there.
fn is_in_doubt(manager: &mut Manager, vote: &Record) -> Result<bool, Fail> {
    manager.take_up(vote)?;
    let is_undecided = manager.undecided()?.as_slice() == [FIRST].as_slice();
    Ok(is_undecided && manager.standing(FIRST) == Standing::Running)
}

// At the home it is not, and an abort that is kept is not known either.
fn is_unknown(home: &mut Manager, vote: &Record) -> Result<bool, Fail> {
    home.take_up(vote)?;
    let lost = Tid { seq: 2, ..FIRST };
    home.keep_abort(lost)?;
    let is_unknown = home.standing(FIRST) == Standing::Unknown;
    Ok(is_unknown && home.aged(0)?.len() == 0 && home.standing(lost) == Standing::Unknown)
}

#[test]
fn a_log_brings_back_a_vote(rt: HostRuntime) -> Result<(), Fail> {
    let vote = Record::Prepare {
        tid: FIRST,
        server: FILES,
        covers: 1,
        changes: List::new(rt.alloc()),
    };
    let is_right = is_taken_up(rt.alloc(), &vote);
    drop(vote);
    assert!(rt; is_right?);
    Ok(())
}

fn is_taken_up(alloc: Global, vote: &Record) -> Result<bool, Fail> {
    let mut manager = Manager::new(alloc, OTHER, 2, 0, 128);
    let is_in_doubt = is_in_doubt(&mut manager, vote);
    drop(manager);
    if !is_in_doubt? {
        return Ok(false);
    }
    let mut home = Manager::new(alloc, HOME, 2, 0, 128);
    let is_unknown = is_unknown(&mut home, vote);
    drop(home);
    is_unknown
}

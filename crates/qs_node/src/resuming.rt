//! What a node does in the first step of an incarnation.
ghost use Rattle.std.specs.Prelude.{◌≡◌, fold, map, IfOk, OnOk};
ghost use Rattle.qs_node_step.specs.Restarts.{resume_tid, known_tids, begin_incarnation};

use qs_base::{List, NoMemory, Outcome, Tid};
use qs_node_servers::Servers;
use qs_node_settling::{give_notices, record_learnt, tell_each};
use qs_node_step::Work;
use qs_node_work::{log_if, send};
use qs_ops::Server;
use qs_packet::Message;

/// A home that found a Prepare and no Commit has aborted; one that found a Commit with a list tells it.
/// Elsewhere a Prepare is in doubt, and the home is asked.
fn resume_tid<F: Server, X: Server>(
    work: &mut Work<Servers<F, X>>,
    tid: Tid,
) -> Result<(), NoMemory>
    ensures ok { OnOk result (work.new ≡ resume_tid work.old tid) }
    ensures saved { work.new.node.kept.saved ≡ work.old.node.kept.saved }
{
    let alloc = work.node.manager.alloc;
    let Some(part) = work.node.manager.part(tid) else {
        return Ok(());
    };
    match part.outcome {
        None => send(work, tid.home, Message::Inquire { tid }),
        Some(Outcome::Commit) => {
            let tell = part.tell.listed(alloc)?;
            tell_each(work, tell.as_slice(), tid, Outcome::Commit)
        }
        Some(Outcome::Abort) => {
            let rec = record_learnt(alloc, tid, Outcome::Abort, part);
            give_notices(work, tid, Outcome::Abort)?;
            log_if(work, rec)
        }
    }
}

fn resume_each<F: Server, X: Server>(
    work: &mut Work<Servers<F, X>>,
    tids: &[Tid],
) -> Result<(), NoMemory>
    ensures ok { OnOk result (work.new ≡ fold resume_tid work.old tids.now) }
    ensures saved { work.new.node.kept.saved ≡ work.old.node.kept.saved }
{
    for tid in tids {
        resume_tid(work, *tid)?;
    }
    Ok(())
}

/// The transactions that the node knows, in order.
fn known_tids<F: Server, X: Server>(work: &Work<Servers<F, X>>) -> Result<List<Tid>, NoMemory>
    ensures { IfOk result (λ tids. tids ≡ known_tids work.now) }
{
    let mut tids = List::new(work.node.manager.alloc);
    for entry in work.node.manager.known.iter() {
        tids.push(*entry.0)?;
    }
    Ok(tids)
}

/// What is due in the first step of an incarnation; nothing in a later one.
pub fn begin_incarnation<F: Server, X: Server>(
    work: &mut Work<Servers<F, X>>,
) -> Result<(), NoMemory>
    ensures ok { OnOk result (work.new ≡ begin_incarnation work.old) }
    ensures saved { work.new.node.kept.saved ≡ work.old.node.kept.saved }
{
    if !work.node.is_first {
        return Ok(());
    }
    work.node.is_first = false;
    let tids = known_tids(work)?;
    resume_each(work, tids.as_slice())
}

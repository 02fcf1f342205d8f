//! What comes to a node is done.
ghost use Rattle.std.specs.Prelude.{◌≡◌, fold, OnOk};
ghost use Rattle.qs_node_step.specs.Step.{message_came, abort_old, age_rule, tick, happen};

use crate::commanding::command_came;
use crate::restarting::peer_restarted;
use qs_base::{List, NoMemory, NodeNo, Outcome, Tid};
use qs_book_journal::{Act, ScriptLine};
use qs_node_servers::Servers;
use qs_node_settling::{
    ask_came, closer_came, decide, inquiry_came, refusal_came, tell_came, told_came,
};
use qs_node_step::{Event, Work};
use qs_node_work::{enter, reply_came, request_came, serve_all};
use qs_ops::{Cause, Server};
use qs_packet::Message;

/// A message comes.
fn message_came<F: Server, X: Server>(
    work: &mut Work<Servers<F, X>>,
    peer: NodeNo,
    message: Message,
) -> Result<(), NoMemory>
    ensures ok { OnOk result (work.new ≡ message_came peer message work.old) }
    ensures saved { work.new.node.kept.saved ≡ work.old.node.kept.saved }
{
    match message {
        Message::Hello => Ok(()),
        Message::Request {
            tid,
            label,
            member,
            number,
            issuer: _,
            op,
        } => request_came(work, peer, tid, label, member, number, op),
        Message::Answered {
            tid,
            member,
            number,
            reply,
        } => reply_came(work, tid, member, number, reply),
        Message::AskVote { tid } => ask_came(work, peer, tid),
        Message::Covered { tid, up_to } => {
            let told = List::new(work.node.manager.alloc);
            closer_came(work, peer, tid, up_to, &told)
        }
        Message::VotedYes { tid, up_to, told } => closer_came(work, peer, tid, up_to, &told),
        Message::VotedAbort { tid, cause } => refusal_came(work, tid, cause),
        Message::Tell { tid, outcome } => tell_came(work, peer, tid, outcome),
        Message::Told { tid, further } => told_came(work, peer, tid, &further),
        Message::Inquire { tid } => inquiry_came(work, peer, tid),
    }
}

fn abort_old<F: Server, X: Server>(
    work: &mut Work<Servers<F, X>>,
    age: u64,
    tid: Tid,
) -> Result<(), NoMemory>
    ensures ok { OnOk result (work.new ≡ abort_old age work.old tid) }
    ensures saved { work.new.node.kept.saved ≡ work.old.node.kept.saved }
{
    decide(work, tid, Outcome::Abort, Some(Cause::Old { age }))
}

fn abort_each<F: Server, X: Server>(
    work: &mut Work<Servers<F, X>>,
    age: u64,
    tids: &[Tid],
) -> Result<(), NoMemory>
    ensures ok { OnOk result (work.new ≡ fold (abort_old age) work.old tids.now) }
    ensures saved { work.new.node.kept.saved ≡ work.old.node.kept.saved }
{
    for tid in tids {
        abort_old(work, age, *tid)?;
    }
    Ok(())
}

/// A home with an age limit aborts what is that old and not decided.
fn age_rule<F: Server, X: Server>(work: &mut Work<Servers<F, X>>) -> Result<(), NoMemory>
    ensures ok { OnOk result (work.new ≡ age_rule work.old.node.setting.age work.old) }
    ensures saved { work.new.node.kept.saved ≡ work.old.node.kept.saved }
{
    let Some(age) = work.node.setting.age else {
        return Ok(());
    };
    let tids = work.node.manager.aged(age)?;
    abort_each(work, age, tids.as_slice())
}

/// Timers count on, and transactions grow older.
fn tick<F: Server, X: Server>(work: &mut Work<Servers<F, X>>) -> Result<(), NoMemory>
    ensures ok { OnOk result (work.new ≡ tick work.old) }
    ensures saved { work.new.node.kept.saved ≡ work.old.node.kept.saved }
{
    enter(work, Act::Tick)?;
    work.node.servers.tick()?;
    work.node.manager.tick();
    age_rule(work)
}

/// What comes is done.
pub fn happen<F: Server, X: Server>(
    work: &mut Work<Servers<F, X>>,
    event: Event,
) -> Result<(), NoMemory>
    ensures ok { OnOk result (work.new ≡ happen event work.old) }
    ensures saved { work.new.node.kept.saved ≡ work.old.node.kept.saved }
{
    match event {
        Event::Command {
            client,
            line,
            label,
            command,
        } => command_came(
            work,
            ScriptLine {
                client,
                line,
                label,
                command,
            },
        ),
        Event::Received { peer, message } => message_came(work, peer, message),
        Event::ServeAll => serve_all(work),
        Event::PeerRestarted { peer, old, new } => peer_restarted(work, peer, old, new),
        Event::Tick => tick(work),
    }
}

//! Replies, and whom they answer.
ghost use Rattle.std.specs.Prelude.{◌≡◌, OnOk};
ghost use Rattle.std.specs.Option.{option_copied};
ghost use Rattle.qs_node_servers.specs.Servers.{client_of};
ghost use Rattle.qs_node_step.specs.Requests.{is_issued_as, waits_as, answer_issuer, take_reply, waiting_at, reply_came};

use crate::answering::answer;
use qs_base::{ClientNo, Member, NoMemory, ServerNo, Tid};
use qs_node_servers::Servers;
use qs_node_step::{Issued, OpenCommand, Work};
use qs_ops::servers::FIRST_CLIENT;
use qs_ops::{Reply, Server, answer_of};
use qs_tm::Outstanding;

fn is_issued_as(tid: Tid, member: Member, number: u32, issued: Issued) -> bool
    ensures { result ≡ is_issued_as tid member number issued }
{
    issued.tid == tid && (issued.member == member && issued.number == number)
}

fn waits_as(tid: Tid, member: Member, number: u32, command: Option<&OpenCommand>) -> bool
    ensures { result ≡ waits_as tid member number (option_copied command.entry) }
{
    match command {
        None => false,
        Some(command) => match command.issued {
            None => false,
            Some(issued) => is_issued_as(tid, member, number, issued),
        },
    }
}

/// The client that issued the request is answered, if it waits for just this one.
fn answer_issuer<F: Server, X: Server>(
    work: &mut Work<Servers<F, X>>,
    tid: Tid,
    member: Member,
    number: u32,
    reply: Reply,
    client: ClientNo,
) -> Result<(), NoMemory>
    ensures ok { OnOk result (work.new ≡ answer_issuer tid member number reply client work.old) }
    ensures saved { work.new.node.kept.saved ≡ work.old.node.kept.saved }
{
    if waits_as(tid, member, number, work.node.commands.get(&client)) {
        answer(work, client, answer_of(reply))
    } else {
        drop(reply);
        Ok(())
    }
}

/// The client of a number as a borrower.
fn client_of(issuer: ServerNo) -> ClientNo
    ensures { result ≡ client_of issuer }
{
    ClientNo(issuer.0.saturating_sub(FIRST_CLIENT.0))
}

/// A note of files counts as served with its reply.
fn take_reply<F: Server, X: Server>(
    work: &mut Work<Servers<F, X>>,
    tid: Tid,
    reply: Reply,
    request: Outstanding,
) -> Result<(), NoMemory>
    ensures ok { OnOk result (work.new ≡ take_reply tid reply request work.old) }
    ensures saved { work.new.node.kept.saved ≡ work.old.node.kept.saved }
{
    if request.is_by_files() {
        drop(reply);
        work.node.manager.note_served(tid, request.count)
    } else {
        let client = client_of(request.issuer);
        answer_issuer(work, tid, request.member, request.number, reply, client)
    }
}

/// The request that a reply with this member and number is for.
fn waiting_at<F: Server, X: Server>(
    work: &Work<Servers<F, X>>,
    tid: Tid,
    member: Member,
    number: u32,
) -> Option<Outstanding>
    ensures { result ≡ waiting_at tid member number work.now }
{
    match work.node.manager.part(tid) {
        Some(part) => part.waiting_for(member, number).copied(),
        None => None,
    }
}

/// A reply comes to a request with this member and number. It counts where such a request waits for it.
pub fn reply_came<F: Server, X: Server>(
    work: &mut Work<Servers<F, X>>,
    tid: Tid,
    member: Member,
    number: u32,
    reply: Reply,
) -> Result<(), NoMemory>
    ensures ok { OnOk result (work.new ≡ reply_came tid member number reply work.old) }
    ensures saved { work.new.node.kept.saved ≡ work.old.node.kept.saved }
{
    match waiting_at(work, tid, member, number) {
        None => {
            drop(reply);
            Ok(())
        }
        Some(request) => {
            work.node.manager.drop_waiting(tid, member, number);
            take_reply(work, tid, reply, request)
        }
    }
}

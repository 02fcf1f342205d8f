//! Requests that wait at the servers of this node.
ghost use Rattle.std.specs.Prelude.{◌≡◌, OnOk};
ghost use Rattle.qs_ipc.specs.Queue.{is_for};
ghost use Rattle.qs_node_step.specs.Requests.{enqueue};

use qs_base::{NoMemory, ServerNo};
use qs_ipc::{Delivery, Why};
use qs_node_servers::Servers;
use qs_node_step::Work;
use qs_ops::{Op, Server, server_of};

/// Whether the operation is one of that server's.
pub(crate) fn is_for(server: ServerNo, op: &Op) -> bool
    ensures { result ≡ is_for server op.now }
{
    match server_of(op) {
        Some(its) => its == server,
        None => false,
    }
}

/// The request waits at the server, where the operation is one of the server's own. Where as many
/// requests of the transaction as can be counted wait there or were served, that is a refusal of
/// memory too.
pub(crate) fn enqueue<F: Server, X: Server>(
    work: &mut Work<Servers<F, X>>,
    server: ServerNo,
    delivery: Delivery,
) -> Result<(), NoMemory>
    ensures ok { OnOk result (work.new ≡ enqueue server delivery work.old) }
    ensures saved { work.new.node.kept.saved ≡ work.old.node.kept.saved }
{
    if work.node.queues.full(delivery.tid, server) {
        drop(delivery);
        return Err(NoMemory);
    }
    match work.node.queues.enqueue(server, delivery) {
        Ok(()) => Ok(()),
        Err(refused) => {
            let why = refused.why;
            drop(refused);
            match why {
                Why::Foreign => Ok(()),
                Why::NoMemory => Err(NoMemory),
            }
        }
    }
}

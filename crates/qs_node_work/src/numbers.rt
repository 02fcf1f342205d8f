//! The numbers of requests, which count those of a transaction from one node to another.
ghost use Rattle.std.specs.Prelude.{◌≡◌};
ghost use Rattle.qs_tm.specs.Manager.{sent_as};
ghost use Rattle.qs_node_step.specs.Requests.{local_count, next_local, next_number};

use qs_base::{NodeNo, Tid};
use qs_node_servers::Servers;
use qs_node_step::Work;
use qs_ops::Server;
use qs_tm::Manager;

/// How many requests of the transaction went to servers of this node.
fn local_count<F: Server, X: Server>(work: &Work<Servers<F, X>>, tid: Tid) -> u32
    ensures { result ≡ local_count tid work.now.node }
{
    match work.node.locals.get(&tid) {
        Some(count) => *count,
        None => 0,
    }
}

fn next_local<F: Server, X: Server>(work: &Work<Servers<F, X>>, tid: Tid) -> Option<u32>
    ensures { result ≡ next_local tid work.now.node }
{
    local_count(work, tid).checked_add(1)
}

fn next_sent(manager: &Manager, tid: Tid, to: NodeNo) -> Option<u32>
    ensures { result ≡ sent_as tid to manager.now }
{
    match manager.part(tid) {
        Some(part) => {
            let mut engage = part.engage;
            engage.sent(to)
        }
        None => None,
    }
}

/// The number of the next request of the transaction to that node; `None` exactly where the last number
/// was given, or where the request goes to another node and the transaction is unknown here.
pub fn next_number<F: Server, X: Server>(
    work: &Work<Servers<F, X>>,
    tid: Tid,
    to: NodeNo,
) -> Option<u32>
    ensures { result ≡ next_number tid to work.now }
{
    if to == work.node.setting.node {
        next_local(work, tid)
    } else {
        next_sent(&work.node.manager, tid, to)
    }
}

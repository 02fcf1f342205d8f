//! Whether what waits at the servers of a node can be counted as it is served.
ghost use Rattle.std.specs.Prelude.{◌≡◌};
ghost use Rattle.qs_ipc.specs.declared.delivery.Delivery.{Delivery};
ghost use Rattle.qs_node_step.specs.Counted.{is_counted, are_counted, is_all_counted};

use qs_base::{ServerNo, Tid};
use qs_ipc::Queue;
use qs_node_servers::Servers;
use qs_node_step::NodeState;
use qs_ops::Server;

/// A server can count as many requests of a transaction.
const LAST_NUMBER: u64 = 4_294_967_295;

/// Whether all that waits can be counted.
pub fn is_all_counted<F: Server, X: Server>(node: &NodeState<Servers<F, X>>) -> bool
    ensures { result ≡ is_all_counted node.now }
{
    node.queues
        .iter()
        .all(|(server, queue)| are_counted(node, *server, queue))
}

/// Whether all that waits at that server can be counted.
fn are_counted<F: Server, X: Server>(
    node: &NodeState<Servers<F, X>>,
    server: ServerNo,
    queue: &Queue,
) -> bool
    ensures { result ≡ are_counted node.now (server, queue.now) }
{
    queue
        .iter()
        .all(|delivery| is_counted(node, server, queue, delivery.tid))
}

/// Whether the requests of the transaction that wait there can be counted behind those that the server served of it.
fn is_counted<F: Server, X: Server>(
    node: &NodeState<Servers<F, X>>,
    server: ServerNo,
    queue: &Queue,
    tid: Tid,
) -> bool
    ensures { (delivery : Delivery) → delivery.tid ≡ tid → result ≡ is_counted node.now (server, queue.now) delivery }
{
    match node.manager.part(tid) {
        None => true,
        Some(part) => {
            let served = part.member(server).served;
            u64::from(served) + u64::from(queue.waiting(tid)) <= LAST_NUMBER
        }
    }
}

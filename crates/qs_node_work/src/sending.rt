//! Messages to other nodes of the run.
ghost use Rattle.std.specs.Prelude.{◌≡◌, OnOk, fold};
ghost use Rattle.qs_node_step.specs.Bringing.{is_other, send, send_next, send_each};

use qs_base::{Copied, NoMemory, NodeNo};
use qs_node_servers::Servers;
use qs_node_step::{Sending, Setting, Work};
use qs_ops::Server;
use qs_packet::Message;

fn is_other(setting: &Setting, node: NodeNo) -> bool
    ensures { result ≡ is_other setting.now node }
{
    setting.node != node && node.0 < setting.nodes
}

/// A message to another node; to no other node of the run nothing goes.
pub fn send<F: Server, X: Server>(
    work: &mut Work<Servers<F, X>>,
    to: NodeNo,
    message: Message,
) -> Result<(), NoMemory>
    ensures ok { OnOk result (work.new ≡ send to message work.old) }
    ensures saved { work.new.node.kept.saved ≡ work.old.node.kept.saved }
{
    if is_other(&work.node.setting, to) {
        work.out.messages.push(Sending { to, message })
    } else {
        drop(message);
        Ok(())
    }
}

/// The message to each of these nodes, in order.
pub fn send_each<F: Server, X: Server>(
    work: &mut Work<Servers<F, X>>,
    nodes: &[NodeNo],
    message: &Message,
) -> Result<(), NoMemory>
    ensures ok { OnOk result (work.new ≡ send_each nodes.now message.now work.old) }
    ensures saved { work.new.node.kept.saved ≡ work.old.node.kept.saved }
{
    for node in nodes {
        send_next(work, message, *node)?;
    }
    Ok(())
}

fn send_next<F: Server, X: Server>(
    work: &mut Work<Servers<F, X>>,
    message: &Message,
    to: NodeNo,
) -> Result<(), NoMemory>
    ensures ok { OnOk result (work.new ≡ send_next message.now work.old to) }
    ensures saved { work.new.node.kept.saved ≡ work.old.node.kept.saved }
{
    send(work, to, message.copy()?)
}

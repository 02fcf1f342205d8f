//! A request on its way to a server of this node.
ghost use Rattle.std.specs.Prelude.{◌≡◌};
ghost use Rattle.qs_ipc.specs.Queue.{is_for};

use qs_base::{NodeNo, ServerNo, Tid};
use qs_ops::{Op, server_of};

/// A request that waits at a server.
#[derive(Drop)]
pub struct Delivery {
    pub tid: Tid,
    /// The node that asked, and the number of the request there.
    pub from: NodeNo,
    pub number: u32,
    pub op: Op,
    /// Whether the incarnation that asked is known to be dead: it is served, and its reply not sent.
    pub stale: bool,
}

/// Why a request was not taken in.
#[derive(Clone, Copy)]
pub enum Why {
    /// The operation is not one of that server's.
    Foreign,
    /// Memory was asked for and refused.
    NoMemory,
}

/// A request that was not taken in, handed back.
#[derive(Drop)]
pub struct Refused {
    pub delivery: Delivery,
    pub why: Why,
}

/// Whether the operation is one of that server's.
pub(crate) fn is_for(server: ServerNo, op: &Op) -> bool
    ensures { result ≡ is_for server op.now }
{
    match server_of(op) {
        Some(its) => its == server,
        None => false,
    }
}

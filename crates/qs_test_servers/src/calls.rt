//! Calls of one server of a node.
ghost use Rattle.std.specs.Prelude.{◌≡◌};
ghost use Rattle.qs_ipc.specs.Queue.{is_for};
ghost use Rattle.qs_ops.specs.Servers.{is_client_no};

use qs_base::{List, NoMemory, ServerNo, Tid};
use qs_files::Files;
use qs_node_servers::Servers;
use qs_ops::servers::{AUDIT, FILES, FIRST_CLIENT, NAMES};
use qs_ops::{Changes, NoServer, Op, Reply, server_of};
use std::alloc::Global;

/// The servers of a node that has no further one.
pub(crate) type Called = Servers<Files, NoServer>;

/// Servers with nothing.
pub(crate) fn new_servers(alloc: Global, quota: u64) -> Called {
    Servers::new(alloc, Files::new(alloc, quota), NoServer::new(alloc))
}

/// Servers, of which this one takes in what a log has committed of it.
pub(crate) fn open_servers(
    alloc: Global,
    quota: u64,
    server: ServerNo,
    contents: &Changes,
) -> Result<Called, NoMemory> {
    let mut servers = Servers::new(alloc, Files::new(alloc, quota), NoServer::new(alloc));
    let none = List::new(alloc);
    let taken = match server {
        FILES => servers.take_in(contents, &none),
        AUDIT => servers.take_in(&none, contents),
        _ => Ok(()),
    };
    if let Err(NoMemory) = taken {
        drop(servers);
        return Err(NoMemory);
    }
    Ok(servers)
}

/// The server's reply; `None` where it is no operation of its own.
pub(crate) fn reply_of(
    servers: &mut Called,
    server: ServerNo,
    tid: Tid,
    op: &Op,
) -> Result<Option<Reply>, NoMemory> {
    if !is_for(server, op) || is_client(server) {
        return Ok(None);
    }
    Ok(Some(servers.serve(server, tid, op)?))
}

/// Whether the operation is the server's own.
fn is_for(server: ServerNo, op: &Op) -> bool
    ensures { result ≡ is_for server op.now }
{
    match server_of(op) {
        None => false,
        Some(its) => its.0 == server.0,
    }
}

/// Whether the number is a client's.
fn is_client(server: ServerNo) -> bool
    ensures { result ≡ is_client_no server.0 }
{
    server.0 >= FIRST_CLIENT.0
}

/// Whether the server votes.
pub(crate) fn is_voting(server: ServerNo) -> bool {
    server == FILES || server == AUDIT || server == NAMES
}

//! What a node keeps while it runs, and what a step of it works on.

use crate::event::Effects;
use crate::setting::Setting;
use crate::state::{Doings, OpenCommand};
use qs_base::{ClientNo, List, Tid};
use qs_base_map::Map;
use qs_ipc::Ipc;
use qs_node_kept::Keeping;
use qs_tm::Manager;

/// A node, over the servers that it has.
#[derive(Drop)]
pub struct NodeState<S> {
    pub setting: Setting,
    /// The transactions that it knows.
    pub manager: Manager,
    /// The requests that wait at its servers.
    pub queues: Ipc,
    pub servers: S,
    /// What it keeps for its clients through a restart.
    pub kept: Keeping,
    /// The commands that are not answered.
    pub commands: Map<ClientNo, OpenCommand>,
    /// How many requests of each transaction went to servers here.
    pub locals: Map<Tid, u32>,
    /// Whether it has made no step in this incarnation.
    pub is_first: bool,
    /// The Commits that its log had as it was opened.
    pub committed: List<Tid>,
}

/// What a step works on.
#[derive(Drop)]
pub struct Work<S> {
    pub node: NodeState<S>,
    /// The bytes that the log has free.
    pub room: u64,
    /// What the step did for each transaction so far.
    pub doings: Map<Tid, Doings>,
    /// What it brings about.
    pub out: Effects,
}

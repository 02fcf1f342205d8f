//! A node.
ghost use Rattle.std.specs.Prelude.{◌≡◌, ◌≤◌, [], true, fold, OnOk, IfOk, IfErr};
ghost use Rattle.qs_ops.specs.Server.{AreContents, cleared};
ghost use Rattle.qs_ops.specs.declared.server.ServerKind.TheVariants as kinds;
ghost use Rattle.qs_ipc.specs.Ipc as ipc;
ghost use Rattle.qs_node_kept.specs.Keeping.{with_now};
ghost use Rattle.qs_tm.specs.Manager as tm;
ghost use Rattle.qs_node_servers.specs.Kinds.{empty_server, new_servers};
ghost use Rattle.qs_node_servers.specs.Servers.{server_at};
ghost use Rattle.qs_node.specs.Pending.{has_holders, is_pending};
ghost use Rattle.qs_node_step.specs.Counted.{is_all_counted};
ghost use Rattle.qs_node_step.specs.State.{no_effects, work_on};
ghost use Rattle.qs_node_step.specs.Opening.{opened_manager, keep_changes, opened_servers, closed_kept, opened_node};
ghost use Rattle.qs_node_step.specs.Restarts.{begin_incarnation};
ghost use Rattle.qs_node_step.specs.Settling.{settle};
ghost use Rattle.qs_node_step.specs.Step.{happen, answer_waiting, step_work, effects_of, accept};

use crate::closing::close_kept;
use crate::counting::is_all_counted;
use crate::happening::happen;
use crate::resuming::begin_incarnation;
use crate::taking_up::{open_servers, opened_manager};
use crate::waiting::answer_waiting;
use qs_base::{List, NoMemory, ServerNo};
use qs_base_map::Map;
use qs_ipc::Ipc;
use qs_node_kept::{Keeping, Kept};
use qs_node_servers::Servers;
use qs_node_settling::settle;
use qs_node_step::{Effects, Event, NodeState, Setting, Work};
use qs_ops::{Changes, Server};
use qs_restart::Recovered;
use qs_tm::{Manager, every_server};
use std::alloc::Global;
use std::marker::Model;
use std::mem::replace;

/// A node in one incarnation: its transactions, servers and clients. It makes a step for each event that
/// comes to it.
#[derive(Drop)]
pub struct Node<F: Server, X: Server> {
    // In a box, since a node is handed on by value as it starts and stops.
    work: Box<Work<Servers<F, X>>>,
}

/// What a node that could not be made hands back.
#[derive(Drop)]
pub struct NodeOpen<X: Server> {
    pub kept: Kept,
    pub extra: X,
}

impl<F: Server, X: Server> Model for Node<F, X> {
    ghost use Rattle.qs_node_step.specs.State.{NodeValue};

    ghost Value = { NodeValue };

    ghost view = { λ n. n.work.value.node };
}

impl<F: Server, X: Server> Node<F, X> {
    /// A node begins an incarnation over its log, which says `found`: it keeps `kept` for its clients, and its
    /// files and the further server are empty. For want of memory alone what it keeps for its clients and the
    /// further server are handed back.
    pub fn new(
        alloc: Global,
        found: Recovered,
        setting: Setting,
        kept: Kept,
        files: F,
        extra: X,
    ) -> Result<Node<F, X>, NodeOpen<X>>
        requires files { F.state files ≡ empty_server (kinds.Files setting.quota) }
        requires extra { X.state extra ≡ empty_server kinds.Nothing }
        requires batch { setting.extra ≤ 8 }
        requires keep { setting.keep ≤ 144 }
        ensures ok { IfOk result (λ node. node ≡ opened_node alloc setting found kept) }
        ensures kept { IfErr result (λ back. back.kept ≡ kept) }
        ensures extra { IfErr result (λ back. X.state back.extra ≡ X.state extra) }
    {
        let mut keeping = match Keeping::new(alloc, kept) {
            Ok(keeping) => keeping,
            Err(kept) => {
                drop(files);
                drop(found);
                return Err(NodeOpen { kept, extra });
            }
        };
        let mut servers = Servers::new(alloc, files, extra);
        match open_parts(alloc, &setting, &found, &mut keeping, &mut servers) {
            Ok(manager) => {
                Node::boxed(
                    alloc,
                    work_of(alloc, setting, manager, servers, keeping, found),
                )
            }
            Err(NoMemory) => {
                drop(found);
                Err(NodeOpen {
                    kept: keeping.restore(),
                    extra: servers.into_extra(),
                })
            }
        }
    }

    /// A node that has made no step. What it keeps for its clients counts; for want of memory it is handed back as it was.
    fn boxed(alloc: Global, work: Work<Servers<F, X>>) -> Result<Node<F, X>, NodeOpen<X>>
        ensures ok { IfOk result (λ node. node ≡ accept work.node) }
        ensures kept { IfErr result (λ back. back.kept ≡ work.node.kept.saved) }
        ensures extra { IfErr result (λ back. X.state back.extra ≡ cleared work.node.servers.extra) }
    {
        match Box::new(alloc, work) {
            Ok(work) => {
                let mut node = Node { work };
                node.accept();
                Ok(node)
            }
            Err(failed) => {
                let (kept, extra) = parts_of(failed.value);
                Err(NodeOpen { kept, extra })
            }
        }
    }

    /// The event comes to the node, over a log with `free` bytes free: the node after it, and what is to be
    /// done for it, are those of the step. The only error is a refusal of memory; after it only `into_parts`
    /// is to be called.
    pub fn step(&mut self, event: Event, free: u64) -> Result<Effects, NoMemory>
        ensures ok { OnOk result (self.new ≡ (step_work self.old event free).node) }
        ensures effects { IfOk result (λ out. out ≡ effects_of self.old event free) }
        ensures saved { self.new.kept.saved ≡ self.old.kept.saved }
    {
        step(&mut self.work, event, free)
    }

    /// What the last step brought about was done: what the node keeps for its clients counts. It takes no
    /// memory.
    pub fn accept(&mut self)
        ensures { self.new ≡ accept self.old }
    {
        self.work.node.kept.accept();
    }

    /// What it kept for its clients at the last `accept`, or was handed where there was none, and the further
    /// server, emptied. It takes no memory.
    pub fn into_parts(self) -> (Kept, X)
        ensures kept { result.0 ≡ self.kept.saved }
        ensures extra { X.state result.1 ≡ cleared self.servers.extra }
    {
        parts_of(Box::into_inner(self.work))
    }

    /// Changes that give the committed contents of the server again where they are applied in order to empty
    /// contents; none of a server whose changes no log keeps.
    pub fn contents(&self, server: ServerNo) -> Result<Changes, NoMemory>
        ensures { IfOk result (λ changes. AreContents (server_at self.now.servers server).kind (server_at self.now.servers server).table changes) }
    {
        self.work.node.servers.contents(server)
    }

    /// What it was made with.
    pub fn setting(&self) -> &Setting
        ensures { result.now ≡ self.now.setting }
    {
        &self.work.node.setting
    }

    /// What it keeps for its clients.
    pub fn kept(&self) -> &Keeping
        ensures { result.now ≡ self.now.kept }
    {
        &self.work.node.kept
    }

    /// Whether some queue of this node has an item.
    pub fn queued(&self) -> bool
        ensures { result ≡ ipc.queued self.now.queues }
    {
        self.work.node.queues.queued()
    }

    /// Whether all that waits at its servers can be counted as it is served: no server is to have served more than
    /// 4,294,967,295 requests of a transaction.
    pub fn may_serve(&self) -> bool
        ensures { result ≡ is_all_counted self.now }
    {
        is_all_counted(&self.work.node)
    }

    /// Whether this node is the home of a transaction that it has not decided.
    pub fn undecided(&self) -> bool
        ensures { result ≡ tm.has_undecided self.now.manager }
    {
        self.work.node.manager.has_undecided()
    }

    /// Whether a server of this node holds changes or reads of a transaction, or is still to learn an outcome.
    pub fn pending(&self) -> bool
        ensures { result ≡ is_pending self.now }
    {
        self.has_holders() || self.work.node.manager.has_learners()
    }

    /// Whether a server of this node holds changes or reads of a transaction.
    fn has_holders(&self) -> bool
        ensures { result ≡ has_holders self.now }
    {
        every_server()
            .iter()
            .any(|server| self.work.node.servers.holds(*server))
    }
}

/// The work of a node that has made no step.
fn work_of<F: Server, X: Server>(
    alloc: Global,
    setting: Setting,
    manager: Manager,
    servers: Servers<F, X>,
    kept: Keeping,
    found: Recovered,
) -> Work<Servers<F, X>>
    ensures { result.node ≡ record { setting = setting; manager = manager; queues = []; servers = servers; kept = kept; commands = []; locals = []; is_first = true; committed = found.committed } }
{
    let node = NodeState {
        setting,
        manager,
        queues: Ipc::new(alloc),
        servers,
        kept,
        commands: Map::new(alloc),
        locals: Map::new(alloc),
        is_first: true,
        committed: found.committed,
    };
    Work {
        node,
        room: 0,
        doings: Map::new(alloc),
        out: no_effects(alloc),
    }
}

/// What the node kept for its clients at the last `accept`, and the further server, emptied. It takes no memory.
fn parts_of<F: Server, X: Server>(work: Work<Servers<F, X>>) -> (Kept, X)
    ensures kept { result.0 ≡ work.node.kept.saved }
    ensures extra { X.state result.1 ≡ cleared work.node.servers.extra }
{
    let Work { node, .. } = work;
    let NodeState { kept, servers, .. } = node;
    (kept.restore(), servers.into_extra())
}

/// The event comes to the node, over a log with `free` bytes free.
fn step<F: Server, X: Server>(
    work: &mut Work<Servers<F, X>>,
    event: Event,
    free: u64,
) -> Result<Effects, NoMemory>
    ensures ok { OnOk result (work.new.node ≡ (step_work work.old.node event free).node) }
    ensures effects { IfOk result (λ out. out ≡ effects_of work.old.node event free) }
    ensures saved { work.new.node.kept.saved ≡ work.old.node.kept.saved }
{
    let alloc = work.node.manager.alloc;
    work.room = free;
    work.doings = Map::new(alloc);
    work.out = no_effects(alloc);
    run(work, event)?;
    Ok(replace(&mut work.out, no_effects(alloc)))
}

/// What a new node takes up from its log. What is kept for clients, as it was handed in, and which server the
/// further one is stay also after a refusal.
fn open_parts<F: Server, X: Server>(
    alloc: Global,
    setting: &Setting,
    found: &Recovered,
    kept: &mut Keeping,
    servers: &mut Servers<F, X>,
) -> Result<Manager, NoMemory>
    requires { servers.old ≡ new_servers (empty_server (kinds.Files setting.now.quota)) (empty_server kinds.Nothing) }
    ensures manager { IfOk result (λ manager. manager ≡ opened_manager alloc setting.now found.now) }
    ensures servers { OnOk result (servers.new ≡ fold keep_changes (opened_servers setting.now.quota found.now) found.now.in_doubt) }
    ensures kept { OnOk result (kept.new ≡ with_now (closed_kept setting.now.node found.now) kept.old) }
    ensures saved { kept.new.saved ≡ kept.old.saved }
    ensures kind { servers.new.extra.kind ≡ kinds.Nothing }
{
    let manager = opened_manager(alloc, setting, found)?;
    open_servers(servers, found)?;
    close_kept(kept, alloc, setting, found)?;
    Ok(manager)
}

/// Nothing to be done. It takes no memory.
fn no_effects(alloc: Global) -> Effects
    ensures { result ≡ no_effects }
{
    Effects {
        records: List::new(alloc),
        force: false,
        messages: List::new(alloc),
        answers: List::new(alloc),
        entries: List::new(alloc),
    }
}

/// What comes is done, then the node settles, and then commands that stayed open are answered.
fn run<F: Server, X: Server>(work: &mut Work<Servers<F, X>>, event: Event) -> Result<(), NoMemory>
    ensures ok { OnOk result (work.new ≡ answer_waiting (settle (happen event (begin_incarnation work.old)))) }
    ensures saved { work.new.node.kept.saved ≡ work.old.node.kept.saved }
{
    let Ok(()) = begin_incarnation(work) else {
        drop(event);
        return Err(NoMemory);
    };
    happen(work, event)?;
    settle(work)?;
    answer_waiting(work)
}

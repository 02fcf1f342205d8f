//! The cell of a node: its visits and restarts, between its clients and its disk.
ghost use Rattle.std.specs.Prelude.{◌≡◌, ◌≤◌, ◌<◌, ◌+◌, ◌-◌, ◌⊎◌, ℕ, true, drop, get_or, length, is_none, is_some, Err, IfOk, IfErr, IfSome, OnOk, OnErr, IsTrue};
ghost use Rattle.std.specs.List.{flat_map, list_any};
ghost use Rattle.qs_base.specs.Causes.{Rose};
ghost use Rattle.qs_cell.specs.Acts.{Acts, BreaksAct, BreaksAsked, BreaksAt, MakesAsked, MakesAt, acts_in, asked_of, first_from, has_event, in_act_as, source_count};
ghost use Rattle.qs_cell.specs.Joined.{HaveSameRings, StayJoined};
ghost use Rattle.qs_cell.specs.Logged.{HasLog, IsLogged, most_rounds};
ghost use Rattle.qs_cell.specs.Hearing.{BreaksBelow, BreaksFrom, BreaksHearing, Hears, HearsBelow, HearsFrom};
ghost use Rattle.qs_cell.specs.Starts.{IsStarted, started_disk, journal_of, post_of, trace_of};
ghost use Rattle.qs_cell.specs.WholeVisits.{Breaks, Visits, has_put};
ghost use Rattle.qs_cell_peers.specs.Links.{AreEmptied, CarriesLink, HasPut, HasPutSome, IsSameNode, KeepsEnds, Pulls, Pushes, StayLinked, has_carried, into_of, is_peer_of, out_of, puts_any, puts_of};
ghost use Rattle.qs_cell.specs.Restart.{in_round_as};
ghost use Rattle.qs_cell.specs.State.{IsSeenAs, LogStands, IsAllowed, StartsAgain, carried_of, cause_of, disk_of, has_undecided, is_settled_node, rounds_of};
ghost use Rattle.qs_cell.specs.Visits.{Turns, IsBroken, TurnsAll, TurnsSome, Grows, sources_of, due, left_by, held_by, as_command, due_command, due_again, left_of, all_delivered, deliver, has_noted, is_noted, MakesIn};
ghost use Rattle.qs_cell_chronicle.specs.Chronicle.{HasRoom};
ghost use Rattle.qs_cell.specs.declared.state.RestartFault.TheVariants as restart_faults;
ghost use Rattle.qs_disk.specs.Disk.{EachImage};
ghost use Rattle.qs_disk.specs.Moments.{Keeps};
ghost use Rattle.qs_log_start.specs.Incarnation.{open_limit, IsTouched, MayLeaveUnraised};
ghost use Rattle.qs_link.specs.Lane.{IsLane};
ghost use Rattle.qs_link.specs.Lanes.{ends_of, SendsTo, SendsFrom, CarriesIn, CarriesOut};
ghost use Rattle.qs_log.specs.Image.{IsDamaged};
ghost use Rattle.qs_log.specs.declared.fault.OpenFault.TheVariants as open_faults;

use crate::opened_with;
use crate::starting::{CellOpen, NodePlan, Started, begin};
use crate::state::{CellState, RestartFault};
use core::mem;
use qs_base::{ClientNo, Copied, List, NoMemory, NodeNo};
use qs_book_journal::{Act, CrashCause, Entry, LineAnswer, ScriptLine};
use qs_book_machine::Opened;
use qs_cell_chronicle::{Carried, HeldCommand, Occasion};
use qs_cell_peers::Links;
use qs_disk::{Disk, Fused};
use qs_link::{Draw, Feed, NodeEnds, carry_in, carry_out, deliver, has_line, take_line};
use qs_log::LogOpen;
use qs_log_start::begin_run;
use qs_node_step::{ClientAnswer, Setting, Step};
use qs_restart::Recovered;
use std::alloc::Global;
use std::marker::Model;

/// The cell of a node: the node over its disk and log, its ends of links and lanes, and what goes through crashes.
#[derive(Drop)]
pub struct NodeCell<D: Disk> {
    alloc: Global,
    state: CellState<D>,
    /// To the other nodes of the run. What stands in them goes through crashes.
    links: Links,
    /// To the node's clients.
    ends: Vec<NodeEnds>,
    /// What its log said as it was started, and for which setting.
    first: Setting,
    found: Recovered,
    /// What the disk itself had counted as it was handed in.
    faults: u64,
}

/// What came of a visit.
#[derive(Clone, Copy)]
pub struct Visited {
    /// A packet was put to a link.
    pub sent: bool,
    /// An entry other than that of a tick was made.
    pub noted: bool,
}

/// The queues and the clock, of which each node has one.
const NODE_SOURCES: usize = 2;

/// Where an event of a visit comes from.
#[derive(Clone, Copy)]
enum EventSource {
    /// The commands of that client.
    Client { client: ClientNo },
    /// The requests that wait in the queues.
    Queues,
    /// Time that passes.
    Clock,
}

impl<D: Disk> Model for NodeCell<D> {
    ghost use Rattle.qs_cell.specs.Starts.{CellValue, IsSound};
    ghost use Rattle.qs_world.specs.Histories.{opened_with};

    ghost Value = { CellValue D };

    ghost view = { λ c. record { alloc = c.alloc; seat = record { node = c.state; ends = c.ends.items }; links = c.links; opened = opened_with c.first c.found; faults = c.faults } };

    ghost invariant = { λ c. IsSound D.told D.state (opened_with c.first c.found) c.state };
}

impl<D: Disk> NodeCell<D> {
    /// The log of the disk is opened, whose slots stand below 2^61, and its incarnation raised, which is that of the setting
    /// from then on; the fuse is armed with the planned stops; and the node begins with what the log says. The links are to the other
    /// nodes, and the ends those of its clients, by number. `DiskFailed` comes only where the disk's own count of faults rose, `NoMemory` where memory
    /// was refused or the fuse tripped.
    pub fn start(
        alloc: Global,
        disk: Fused<D>,
        setting: Setting,
        links: Links,
        ends: Vec<NodeEnds>,
        plan: NodePlan,
    ) -> Result<NodeCell<D>, CellOpen<D>>
        requires batch { setting.extra ≤ 8 }
        requires keep { setting.keep ≤ 144 }
        requires nodes { setting.nodes ≤ 8 }
        requires node { setting.node.0 < setting.nodes }
        ensures started { IfOk result (IsStarted D.told D.state alloc disk.disk setting links ends.items plan) }
        ensures faults { IfOk result (λ cell. cell.faults ≡ D.fault_count disk.disk) }

        // Why it is not started.
        ensures damaged { D.told → IfErr result (λ back. (at : ℕ) → back.why ≡ open_faults.Damaged at → IsDamaged open_limit (D.state disk.disk).content at) }
        ensures failed { IfErr result (λ back. back.why ≡ open_faults.DiskFailed → Rose (D.fault_count disk.disk) (D.fault_count back.disk.disk)) }

        // The disk is changed at most by the raise, and where it failed a power cut may still leave it unraised.
        ensures moments { D.told → Keeps (IsTouched (D.state disk.disk)) (D.state disk.disk) (D.state (started_disk result).disk) }
        ensures kept { D.told → IfErr result (λ back. back.why ≡ open_faults.DiskFailed → MayLeaveUnraised (D.state disk.disk) (D.state back.disk.disk)) }
        ensures size { D.byte_count (started_disk result).disk ≡ D.byte_count disk.disk }
    {
        let NodePlan {
            crashes,
            stops,
            points,
        } = plan;
        let faults = disk.own_faults();
        let log = match begin_run(alloc, disk, stops) {
            Ok(log) => log,
            Err(LogOpen { disk, why }) => {
                drop(crashes);
                drop(points);
                drop(links);
                drop(ends);
                return Err(CellOpen { disk, why });
            },
        };
        let Started { running, found } = match begin(alloc, log, setting, crashes, points) {
            Ok(started) => started,
            Err(back) => {
                drop(links);
                drop(ends);
                return Err(back);
            },
        };
        let first = running.carried.setting;
        Ok(NodeCell {
            alloc,
            state: CellState::Up { running },
            links,
            ends,
            first,
            found,
            faults,
        })
    }

    /// The events of one visit in a round, as long as the node is up: each packet that was carried, of the other nodes by number;
    /// the command of each client, by number, that a crash left unanswered or that was carried, where no other is in hand; the
    /// requests in the queues, where there are any; and a tick. Then all that their steps put goes to the links. No command is
    /// taken from a ring, and no answer pushed into one. After `NoMemory`, which comes where memory was refused, the events that
    /// were made stand, but a packet may be lost, and what the last ones put and answered may not have gone out.
    pub fn visit(&mut self) -> Result<Visited, NoMemory>
        ensures visits { OnOk result (Visits D.told D.state D.fault_count D.byte_count (post_of self.old) (post_of self.new)) }
        ensures sent { IfOk result (λ visited. visited.sent ≡ has_put (trace_of self.old) (trace_of self.new)) }
        ensures noted { IfOk result (λ visited. visited.noted ≡ has_noted (journal_of self.old) (journal_of self.new)) }
        ensures breaks { OnErr result (Breaks D.told D.state D.fault_count D.byte_count (post_of self.old) (post_of self.new)) }
        ensures grows { Grows (journal_of self.old) (journal_of self.new) }
        ensures opened { self.new.opened ≡ self.old.opened }
        ensures faults { self.new.faults ≡ self.old.faults }

        // The links stay those of its node, joined to their other ends, and so do the lanes to the clients' ends.
        ensures links { IsSameNode self.old.links self.new.links }
        ensures linked { StayLinked self.old.links self.new.links }
        ensures rings { HaveSameRings self.old.seat.ends self.new.seat.ends }
        ensures joined { StayJoined self.old.seat.ends self.new.seat.ends }
    {
        let entries = self.journal().len();
        let steps = self.trace().len();
        self.begin_round();
        self.hear_all()?;
        self.turn_all()?;
        let sent = self.put_since(steps)?;
        Ok(Visited {
            sent,
            noted: has_noted(self.journal(), entries),
        })
    }

    /// The packets that were carried, of the other nodes by number.
    fn hear_all(&mut self) -> Result<(), NoMemory>
        ensures hears { OnOk result (HearsBelow D.told D.state D.fault_count D.byte_count self.old.links.size (post_of self.old) (post_of self.new)) }
        ensures breaks { OnErr result (BreaksBelow D.told D.state D.fault_count D.byte_count self.old.links.size (post_of self.old) (post_of self.new)) }
        ensures linked { StayLinked self.old.links self.new.links }
        ensures opened { self.new.opened ≡ self.old.opened }
        ensures faults { self.new.faults ≡ self.old.faults }
        ensures rings { HaveSameRings self.old.seat.ends self.new.seat.ends }
    {
        for from in 0..self.links.count() {
            self.hear_from(from)?;
        }
        Ok(())
    }

    /// Those of a node; none of a number that is no other node of the run.
    fn hear_from(&mut self, from: usize) -> Result<(), NoMemory>
        ensures hears { OnOk result (HearsFrom D.told D.state D.fault_count D.byte_count from (post_of self.old) (post_of self.new)) }
        ensures breaks { OnErr result (BreaksFrom D.told D.state D.fault_count D.byte_count from (post_of self.old) (post_of self.new)) }
        ensures linked { StayLinked self.old.links self.new.links }
        ensures opened { self.new.opened ≡ self.old.opened }
        ensures faults { self.new.faults ≡ self.old.faults }
        ensures rings { HaveSameRings self.old.seat.ends self.new.seat.ends }
    {
        let count = self.links.carried_from(from);
        for _ in 0..count {
            self.hear_next(from)?;
        }
        Ok(())
    }

    /// The next packet of another node, where the node is up: it is taken in, and its answers go out.
    fn hear_next(&mut self, from: usize) -> Result<(), NoMemory>
        requires { is_peer_of self.old.links from ≡ true }
        ensures hears { OnOk result (Hears D.told D.state D.fault_count D.byte_count from (post_of self.old) (post_of self.new)) }
        ensures breaks { OnErr result (BreaksHearing D.told D.state D.fault_count D.byte_count from (post_of self.old) (post_of self.new)) }
        ensures keeps { OnErr result (KeepsEnds self.old.links self.new.links) }
        ensures linked { StayLinked self.old.links self.new.links }
        ensures opened { self.new.opened ≡ self.old.opened }
        ensures faults { self.new.faults ≡ self.old.faults }
        ensures rings { HaveSameRings self.old.seat.ends self.new.seat.ends }
    {
        self.state.make_room()?;
        if self.state.cause().is_some() {
            return Ok(());
        }
        let Some(packet) = self.links.take_carried(from)? else {
            return Ok(());
        };
        let answers = self.state.hear(self.alloc, packet);
        deliver_all(&mut self.ends, answers)
    }

    /// What the steps behind so many put goes to the links. It answers whether that is anything.
    fn put_since(&mut self, before: usize) -> Result<bool, NoMemory>
        ensures put { OnOk result (HasPut (flat_map puts_of (drop before (trace_of self.old))) self.old.links self.new.links) }
        ensures some { OnErr result (HasPutSome (flat_map puts_of (drop before (trace_of self.old))) self.old.links self.new.links) }
        ensures any { IfOk result (λ any. any ≡ list_any puts_any (drop before (trace_of self.old))) }
        ensures linked { StayLinked self.old.links self.new.links }
        ensures seat { self.new.seat ≡ self.old.seat }
        ensures opened { self.new.opened ≡ self.old.opened }
        ensures faults { self.new.faults ≡ self.old.faults }
    {
        let steps = self.state.carried().chronicle.trace();
        match steps.get(before..) {
            Some(steps) => self.links.put_steps(steps),
            None => Ok(false),
        }
    }

    /// One more visit.
    fn begin_round(&mut self)
        ensures node { IsSeenAs in_round_as self.old.seat.node self.new.seat.node }
        ensures ends { self.new.seat.ends ≡ self.old.seat.ends }
        ensures links { self.new.links ≡ self.old.links }
        ensures opened { self.new.opened ≡ self.old.opened }
        ensures faults { self.new.faults ≡ self.old.faults }
    {
        self.state.begin_round();
    }

    /// The turn of each source of a visit.
    fn turn_all(&mut self) -> Result<(), NoMemory>
        ensures turns { OnOk result (TurnsAll D.told D.state D.fault_count D.byte_count (sources_of self.old.seat.ends) self.old.seat self.new.seat) }
        ensures breaks { OnErr result (TurnsSome D.told D.state D.fault_count D.byte_count (sources_of self.old.seat.ends) self.old.seat self.new.seat) }
        ensures links { self.new.links ≡ self.old.links }
        ensures opened { self.new.opened ≡ self.old.opened }
        ensures faults { self.new.faults ≡ self.old.faults }
        ensures rings { HaveSameRings self.old.seat.ends self.new.seat.ends }
    {
        for place in 0..source_count(self.ends.as_slice()) {
            let source = source_at(self.ends.as_slice(), place);
            self.turn(source)?;
        }
        Ok(())
    }

    /// The event of that source, if one is due, and its answers.
    fn turn(&mut self, source: EventSource) -> Result<(), NoMemory>
        ensures turns { OnOk result (Turns D.told D.state D.fault_count D.byte_count source self.old.seat self.new.seat) }
        ensures breaks { OnErr result (IsBroken D.told D.state D.fault_count D.byte_count source self.old.seat self.new.seat) }
        ensures links { self.new.links ≡ self.old.links }
        ensures opened { self.new.opened ≡ self.old.opened }
        ensures faults { self.new.faults ≡ self.old.faults }
        ensures rings { HaveSameRings self.old.seat.ends self.new.seat.ends }
    {
        self.state.make_room()?;
        let Some(occasion) = next(&self.state, &mut self.ends, source)? else {
            return Ok(());
        };
        let answers = self.state.event(self.alloc, occasion);
        deliver_all(&mut self.ends, answers)
    }

    /// An act in a burst. What stands in the rings of the links to this node is moved into their inboxes; then one event is made, if the node is
    /// up and one is due: of the sources, which are the other nodes by number, the clients by number and the queues, the first that has one,
    /// beginning one place further with each act; and what its step puts goes to the links, and on into their rings while these take it. The
    /// other ends of the links may be used in other threads meanwhile. After `NoMemory`, which comes where memory was refused outside a step,
    /// what was done stands, but a packet may be lost, and what the step put and answered may not have gone out.
    pub fn act(&mut self) -> Result<(), NoMemory>
        ensures acts { OnOk result (Acts D.told D.state D.fault_count D.byte_count (post_of self.old) (post_of self.new)) }
        ensures breaks { OnErr result (BreaksAct D.told D.state D.fault_count D.byte_count (post_of self.old) (post_of self.new)) }
        ensures grows { Grows (journal_of self.old) (journal_of self.new) }
        ensures opened { self.new.opened ≡ self.old.opened }
        ensures faults { self.new.faults ≡ self.old.faults }

        // The links stay those of its node, joined to their other ends, and so do the lanes to the clients' ends.
        ensures links { IsSameNode self.old.links self.new.links }
        ensures linked { StayLinked self.old.links self.new.links }
        ensures joined { StayJoined self.old.seat.ends self.new.seat.ends }
    {
        let steps = self.trace().len();
        self.begin_act();
        self.pull()?;
        self.make_asked()?;
        self.put_since(steps)?;
        self.push();
        Ok(())
    }

    /// One more act.
    fn begin_act(&mut self)
        ensures node { IsSeenAs in_act_as self.old.seat.node self.new.seat.node }
        ensures ends { self.new.seat.ends ≡ self.old.seat.ends }
        ensures links { self.new.links ≡ self.old.links }
        ensures opened { self.new.opened ≡ self.old.opened }
        ensures faults { self.new.faults ≡ self.old.faults }
    {
        self.state.begin_act();
    }

    /// What stands in the rings of the links to this node is moved into their inboxes. After `NoMemory`, which comes where memory was refused,
    /// that of the first ones was.
    fn pull(&mut self) -> Result<(), NoMemory>
        ensures pulls { Pulls self.old.links self.new.links }
        ensures emptied { OnOk result (AreEmptied self.new.links) }
        ensures seat { self.new.seat ≡ self.old.seat }
        ensures opened { self.new.opened ≡ self.old.opened }
        ensures faults { self.new.faults ≡ self.old.faults }
    {
        self.links.pull_all()
    }

    /// What was put to the links goes on into their rings, while these take it.
    fn push(&mut self)
        ensures pushes { Pushes self.old.links self.new.links }
        ensures seat { self.new.seat ≡ self.old.seat }
        ensures opened { self.new.opened ≡ self.old.opened }
        ensures faults { self.new.faults ≡ self.old.faults }
    {
        self.links.push_all();
    }

    /// The event of an act, if one is due of a source, and its answers.
    fn make_asked(&mut self) -> Result<(), NoMemory>
        ensures makes { OnOk result (MakesAsked (asked_of (post_of self.old)) D.told D.state D.fault_count D.byte_count (post_of self.old) (post_of self.new)) }
        ensures breaks { OnErr result (BreaksAsked (asked_of (post_of self.old)) D.told D.state D.fault_count D.byte_count (post_of self.old) (post_of self.new)) }
        ensures linked { StayLinked self.old.links self.new.links }
        ensures opened { self.new.opened ≡ self.old.opened }
        ensures faults { self.new.faults ≡ self.old.faults }
        ensures rings { HaveSameRings self.old.seat.ends self.new.seat.ends }
    {
        match self.asked() {
            Some(place) => self.make_at(place),
            None => Ok(()),
        }
    }

    /// The place of the source whose event an act makes, if one is due.
    fn asked(&self) -> Option<usize>
        ensures asked { result ≡ asked_of (post_of self.now) }
        ensures within { IfSome result (λ place. place < source_count self.now.links self.now.seat.ends) }
        ensures due { IfSome result (λ place. has_event (post_of self.now) place ≡ true) }
    {
        let count = self.links.count() + (self.ends.len() + 1);
        let start = (self.acts() % count as u64) as usize;
        match self.first_from(start, count) {
            Some(place) => Some(place),
            None => self.first_from(0, start),
        }
    }

    /// The first place from `at` on, and before `end`, of whose source an event is due.
    fn first_from(&self, at: usize, end: usize) -> Option<usize>
        requires order { at ≤ end }
        requires end { end ≤ source_count self.now.links self.now.seat.ends }
        ensures first { result ≡ first_from (has_event (post_of self.now)) at (end - at) }
        ensures within { IfSome result (λ place. place < end) }
        ensures due { IfSome result (λ place. has_event (post_of self.now) place ≡ true) }
    {
        if at == end {
            return None;
        }
        if self.has_event(at) {
            return Some(at);
        }
        self.first_from(at + 1, end)
    }

    /// Whether an event is due of the source at that place.
    fn has_event(&self, place: usize) -> bool
        requires { place < source_count self.now.links self.now.seat.ends }
        ensures { result ≡ has_event (post_of self.now) place }
    {
        let nodes = self.links.count();
        if place < nodes {
            return self.is_up() && self.links.carried_from(place) > 0;
        }
        let source = source_at(self.ends.as_slice(), place - nodes);
        is_due(&self.state, self.ends.as_slice(), source)
    }

    /// The event of the source at that place, which is due, and its answers.
    fn make_at(&mut self, place: usize) -> Result<(), NoMemory>
        requires within { place < source_count self.old.links self.old.seat.ends }
        requires due { has_event (post_of self.old) place ≡ true }
        ensures makes { OnOk result (MakesAt D.told D.state D.fault_count D.byte_count place (post_of self.old) (post_of self.new)) }
        ensures breaks { OnErr result (BreaksAt D.told D.state D.fault_count D.byte_count place (post_of self.old) (post_of self.new)) }
        ensures linked { StayLinked self.old.links self.new.links }
        ensures opened { self.new.opened ≡ self.old.opened }
        ensures faults { self.new.faults ≡ self.old.faults }
        ensures rings { HaveSameRings self.old.seat.ends self.new.seat.ends }
    {
        let nodes = self.links.count();
        if place < nodes {
            return self.hear_next(place);
        }
        let source = source_at(self.ends.as_slice(), place - nodes);
        self.turn(source)
    }

    /// A node that is down starts again, and the answer says whether it is up: it is not exactly where the fuse tripped in
    /// this call. `DiskFailed` comes only where the disk's own count of faults rose, in this call and since the disk was handed
    /// in; `NoMemory` where memory was refused, or a fault of the disk is not borne out by that count; `Damaged` never within
    /// 2^61 - 2 rounds, over a disk that tells. The node is still down then. A node that is up is left alone.
    pub fn restart(&mut self) -> Result<bool, RestartFault>
        ensures starts { StartsAgain D.told D.state D.fault_count D.byte_count self.old.alloc self.old.seat.node self.new.seat.node result }
        ensures failed { result ≡ Err restart_faults.DiskFailed → Rose self.old.faults (D.fault_count (disk_of self.new.seat.node).disk) }
        ensures damaged { D.told → (at : ℕ) → result ≡ Err (restart_faults.Damaged at) → most_rounds < rounds_of self.old.seat.node }
        ensures grows { Grows (journal_of self.old) (journal_of self.new) }
        ensures ends { self.new.seat.ends ≡ self.old.seat.ends }
        ensures links { self.new.links ≡ self.old.links }
        ensures opened { self.new.opened ≡ self.old.opened }
        ensures faults { self.new.faults ≡ self.old.faults }
    {
        let answer = mem::replace_with(
            &mut self.state,
            self.alloc,
            |state, alloc|
                requires stands { D.told → LogStands D.state state }
                requires allowed { IsAllowed (carried_of state) }
                ensures starts { StartsAgain D.told D.state D.fault_count D.byte_count alloc state result.0 result.1 }
                ensures stands { D.told → LogStands D.state result.0 }
                ensures allowed { IsAllowed (carried_of result.0) }
            { state.restart(alloc) },
        );
        founded(answer, self.faults, self.state.own_faults())
    }

    /// Moves what the client has sent into the inbox of its lane here, and says how many commands that then holds. After
    /// `NoMemory`, which comes where memory was refused, a front was moved and nothing is lost. A client that has no lanes
    /// here has sent nothing.
    pub fn carry_commands(
        &mut self,
        client: ClientNo,
        from: &mut Feed<ScriptLine>,
    ) -> Result<usize, NoMemory>
        requires { SendsTo from.old (ends_of client self.old.seat.ends) }
        ensures carries { CarriesIn client from.old from.new self.old.seat.ends self.new.seat.ends result (ends_of client self.old.seat.ends) }
        ensures node { self.new.seat.node ≡ self.old.seat.node }
        ensures links { self.new.links ≡ self.old.links }
        ensures opened { self.new.opened ≡ self.old.opened }
        ensures faults { self.new.faults ≡ self.old.faults }
        ensures joined { StayJoined self.old.seat.ends self.new.seat.ends }
    {
        carry_in(self.ends.as_mut_slice(), client, from)
    }

    /// Moves what was sent to the client into the inbox of its lane there, as `carry_commands`.
    pub fn carry_answers(
        &mut self,
        client: ClientNo,
        to: &mut Draw<LineAnswer>,
    ) -> Result<usize, NoMemory>
        requires { SendsFrom (ends_of client self.old.seat.ends) to.old }
        ensures carries { CarriesOut client to.old to.new self.old.seat.ends self.new.seat.ends result (ends_of client self.old.seat.ends) }
        ensures node { self.new.seat.node ≡ self.old.seat.node }
        ensures links { self.new.links ≡ self.old.links }
        ensures opened { self.new.opened ≡ self.old.opened }
        ensures faults { self.new.faults ≡ self.old.faults }
        ensures joined { StayJoined self.old.seat.ends self.new.seat.ends }
    {
        carry_out(self.ends.as_mut_slice(), client, to)
    }

    /// Moves what stands on the link from the node of another cell into the inbox of its link here, and says how many packets that
    /// then holds. After `NoMemory`, which comes where memory was refused, a front was moved and nothing is lost.
    pub fn carry_packets(&mut self, from: &mut NodeCell<D>) -> Result<usize, NoMemory>
        requires peer { is_peer_of self.old.links from.old.links.me.0 ≡ true }
        requires its { is_peer_of from.old.links self.old.links.me.0 ≡ true }
        requires lane { IsLane (out_of from.old.links self.old.links.me.0).feed (into_of self.old.links from.old.links.me.0) }
        ensures carries { CarriesLink result from.old.links from.new.links self.old.links self.new.links }
        ensures own { self.new ≡ record self.old { links = self.new.links } }
        ensures its { from.new ≡ record from.old { links = from.new.links } }
    {
        self.links.carry(&mut from.links)
    }

    /// Whether a packet was carried and not taken.
    pub fn has_packets(&self) -> bool
        ensures { result ≡ has_carried self.now.links }
    {
        self.links.has_carried()
    }

    /// The number of its node, by its links.
    pub fn node(&self) -> NodeNo
        ensures { result ≡ self.now.links.me }
    {
        self.links.node()
    }

    /// Whether the node is up.
    pub fn is_up(&self) -> bool
        ensures { result ≡ is_none (cause_of self.now.seat.node) }
    {
        self.cause().is_none()
    }

    /// Why the node is down; `None` exactly where it is up.
    pub fn cause(&self) -> Option<CrashCause>
        ensures { result ≡ cause_of self.now.seat.node }
    {
        self.state.cause()
    }

    /// The entries so far, in order.
    pub fn journal(&self) -> &[Entry]
        ensures { result.now ≡ journal_of self.now }
    {
        self.state.carried().chronicle.journal()
    }

    /// The steps so far, in order.
    pub fn trace(&self) -> &[Step]
        ensures { result.now ≡ trace_of self.now }
    {
        self.state.carried().chronicle.trace()
    }

    /// How many acts it made in bursts.
    pub fn acts(&self) -> u64
        ensures { result ≡ acts_in self.now.seat.node }
    {
        self.state.carried().chronicle.acts()
    }

    /// How often it was visited or restarted.
    pub fn rounds(&self) -> u64
        ensures { result ≡ (carried_of self.now.seat.node).chronicle.told.rounds }
    {
        self.state.carried().chronicle.rounds()
    }

    /// What its log held as it was started, with the incarnation that it was raised to. The only error is a refusal of
    /// memory.
    pub fn opened(&self) -> Result<Opened, NoMemory>
        ensures { IfOk result (λ opened. opened ≡ self.now.opened) }
    {
        opened_with(self.alloc, &self.first, &self.found)
    }

    /// Whether the node is up and the home of a transaction that it has not decided.
    pub fn undecided(&self) -> bool
        ensures { result ≡ has_undecided self.now.seat.node }
    {
        self.state.undecided()
    }

    /// Whether the node is up, has decided each transaction of which it is the home, and its log has no record of a
    /// transaction that is not ended.
    pub fn settled(&self) -> bool
        ensures { result ≡ is_settled_node self.now.seat.node }
    {
        self.state.settled()
    }

    /// The disk of its log.
    pub fn into_disk(self) -> Fused<D>
        ensures { result ≡ disk_of self.seat.node }
    {
        self.state.into_disk()
    }

    /// The disk of its log, and the entries and the steps so far, in order. It takes no memory.
    pub fn into_parts(self) -> (Fused<D>, List<Entry>, List<Step>)
        ensures disk { result.0 ≡ disk_of self.seat.node }
        ensures journal { result.1 ≡ journal_of self }
        ensures trace { result.2 ≡ trace_of self }

        // Each image of the disk has a log that goes on from what the log held as the cell was started, and they have the records
        // of one log or of another; of a node that is up they are those of its own.
        ensures logged { D.told → EachImage (HasLog self.opened) (D.state result.0.disk).now }
        ensures records { D.told → IsLogged self.opened (D.state result.0.disk).now }
        ensures stands { D.told → LogStands D.state self.seat.node }
    {
        self.state.into_parts()
    }
}

/// A fault of the disk is told only where its own count rose since the disk was handed in, and a refusal of memory in place of
/// one that is not borne out: a log tells that the count of fuse and disk together does not fall, and of the disk's own nothing.
fn founded(answer: Result<bool, RestartFault>, before: u64, now: u64) -> Result<bool, RestartFault>
    ensures answer { (result ≡ answer) ⊎ ((answer ≡ Err restart_faults.DiskFailed) × (result ≡ Err restart_faults.NoMemory)) }
    ensures failed { result ≡ Err restart_faults.DiskFailed → Rose before now }
{
    if rose(before, now) {
        return answer;
    }
    match answer {
        Err(RestartFault::DiskFailed) => Err(RestartFault::NoMemory),
        answer => answer,
    }
}

/// Whether a count rose, or stands at its last value.
fn rose(before: u64, now: u64) -> bool
    ensures { IsTrue result → Rose before now }
{
    now > before || now == u64::MAX
}

/// Whether an event of that source is due.
fn is_due<D: Disk>(state: &CellState<D>, ends: &[NodeEnds], source: EventSource) -> bool
    ensures { result ≡ is_some (due source state.now ends.now) }
{
    if state.cause().is_some() {
        return false;
    }
    match source {
        EventSource::Client { client } => has_command(state.carried(), ends, client),
        EventSource::Queues => state.queued(),
        EventSource::Clock => true,
    }
}

/// Whether a command of a client is due: one that an earlier incarnation took, or, where none is in hand, one that was carried.
fn has_command(carried: &Carried, ends: &[NodeEnds], client: ClientNo) -> bool
    ensures { result ≡ is_some (due_command client carried.now ends.now) }
{
    match carried.commands.get(&client) {
        Some(held) => held.inc != carried.setting.inc,
        None => has_line(ends, client),
    }
}

/// How many sources a visit has.
fn source_count(ends: &[NodeEnds]) -> usize
    ensures { result ≡ length (sources_of ends.now) }
{
    ends.len() + NODE_SOURCES
}

/// The source at a place: the clients in order, then the queues, then the clock.
fn source_at(ends: &[NodeEnds], place: usize) -> EventSource
    requires { place < length (sources_of ends.now) }
    ensures { (other : EventSource) → result ≡ get_or (sources_of ends.now) place other }
{
    if place < ends.len() {
        EventSource::Client {
            client: ends[place].client,
        }
    } else if place == ends.len() {
        EventSource::Queues
    } else {
        EventSource::Clock
    }
}

/// The event that is due of that source; none of a node that is down. After `NoMemory`, which comes where memory was
/// refused, all is as it was.
fn next<D: Disk>(
    state: &CellState<D>,
    ends: &mut Vec<NodeEnds>,
    source: EventSource,
) -> Result<Option<Occasion>, NoMemory>
    ensures due { IfOk result (λ occasion. occasion ≡ due source state.now ends.old.items) }
    ensures left { OnOk result (ends.new.items ≡ left_by source state.now ends.old.items) }
    ensures err { OnErr result (ends.new.items ≡ ends.old.items) }
{
    if state.cause().is_some() {
        return Ok(None);
    }
    match source {
        EventSource::Client { client } => next_command(state.carried(), ends, client),
        EventSource::Queues if state.queued() => Ok(Some(Occasion::Queues)),
        EventSource::Queues => Ok(None),
        EventSource::Clock => Ok(Some(Occasion::Clock)),
    }
}

/// The command of a client: one that an earlier incarnation took, or, where none is in hand, the next of its lane.
fn next_command(
    carried: &Carried,
    ends: &mut Vec<NodeEnds>,
    client: ClientNo,
) -> Result<Option<Occasion>, NoMemory>
    ensures due { IfOk result (λ occasion. occasion ≡ due_command client carried.now ends.old.items) }
    ensures left { OnOk result (ends.new.items ≡ left_of client (held_by client carried.now) ends.old.items) }
    ensures err { OnErr result (ends.new.items ≡ ends.old.items) }
{
    match carried.commands.get(&client) {
        Some(held) => held_command(held, carried.setting.inc),
        None => Ok(as_command(take_line(ends.as_mut_slice(), client))),
    }
}

/// A command in hand is due again where an earlier incarnation took it.
fn held_command(held: &HeldCommand, inc: u64) -> Result<Option<Occasion>, NoMemory>
    ensures { IfOk result (λ occasion. occasion ≡ due_again inc held.now) }
{
    if held.inc == inc {
        return Ok(None);
    }
    Ok(Some(Occasion::Command {
        line: held.line.copy()?,
    }))
}

fn as_command(line: Option<ScriptLine>) -> Option<Occasion>
    ensures { result ≡ as_command line }
{
    match line {
        Some(line) => Some(Occasion::Command { line }),
        None => None,
    }
}

/// Puts answers into the lanes of their clients, in order. After `NoMemory`, which comes where memory was refused, a front
/// was put.
fn deliver_all(ends: &mut Vec<NodeEnds>, answers: List<ClientAnswer>) -> Result<(), NoMemory>
    ensures ok { OnOk result (ends.new.items ≡ all_delivered answers ends.old.items) }
    ensures rings { HaveSameRings ends.old.items ends.new.items }
{
    for said in answers.into_vec() {
        deliver_one(ends, said)?;
    }
    Ok(())
}

fn deliver_one(ends: &mut Vec<NodeEnds>, said: ClientAnswer) -> Result<(), NoMemory>
    ensures ok { OnOk result (ends.new.items ≡ deliver ends.old.items said) }
    ensures err { OnErr result (ends.new.items ≡ ends.old.items) }
{
    deliver(ends.as_mut_slice(), said.client, said.answer)
}

/// Whether some entry behind so many is not that of a tick.
fn has_noted(entries: &[Entry], before: usize) -> bool
    ensures { result ≡ list_any is_noted (drop before entries.now) }
{
    match entries.get(before..) {
        Some(entries) => any_noted(entries),
        None => false,
    }
}

fn any_noted(entries: &[Entry]) -> bool
    ensures { result ≡ list_any is_noted entries.now }
{
    entries.iter().any(is_noted)
}

fn is_noted(entry: &Entry) -> bool
    ensures { result ≡ is_noted entry.now }
{
    !matches!(&entry.act, Act::Tick)
}

//! The sites of a run, and a round over them all.
ghost use Rattle.std.specs.Prelude.{◌≡◌, ◌<◌, ◌+◌, ◌&&◌, ◌||◌, not, length, slice_get, Err, IfOk, OnErr, OnOk};
ghost use Rattle.std.specs.List.{list_all, list_any};
ghost use Rattle.qs_base.specs.declared.identifiers.NodeNo.{NodeNo};
ghost use Rattle.qs_world_rounds.specs.Rounds.{is_up};
ghost use Rattle.qs_world_rounds.specs.Turns.{TakesSome};
ghost use Rattle.qs_world_rounds.specs.declared.faults.RoundFault.TheVariants as faults;
ghost use Rattle.qs_world_sites.specs.Breaks.{BreaksRound, FailsAt, HasRisen, RefusedAt, RefusesRound, VisitsUntil};
ghost use Rattle.qs_world_sites.specs.Bursts.{AreFifoSites, Bursts, IsRefusedBurst};
ghost use Rattle.qs_world_sites.specs.Late.{IsLate, RisesBy};
ghost use Rattle.qs_world_sites.specs.Rounds.{IsRound, VisitAll, VisitAt, all_ended, all_up, any_packets, are_settled};
ghost use Rattle.qs_world_sites.specs.Sites.{AreCarried, AreLinked, Each, GoesOn, HasSameCell, count_of, has_packets};

use crate::bursts::take_all;
use crate::carrying::{carry_all, carry_links};
use crate::turn::Turn;
use crate::visits::visit_turn;
use qs_base::NoMemory;
use qs_disk::Disk;
use qs_io::Gate;
use qs_world_rounds::{Actors, RoundEnd, RoundFault};
use std::marker::Model;
use std::thread::Threads;

/// The sites of a run, each a node with its clients, and whom each place in the order of a round means.
#[derive(Drop)]
pub struct Sites<D: Disk> {
    /// By the numbers of their nodes.
    sites: Vec<Actors<D>>,
    turns: Vec<Turn>,
}

impl<D: Disk> Model for Sites<D> {
    ghost use Rattle.qs_world_sites.specs.Sites.{AreLinked, SitesValue};

    ghost Value = { SitesValue D };

    ghost view = { λ a. record { sites = a.sites.items; turns = a.turns.items } };

    ghost invariant = { λ a. AreLinked a.sites.items };
}

impl<D: Disk> Sites<D> {
    /// These sites, whose links are joined, by the numbers of their nodes; and whom each place means.
    pub fn new(sites: Vec<Actors<D>>, turns: Vec<Turn>) -> Sites<D>
        requires { AreLinked sites.items }
        ensures { result ≡ record { sites = sites.items; turns = turns.items } }
    {
        Sites { sites, turns }
    }

    /// The sites, by the numbers of their nodes.
    pub fn sites(&self) -> &[Actors<D>]
        ensures { result.now ≡ self.now.sites }
    {
        self.sites.as_slice()
    }

    /// The sites, by value.
    pub fn into_sites(self) -> Vec<Actors<D>>
        ensures { result.items ≡ self.sites }
    {
        self.sites
    }

    /// How many actors they are.
    pub fn count(&self) -> usize
        ensures { result ≡ count_of self.now }
    {
        self.turns.len()
    }

    /// What stands in the lanes and on the links is carried to their ends, and each actor is visited once, in the order of these places. A
    /// fault of a disk is told with its node, which was down and could not be started again for it; it comes only where the disk's own
    /// count of faults rose since it was handed in. `NoMemory` comes where memory was refused, be it within a step of a node; each visit
    /// before that was made. `Damaged` comes where a log opened as damaged as its node was started again, which over a disk that
    /// tells it never does within 2^61 - 2 visits and restarts.
    pub fn round(&mut self, order: &[usize]) -> Result<RoundEnd, RoundFault>
        ensures round { IfOk result (λ end. IsRound D.told D.state D.fault_count D.byte_count order.now self.old self.new end.quiet) }
        ensures broken { (node : NodeNo) → result ≡ Err (faults.DiskFault node) → BreaksRound D.told D.state D.fault_count D.byte_count order.now node self.old self.new }
        ensures refused { result ≡ Err faults.NoMemory → RefusesRound D.told D.state D.fault_count D.byte_count order.now self.old self.new }
        ensures damaged { D.told → result ≡ Err faults.Damaged → IsLate (length order.now) self.old.sites }
        ensures joined { AreFifoSites self.old.sites }
        ensures rises { OnOk result (Each (RisesBy (length order.now)) self.old.sites self.new.sites) }
        ensures stays { Each GoesOn self.old.sites self.new.sites }
    {
        let up = self.all_up();
        self.carry()?;
        let packets = self.any_packets();
        let did = self.visit_all(order)?;
        Ok(RoundEnd {
            quiet: is_quiet(up, packets, did),
        })
    }

    /// Each ring of a link is looked at from both ends, now that the threads have joined; what stands on the link may be carried by that.
    fn look(&mut self)
        ensures joined { AreFifoSites self.old.sites }
        ensures cells { Each HasSameCell self.old.sites self.new.sites }
        ensures turns { self.new.turns ≡ self.old.turns }
    {
        // (a refusal is told already)
        let _ = carry_links(self.sites.as_mut_slice());
    }

    /// What stands in each lane and on each link is carried into the inbox of its receiver.
    fn carry(&mut self) -> Result<(), NoMemory>
        ensures carries { OnOk result (AreCarried self.old.sites self.new.sites) }
        ensures joined { AreFifoSites self.old.sites }
        ensures cells { Each HasSameCell self.old.sites self.new.sites }
        ensures turns { self.new.turns ≡ self.old.turns }
    {
        carry_all(self.sites.as_mut_slice())
    }

    /// The visits of the actors at these places of the order, and whether anything was done in one.
    fn visit_all(&mut self, order: &[usize]) -> Result<bool, RoundFault>
        ensures visits { IfOk result (VisitAll D.told D.state D.fault_count D.byte_count order.now self.old self.new) }
        ensures broken { (node : NodeNo) → result ≡ Err (faults.DiskFault node) → VisitsUntil D.told D.state D.fault_count D.byte_count (FailsAt D.told D.state D.fault_count D.byte_count node) order.now self.old self.new }
        ensures rose { (node : NodeNo) → result ≡ Err (faults.DiskFault node) → HasRisen D.fault_count node self.old.sites self.new.sites }
        ensures refused { result ≡ Err faults.NoMemory → VisitsUntil D.told D.state D.fault_count D.byte_count (RefusedAt D.told D.state D.fault_count D.byte_count) order.now self.old self.new }
        ensures damaged { D.told → result ≡ Err faults.Damaged → IsLate (length order.now) self.old.sites }
        ensures rises { OnOk result (Each (RisesBy (length order.now)) self.old.sites self.new.sites) }
        ensures stays { Each GoesOn self.old.sites self.new.sites }
    {
        let mut did = false;
        for place in order {
            let more = self.visit(*place)?;
            did = either(did, more);
        }
        Ok(did)
    }

    /// The visit of the actor whom the place means, and whether anything was done in it.
    fn visit(&mut self, place: usize) -> Result<bool, RoundFault>
        ensures visits { IfOk result (VisitAt D.told D.state D.fault_count D.byte_count place self.old self.new) }
        ensures broken { (node : NodeNo) → result ≡ Err (faults.DiskFault node) → FailsAt D.told D.state D.fault_count D.byte_count node place self.old self.new }
        ensures rose { (node : NodeNo) → result ≡ Err (faults.DiskFault node) → HasRisen D.fault_count node self.old.sites self.new.sites }
        ensures refused { result ≡ Err faults.NoMemory → RefusedAt D.told D.state D.fault_count D.byte_count place self.old self.new }
        ensures damaged { D.told → result ≡ Err faults.Damaged → IsLate 0 self.old.sites }
        ensures rises { OnOk result (Each (RisesBy 1) self.old.sites self.new.sites) }
        ensures stays { Each GoesOn self.old.sites self.new.sites }
    {
        if place < self.turns.len() {
            let turn = self.turns[place];
            return visit_turn(&mut self.sites, turn);
        }
        Ok(false)
    }

    /// Whether each node is up.
    pub fn all_up(&self) -> bool
        ensures { result ≡ all_up self.now }
    {
        self.sites.iter().all(is_up)
    }

    /// Whether a packet that was carried to a node waits there.
    fn any_packets(&self) -> bool
        ensures { result ≡ any_packets self.now }
    {
        self.sites.iter().any(has_packets)
    }

    /// Whether each client stands at the end of its script.
    pub fn all_ended(&self) -> bool
        ensures { result ≡ all_ended self.now }
    {
        self.sites.iter().all(Actors::all_ended)
    }

    /// Whether each client stands at the end of its script, and no transaction is unended at a node.
    pub fn are_settled(&self) -> bool
        ensures { result ≡ are_settled self.now }
    {
        self.sites.iter().all(Actors::are_settled)
    }
}

impl<D: Disk + Send> Sites<D> {
    /// A burst: each site takes so many turns, side by side with the others, in threads where these can be made. After `NoMemory`, which comes where
    /// memory was refused at one site or at several, be it within a step of a node, the others took all their turns.
    pub fn burst<R: Threads + Sync, G: Gate + Sync>(
        &mut self,
        rt: &R,
        gate: &G,
        turns: u32,
    ) -> Result<(), NoMemory>
        ensures bursts { OnOk result (Bursts D.told D.state D.fault_count D.byte_count turns self.old.sites self.new.sites) }
        ensures refused { OnErr result (IsRefusedBurst D.told D.state D.fault_count D.byte_count turns self.old.sites self.new.sites) }
        ensures turns { self.new.turns ≡ self.old.turns }
        ensures rises { OnOk result (Each (RisesBy 0) self.old.sites self.new.sites) }
        ensures stays { Each GoesOn self.old.sites self.new.sites }
    {
        if turns == 0 {
            return Ok(());
        }
        match self.take_turns(rt, gate, turns) {
            Ok(()) => Ok(()),
            Err(refused) => {
                self.look();
                Err(refused)
            }
        }
    }

    /// The turns of each site.
    fn take_turns<R: Threads + Sync, G: Gate + Sync>(
        &mut self,
        rt: &R,
        gate: &G,
        turns: u32,
    ) -> Result<(), NoMemory>
        ensures bursts { OnOk result (Bursts D.told D.state D.fault_count D.byte_count turns self.old.sites self.new.sites) }
        ensures some { Each (TakesSome D.told D.state D.fault_count D.byte_count turns) self.old.sites self.new.sites }
        ensures turns { self.new.turns ≡ self.old.turns }
        ensures stays { Each GoesOn self.old.sites self.new.sites }
    {
        take_all(rt, gate, turns, self.sites.as_mut_slice())
    }
}

/// Whether the node is up.
fn is_up<D: Disk>(site: &Actors<D>) -> bool
    ensures { result ≡ is_up site.now.node }
{
    site.node().is_up()
}

/// Whether a packet that was carried to the node waits there.
fn has_packets<D: Disk>(site: &Actors<D>) -> bool
    ensures { result ≡ has_packets site.now }
{
    site.node().has_packets()
}

/// A round is quiet where each node was up as it began, no packet stood on a link, and nothing was done in it.
fn is_quiet(up: bool, packets: bool, did: bool) -> bool
    ensures { result ≡ (up && (not packets && not did)) }
{
    up && !packets && !did
}

fn either(first: bool, second: bool) -> bool
    ensures { result ≡ (first || second) }
{
    first || second
}

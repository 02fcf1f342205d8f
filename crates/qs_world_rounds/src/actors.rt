//! The actors of a node, itself and its clients, in a round of which each is visited once.
ghost use Rattle.std.specs.Prelude.{◌≡◌, ◌||◌, true, ◌<◌, length, suc, IfOk, OnErr, OnOk, Err};
ghost use Rattle.qs_base.specs.declared.identifiers.NodeNo.{NodeNo};
ghost use Rattle.qs_cell.specs.Logged.{most_rounds};
ghost use Rattle.qs_cell.specs.Starts.{journal_of};
ghost use Rattle.qs_cell.specs.Visits.{Grows};
ghost use Rattle.qs_cell_peers.specs.Links.{CarriesLink, StayLinked, into_of, is_peer_of, out_of};
ghost use Rattle.qs_link.specs.Lane.{IsLane};
ghost use Rattle.qs_world_rounds.specs.Breaks.{FailsAt, RefusedAt};
ghost use Rattle.qs_world_rounds.specs.Lanes.{AreJoined};
ghost use Rattle.std.specs.List.{list_all};
ghost use Rattle.qs_world_rounds.specs.Rounds.{has_ended, IsSameStart, VisitAll, VisitAt, CarriesAll, all_ended, are_settled, visits_of};
ghost use Rattle.qs_world_rounds.specs.Turns.{ActsInTurn, IsRefusedInAct, TakesSome, TakesTurn, TakesTurns, TurnIsRefused, client_places};
ghost use Rattle.qs_world_rounds.specs.declared.faults.RoundFault.TheVariants as faults;

use crate::faults::RoundFault;
use crate::lanes::carry_all;
use crate::visits::{act_in_burst, visit_client, visit_node};
use qs_base::NoMemory;
use qs_cell::NodeCell;
use qs_client::ClientCell;
use qs_disk::Disk;
use qs_io::Gate;
use std::marker::Model;

/// The node, and its clients by number. In the order of a round the node has place 0, and the clients have the places behind
/// it.
#[derive(Drop)]
pub struct Actors<D: Disk> {
    node: NodeCell<D>,
    clients: Vec<ClientCell>,
}

impl<D: Disk> Model for Actors<D> {
    ghost use Rattle.qs_world_rounds.specs.Lanes.{AreJoined};
    ghost use Rattle.qs_world_rounds.specs.Rounds.{Cast};

    ghost Value = { Cast D };

    ghost view = { λ a. record { node = a.node; clients = a.clients.items } };

    ghost invariant = { λ a. AreJoined a.node.seat.ends a.clients.items };
}

impl<D: Disk> Actors<D> {
    /// The node and its clients, by number, whose lanes are joined.
    pub fn new(node: NodeCell<D>, clients: Vec<ClientCell>) -> Actors<D>
        requires { AreJoined node.seat.ends clients.items }
        ensures { result ≡ record { node = node; clients = clients.items } }
    {
        Actors { node, clients }
    }

    /// The node.
    pub fn node(&self) -> &NodeCell<D>
        ensures { result.now ≡ self.now.node }
    {
        &self.node
    }

    /// The node, by value.
    pub fn into_node(self) -> NodeCell<D>
        ensures { result ≡ self.node }
    {
        self.node
    }

    /// Moves what stands on the link from the node of other actors into the inbox of its link here, and says how many packets that
    /// then holds. After `NoMemory`, which comes where memory was refused, a front was moved and nothing is lost.
    pub fn carry_packets(&mut self, from: &mut Actors<D>) -> Result<usize, NoMemory>
        requires peer { is_peer_of self.old.node.links from.old.node.links.me.0 ≡ true }
        requires its { is_peer_of from.old.node.links self.old.node.links.me.0 ≡ true }
        requires lane { IsLane (out_of from.old.node.links self.old.node.links.me.0).feed (into_of self.old.node.links from.old.node.links.me.0) }
        ensures carries { CarriesLink result from.old.node.links from.new.node.links self.old.node.links self.new.node.links }
        ensures own { self.new ≡ record self.old { node = record self.old.node { links = self.new.node.links } } }
        ensures its { from.new ≡ record from.old { node = record from.old.node { links = from.new.node.links } } }
    {
        self.node.carry_packets(&mut from.node)
    }

    /// What stands in each lane is carried into the inbox of its receiver.
    pub fn carry(&mut self) -> Result<(), NoMemory>
        ensures carries { OnOk result (CarriesAll self.old.node self.new.node self.old.clients self.new.clients) }
        ensures node { self.new.node.seat.node ≡ self.old.node.seat.node }
        ensures links { self.new.node.links ≡ self.old.node.links }
        ensures start { IsSameStart self.old.node self.new.node }
    {
        carry_all(&mut self.node, &mut self.clients)
    }

    /// The visit of the actor at that place of the order, and whether anything was done in it.
    pub fn visit(&mut self, place: usize) -> Result<bool, RoundFault>
        ensures visits { IfOk result (VisitAt D.told D.state D.fault_count D.byte_count place self.old self.new) }
        ensures broken { (node : NodeNo) → result ≡ Err (faults.DiskFault node) → FailsAt D.told D.state D.fault_count D.byte_count place self.old self.new }
        ensures refused { result ≡ Err faults.NoMemory → RefusedAt D.told D.state D.fault_count D.byte_count place self.old self.new }
        ensures damaged { D.told → result ≡ Err faults.Damaged → most_rounds < visits_of self.old }
        ensures named { (node : NodeNo) → result ≡ Err (faults.DiskFault node) → node ≡ self.old.node.links.me }
        ensures start { IsSameStart self.old.node self.new.node }
        ensures grows { Grows (journal_of self.old.node) (journal_of self.new.node) }
        ensures linked { StayLinked self.old.node.links self.new.node.links }
    {
        if place == 0 {
            return visit_node(&mut self.node);
        }
        let did = visit_client(&mut self.clients, place - 1)?;
        Ok(did)
    }

    /// So many turns in a burst, whatever other sites do meanwhile: in each what stands in the lanes is carried, each client has its visit, and the
    /// node acts, of which the gate is told before. After `NoMemory`, which comes where memory was refused, be it within a step of the node,
    /// the turns before that one were taken.
    pub fn take_turns<G: Gate>(&mut self, gate: &G, turns: u32) -> Result<(), NoMemory>
        ensures turns { OnOk result (TakesTurns D.told D.state D.fault_count D.byte_count turns self.old self.new) }
        ensures some { TakesSome D.told D.state D.fault_count D.byte_count turns self.old self.new }
        ensures start { IsSameStart self.old.node self.new.node }
        ensures grows { Grows (journal_of self.old.node) (journal_of self.new.node) }
        ensures linked { StayLinked self.old.node.links self.new.node.links }
    {
        for _ in 0..turns {
            self.take_turn(gate)?;
        }
        Ok(())
    }

    fn take_turn<G: Gate>(&mut self, gate: &G) -> Result<(), NoMemory>
        ensures turn { OnOk result (TakesTurn D.told D.state D.fault_count D.byte_count self.old self.new) }
        ensures refused { OnErr result (TurnIsRefused D.told D.state D.fault_count D.byte_count self.old self.new) }
        ensures start { IsSameStart self.old.node self.new.node }
        ensures grows { Grows (journal_of self.old.node) (journal_of self.new.node) }
        ensures linked { StayLinked self.old.node.links self.new.node.links }
    {
        self.carry()?;
        self.visit_clients()?;
        gate.pass(self.node.node(), self.node.acts().saturating_add(1));
        self.act()
    }

    /// The visit of each client. Whether anything was done in one is answered.
    fn visit_clients(&mut self) -> Result<bool, NoMemory>
        ensures visits { IfOk result (VisitAll D.told D.state D.fault_count D.byte_count (client_places self.old.clients) self.old self.new) }
        ensures node { self.new.node ≡ self.old.node }
    {
        let mut did = false;
        for at in 0..self.clients.len() {
            let more = self.visit_one(at)?;
            did = either(did, more);
        }
        Ok(did)
    }

    /// The visit of the client at that place.
    fn visit_one(&mut self, at: usize) -> Result<bool, NoMemory>
        ensures visits { IfOk result (VisitAt D.told D.state D.fault_count D.byte_count (suc at) self.old self.new) }
        ensures node { self.new.node ≡ self.old.node }
        ensures count { length self.new.clients ≡ length self.old.clients }
    {
        visit_client(&mut self.clients, at)
    }

    /// The act of the node.
    fn act(&mut self) -> Result<(), NoMemory>
        ensures acts { OnOk result (ActsInTurn D.told D.state D.fault_count D.byte_count self.old.node self.new.node) }
        ensures refused { OnErr result (IsRefusedInAct D.told D.state D.fault_count D.byte_count self.old.node self.new.node) }
        ensures clients { self.new.clients ≡ self.old.clients }
        ensures start { IsSameStart self.old.node self.new.node }
        ensures grows { Grows (journal_of self.old.node) (journal_of self.new.node) }
        ensures linked { StayLinked self.old.node.links self.new.node.links }
    {
        act_in_burst(&mut self.node)
    }

    /// Whether each client stands at the end of its script.
    pub fn all_ended(&self) -> bool
        ensures { result ≡ all_ended self.now }
    {
        all_ended(&self.clients)
    }

    /// Whether each client stands at the end of its script, and no transaction is unended at the node.
    pub fn are_settled(&self) -> bool
        ensures { result ≡ are_settled self.now }
    {
        self.all_ended() && self.node.settled()
    }
}

fn all_ended(clients: &[ClientCell]) -> bool
    ensures { result ≡ list_all has_ended clients.now }
{
    clients.iter().all(has_ended)
}

fn has_ended(client: &ClientCell) -> bool
    ensures { result ≡ has_ended client.now }
{
    client.at().is_none()
}

fn either(first: bool, second: bool) -> bool
    ensures { result ≡ (first || second) }
{
    first || second
}

//! Links: lanes of parcels.
ghost use Rattle.std.specs.Prelude.{◌≡◌, ◌↔◌, [], length, IfOk, IfSome, OnErr, OnOk};
ghost use Rattle.qs_base.specs.declared.memory.NoMemory.{NoMemory};
ghost use Rattle.qs_link.specs.Lane.{Drawn, IsLane, HasPlaces, IsFifo, IsFront, on_way};
ghost use Rattle.qs_link.specs.Link.{Took, TookNone};
ghost use Rattle.qs_link.specs.Plan.{IsPlan, IsFresh};
ghost use Rattle.qs_link.specs.Planned.{Carried};
ghost use Rattle.qs_packet.specs.Grammar.{IsPacket};
ghost use Rattle.rtrb.specs.Ring.{known_items, received, SameProducer, SameConsumer};

use crate::lanes::{Draw, carry, lane};
use crate::outgoing::{LinkPlan, Outgoing};
use crate::parcel::Parcel;
use qs_base::NoMemory;
use qs_packet::Packet;
use std::alloc::Global;
use std::marker::Model;

/// The receiving end of a link.
#[derive(Drop)]
pub struct Incoming {
    draw: Draw<Parcel>,
    alloc: Global,
}

impl Model for Incoming {
    ghost use Rattle.qs_link.specs.Lane.{DrawValue};
    ghost use Rattle.qs_packet.specs.declared.packet.Packet.{Packet};

    ghost Value = { DrawValue Packet };

    ghost view = { λ i. i.draw };
}

/// The ends of a link with nothing on its way. `NoMemory` comes where memory was refused.
pub fn link(alloc: Global, plan: LinkPlan) -> Result<(Outgoing, Incoming), NoMemory>
    requires { IsPlan plan }
    ensures lane { IfOk result (λ ends. IsLane ends.0.feed ends.1) }
    ensures empty { IfOk result (λ ends. on_way ends.0.feed ends.1 ≡ []) }
    ensures places { IfOk result (λ ends. HasPlaces ends.0.feed ends.1) }
    ensures fifo { IfOk result (λ ends. IsFifo ends.0.feed ends.1) }
    ensures fresh { IfOk result (λ ends. IsFresh plan ends.0) }
{
    let (feed, draw) = lane(alloc)?;
    Ok((Outgoing::new(alloc, feed, plan), Incoming { draw, alloc }))
}

impl Incoming {
    /// Takes the next packet; `None` exactly where the inbox is empty and, once this call has looked
    /// into the ring, this end knows of no packet there. After `NoMemory`, which comes where memory
    /// was refused, that packet is lost.
    pub fn take(&mut self) -> Result<Option<Packet>, NoMemory>
        ensures took { Took result self.old self.new }
        ensures packet { IfOk result (λ p. IfSome p IsPacket) }
        ensures none { TookNone result ↔ (self.old.inbox ≡ []) × (received self.new.ring ≡ received self.old.ring) }
        ensures looked { TookNone result → known_items self.new.ring ≡ [] }
    {
        match self.draw.take() {
            Some(parcel) => Ok(Some(parcel.open(self.alloc)?)),
            None => Ok(None),
        }
    }

    /// Looks into the ring, and moves the packets that stand there behind those that were carried, so that they count as carried. The other
    /// end may be used in another thread meanwhile. After `NoMemory`, which comes where memory was refused, nothing was moved.
    pub fn pull(&mut self) -> Result<(), NoMemory>
        ensures drawn { Drawn [] self.old self.new }
        ensures all { OnOk result (known_items self.new.ring ≡ []) }
        ensures none { OnErr result (self.new.inbox ≡ self.old.inbox) }
    {
        self.draw.pull()
    }

    /// How many packets were carried and not taken.
    pub fn carried(&self) -> usize
        ensures { result ≡ length self.now.inbox }
    {
        self.draw.carried()
    }

    /// Takes the next packet that was carried; `None` exactly where the inbox is empty. The ring is left alone. After
    /// `NoMemory`, which comes where memory was refused, that packet is lost.
    pub fn take_carried(&mut self) -> Result<Option<Packet>, NoMemory>
        ensures took { Took result self.old self.new }
        ensures packet { IfOk result (λ p. IfSome p IsPacket) }
        ensures ring { self.new.ring ≡ self.old.ring }
        ensures none { TookNone result ↔ (self.old.inbox ≡ []) }
    {
        match self.draw.take_carried() {
            Some(parcel) => Ok(Some(parcel.open(self.alloc)?)),
            None => Ok(None),
        }
    }
}

/// Moves what stands in the ring, and then what stands in the outbox, into the inbox, and says how
/// many packets that then holds. After `NoMemory`, which comes where memory was refused, a front was
/// moved and nothing is lost.
pub fn carry_link(from: &mut Outgoing, to: &mut Incoming) -> Result<usize, NoMemory>
    requires { IsLane from.old.feed to.old }
    ensures lane { IsLane from.new.feed to.new }
    ensures feed { SameProducer from.old.feed.ring from.new.feed.ring }
    ensures draw { SameConsumer to.old.ring to.new.ring }
    ensures carried { Carried from.old from.new to.old to.new }
    ensures front { IsFront to.old.inbox to.new.inbox }
    ensures all { OnOk result (to.new.inbox ≡ on_way from.old.feed to.old) }
    ensures held { IfOk result (λ n. n ≡ length to.new.inbox) }
    ensures fifo { IsFifo from.old.feed to.old × IsFifo from.new.feed to.new }
{
    carry(&mut from.feed, &mut to.draw)
}

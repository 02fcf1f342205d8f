//! A lane: a ring with a queue before it and a queue behind it.
ghost use Rattle.std.specs.Prelude.{◌≡◌, ◌∷◌, ◌++◌, [], length, drop, option_to_list, IfOk, IfErr, OnOk, OnErr, IsNone, IsTrue, IsFalse, ◌+◌, ◌↔◌, ◌≢◌};
ghost use Rattle.std.specs.Prelude.{◌<◌, ◌≤◌};
ghost use Rattle.std.specs.VecDeque.{deque_len, deque_capacity};
ghost use Rattle.rtrb.specs.Ring.{sent, received, known_free, known_items, SameProducer, SameConsumer};
ghost use Rattle.qs_link.specs.Lane.{IsLane, HasPlaces, IsFront, on_way, Fed, Drawn, IsFifo};

use qs_base::NoMemory;
use rtrb::{Consumer, Producer, RingBuffer};
use std::alloc::Global;
use std::collections::VecDeque;
use std::marker::Model;

/// How many places a ring has.
const PLACES: usize = 64;

/// The end of a lane that is fed.
#[derive(Drop)]
pub struct Feed<T> {
    ring: Producer<T>,
    outbox: VecDeque<T>,
}

impl<T> Model for Feed<T> {
    ghost use Rattle.qs_link.specs.Lane.{FeedValue};

    ghost Value = { FeedValue T };

    ghost view = { λ f. record { ring = f.ring; outbox = f.outbox.items } };
}

/// The end of a lane that is drawn from.
#[derive(Drop)]
pub struct Draw<T> {
    ring: Consumer<T>,
    inbox: VecDeque<T>,
}

impl<T> Model for Draw<T> {
    ghost use Rattle.qs_link.specs.Lane.{DrawValue};

    ghost Value = { DrawValue T };

    ghost view = { λ d. record { ring = d.ring; inbox = d.inbox.items } };
}

/// The ends of a lane with nothing on its way.
pub fn lane<T>(alloc: Global) -> Result<(Feed<T>, Draw<T>), NoMemory>
where
    T: Drop,
    ensures lane { IfOk result (λ ends. IsLane ends.0 ends.1) }
    ensures empty { IfOk result (λ ends. on_way ends.0 ends.1 ≡ []) }
    ensures places { IfOk result (λ ends. HasPlaces ends.0 ends.1) }
    ensures fifo { IfOk result (λ ends. IsFifo ends.0 ends.1) }
{
    let (feed, draw) = RingBuffer::new(alloc, PLACES)?;
    Ok((
        Feed {
            ring: feed,
            outbox: VecDeque::new(alloc),
        },
        Draw {
            ring: draw,
            inbox: VecDeque::new(alloc),
        },
    ))
}

impl<T: Drop> Feed<T> {
    /// Puts an item into the outbox, or hands it back for want of memory. The ring is left alone.
    pub fn put(&mut self, item: T) -> Result<(), T>
        ensures fed { OnOk result (Fed (item ∷ []) self.old self.new) }
        ensures ring { self.new.ring ≡ self.old.ring }
        ensures back { IfErr result (λ x. x ≡ item) }
        ensures err { OnErr result (self.new ≡ self.old) }
    {
        match self.outbox.push_back(item) {
            Ok(()) => Ok(()),
            Err(failed) => Err(failed.value),
        }
    }

    /// Puts items into the outbox, in order, or none of them for want of memory.
    pub(crate) fn put_all(&mut self, items: &mut VecDeque<T>) -> Result<(), NoMemory>
        ensures fed { OnOk result (Fed items.old.items self.old self.new) }
        ensures err { OnErr result (self.new ≡ self.old) }
    {
        self.outbox.append(items)?;
        Ok(())
    }

    /// Pushes from the outbox into the ring while it takes them.
    pub fn push_all(&mut self)
        ensures fed { Fed [] self.old self.new }
        ensures end { self.new.outbox ≢ [] → known_free self.new.ring ≡ 0 }
    {
        for _turn in 0..self.outbox.len() {
            if !self.push_one() {
                return;
            }
        }
    }

    /// Pushes the first item of the outbox, if there is one and the ring takes it.
    fn push_one(&mut self) -> bool
        ensures fed { Fed [] self.old self.new }
        ensures pushed { IsTrue result → length self.new.outbox + 1 ≡ length self.old.outbox }
        ensures end { IsFalse result → self.new.outbox ≢ [] → known_free self.new.ring ≡ 0 }
    {
        if self.ring.is_full() {
            return false;
        }
        let Some(item) = self.outbox.pop_front() else {
            return false;
        };
        self.ring.push_reserved(item);
        true
    }
}

impl<T: Drop> Draw<T> {
    /// How many items were carried and not taken.
    pub fn carried(&self) -> usize
        ensures { result ≡ length self.now.inbox }
    {
        self.inbox.len()
    }

    /// Takes the next item that was carried. The ring is left alone.
    pub fn take_carried(&mut self) -> Option<T>
        ensures drawn { Drawn (option_to_list result) self.old self.new }
        ensures ring { self.new.ring ≡ self.old.ring }
        ensures none { IsNone result ↔ (self.old.inbox ≡ []) }
    {
        self.inbox.pop_front()
    }

    /// Takes the next item.
    pub fn take(&mut self) -> Option<T>
        ensures drawn { Drawn (option_to_list result) self.old self.new }
        ensures none { IsNone result ↔ (self.old.inbox ≡ []) × (received self.new.ring ≡ received self.old.ring) }
        ensures looked { IsNone result → known_items self.new.ring ≡ [] }
    {
        if let Some(item) = self.inbox.pop_front() {
            return Some(item);
        }
        match self.ring.pop() {
            Ok(item) => Some(item),
            Err(_) => None,
        }
    }

    /// Looks into the ring, and moves what stands there behind what was carried, so that it counts as carried. The other end may be used in
    /// another thread meanwhile. After `NoMemory`, which comes where memory was refused, nothing was moved.
    pub fn pull(&mut self) -> Result<(), NoMemory>
        ensures drawn { Drawn [] self.old self.new }
        ensures all { OnOk result (known_items self.new.ring ≡ []) }
        ensures none { OnErr result (self.new.inbox ≡ self.old.inbox) }
    {
        self.ring.slots();
        pop_all(&mut self.ring, &mut self.inbox)
    }
}

/// Moves what stands in the ring, and then what stands in the outbox, into the inbox, and says how many items that then
/// holds. After `NoMemory`, which comes where memory was refused, a front was moved and nothing is lost.
pub fn carry<T>(from: &mut Feed<T>, to: &mut Draw<T>) -> Result<usize, NoMemory>
where
    T: Drop,
    requires { IsLane from.old to.old }
    ensures lane { IsLane from.new to.new }
    ensures feed { SameProducer from.old.ring from.new.ring }
    ensures draw { SameConsumer to.old.ring to.new.ring }
    ensures way { on_way from.new to.new ≡ on_way from.old to.old }
    ensures front { IsFront to.old.inbox to.new.inbox }
    ensures all { OnOk result (to.new.inbox ≡ on_way from.old to.old) }
    ensures held { IfOk result (λ n. n ≡ length to.new.inbox) }
    ensures fifo { IsFifo from.old to.old × IsFifo from.new to.new }
{
    to.ring.slots_beside(&mut from.ring);
    pop_all(&mut to.ring, &mut to.inbox)?;
    to.inbox.append(&mut from.outbox)?;
    Ok(to.inbox.len())
}

/// Moves the items that are known to stand in the ring into the inbox, or none.
fn pop_all<T: Drop>(ring: &mut Consumer<T>, inbox: &mut VecDeque<T>) -> Result<(), NoMemory>
    ensures same { SameConsumer ring.old ring.new }
    ensures inbox { inbox.new.items ++ known_items ring.new ≡ inbox.old.items ++ known_items ring.old }
    ensures ring { received ring.new ++ known_items ring.new ≡ received ring.old ++ known_items ring.old }
    ensures all { OnOk result (known_items ring.new ≡ []) }
    ensures none { OnErr result (inbox.new.items ≡ inbox.old.items) }
{
    let count = ring.cached_slots();
    inbox.reserve(count)?;
    for _turn in 0..count {
        put_reserved(inbox, ring.pop_known());
    }
    Ok(())
}

fn put_reserved<T: Drop>(inbox: &mut VecDeque<T>, item: T)
    requires { deque_len inbox.old < deque_capacity inbox.old }
    ensures items { inbox.new.items ≡ inbox.old.items ++ item ∷ [] }
    ensures capacity { deque_capacity inbox.old ≤ deque_capacity inbox.new }
{
    if inbox.push_back(item).is_err() {
        unreachable!()
    }
}

/// Looks from both ends at once, as after a join: the ring has lost, repeated and reordered nothing.
pub fn look<T>(from: &mut Feed<T>, to: &mut Draw<T>)
where
    T: Drop,
    requires { IsLane from.old to.old }
    ensures lane { IsLane from.new to.new }
    ensures fed { Fed [] from.old from.new }
    ensures drawn { Drawn [] to.old to.new }
    ensures fifo { IsFifo from.new to.new }
{
    to.ring.slots_beside(&mut from.ring);
}

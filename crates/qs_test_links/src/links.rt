//! Rows of links.
ghost use Rattle.qs_link.specs.Lane.{IsLane};
ghost use Rattle.qs_link.specs.Plan.{IsPlan};
ghost use Rattle.qs_packet.specs.Grammar.{IsPacket};

use anyhow::{Context, Error, bail};
use qs_base::{List, NoMemory, NodeNo};
use qs_link::{Incoming, LinkFault, LinkPlan, Outgoing, carry_link, is_plan, link};
use qs_packet::{Message, Packet};
use std::alloc::Global;

/// The two ends of a link.
#[derive(Drop)]
struct Ends {
    from: Outgoing,
    to: Incoming,
    ghost is_lane: { IsLane from.feed to },
}

impl Ends {
    fn new(alloc: Global, plan: LinkPlan) -> Result<Ends, NoMemory>
        requires { IsPlan plan }
    {
        let (from, to) = link(alloc, plan)?;
        Ok(Ends { from, to })
    }

    /// Puts a greeting, with that number for its stamp.
    fn put(&mut self, number: u32) -> Result<(), NoMemory> {
        let packet = greeting(number);
        let put = self.from.put(&packet);
        drop(packet);
        put?;
        Ok(())
    }

    fn push_all(&mut self) {
        self.from.push_all();
    }

    fn carry(&mut self) -> Result<(), NoMemory> {
        carry_link(&mut self.from, &mut self.to)?;
        Ok(())
    }

    /// The number of the packet that comes next, if one comes.
    fn next(&mut self) -> Result<Option<u64>, NoMemory> {
        match self.to.take() {
            Ok(Some(packet)) => {
                let stamp = packet.stamp;
                drop(packet);
                Ok(Some(stamp))
            }
            Ok(None) => Ok(None),
            Err(_) => Err(NoMemory),
        }
    }
}

/// Which packets come over the link that the words tell: through its ring, and then carried.
pub(crate) fn link_row(alloc: Global, words: &str) -> Result<String, Error> {
    let (count, plan) = match words.split_once(": ") {
        Some((count, faults)) => (count, plan_of(alloc, faults)?),
        None => (words, List::new(alloc)),
    };
    if !is_plan(plan.as_slice()) {
        return Ok(format!(in alloc; "no plan")?);
    }
    let Ok(mut ends) = Ends::new(alloc, plan) else {
        bail!("there is no memory");
    };
    let said = come(alloc, &mut ends, count);
    drop(ends);
    said
}

/// Which of so many packets come over a link.
fn come(alloc: Global, ends: &mut Ends, count: &str) -> Result<String, Error> {
    put_all(ends, count)?;
    ends.push_all();
    let mut said = format!(in alloc; "ring")?;
    add_all(alloc, &mut said, ends)?;
    said.push_str(" carried")?;
    if ends.carry().is_err() {
        bail!("there is no memory");
    }
    add_all(alloc, &mut said, ends)?;
    Ok(said)
}

/// The plan that the words tell.
fn plan_of(alloc: Global, words: &str) -> Result<LinkPlan, Error> {
    let mut plan = List::new(alloc);
    for fault in words.split(", ") {
        let Ok(()) = plan.push(fault_of(fault)?) else {
            bail!("there is no memory");
        };
    }
    Ok(plan)
}

/// The fault that the words tell.
fn fault_of(words: &str) -> Result<LinkFault, Error> {
    if let Some(packet) = words.strip_prefix("drop ") {
        return Ok(LinkFault::Drop {
            packet: number(packet)?,
        });
    }
    if let Some(packet) = words.strip_prefix("again ") {
        return Ok(LinkFault::Again {
            packet: number(packet)?,
        });
    }
    let rest = words
        .strip_prefix("hold ")
        .context("a fault is of no kind")?;
    let (packet, count) = rest.split_once(" for ").context("a hold has no count")?;
    Ok(LinkFault::Hold {
        packet: number(packet)?,
        count: number(count)?,
    })
}

/// The number that a word spells.
fn number(word: &str) -> Result<u64, Error> {
    word.parse::<u64>().context("a word is no number")
}

/// Puts as many packets as the word spells.
fn put_all(ends: &mut Ends, count: &str) -> Result<(), Error> {
    for number in 1..=count.parse::<u32>().context("a count is no number")? {
        if ends.put(number).is_err() {
            bail!("there is no memory");
        }
    }
    Ok(())
}

fn greeting(number: u32) -> Packet
    ensures { IsPacket result }
{
    Packet {
        from: NodeNo(0),
        inc: 1,
        to: NodeNo(1),
        to_inc: 0,
        number: 0,
        ack: 0,
        stamp: u64::from(number),
        message: Message::Hello,
    }
}

/// Takes what comes, and says which packets these are.
fn add_all(alloc: Global, said: &mut String, ends: &mut Ends) -> Result<(), Error> {
    for _turn in 0..u64::MAX {
        let Ok(came) = ends.next() else {
            bail!("there is no memory");
        };
        let Some(number) = came else {
            return Ok(());
        };
        said.push_str(format!(in alloc; " {number}")?.as_str())?;
    }
    Ok(())
}

//! A drawn run.

use crate::sessions::drawn::Drawn;
use crate::sessions::end::End;
use crate::sessions::failed::Failed;
use qs_base::NodeNo;
use std::alloc::Global;

#[derive(Drop)]
pub(crate) struct Run {
    ends: Vec<End>,
    /// The number of the last message.
    last: u32,
}

impl Run {
    /// Two or three nodes in their first incarnations, which know nobody.
    pub(crate) fn new(alloc: Global, drawn: &mut Drawn) -> Result<Run, Failed> {
        let nodes = if drawn.word() % 2 == 0 { 2 } else { 3 };
        let mut ends = Vec::new(alloc);
        for me in 0..nodes {
            for peer in 0..nodes {
                if me != peer {
                    ends.push(End::new(alloc, NodeNo(me), NodeNo(peer), drawn)?)?;
                }
            }
        }
        Ok(Run { ends, last: 0 })
    }

    /// Drawn events, and then ticks alone. Whether all was handed up, in order, within so many ticks after the last
    /// fault.
    pub(crate) fn drive(
        &mut self,
        alloc: Global,
        ticks: u32,
        drawn: &mut Drawn,
    ) -> Result<bool, Failed> {
        let events = 40 + drawn.word() % 80;
        for _event in 0..events {
            self.draw(alloc, drawn)?;
        }
        let mut quiet: u32 = 0;
        for _tick in 0..u32::MAX {
            drawn.is_quiet = true;
            for end in self.ends.iter_mut() {
                end.tick(drawn)?;
            }
            self.deliver_all()?;
            quiet = if drawn.is_quiet {
                quiet.saturating_add(1)
            } else {
                0
            };
            if self.is_settled() {
                drawn.ticks = drawn.ticks.max(quiet);
                return Ok(true);
            }
            if quiet >= ticks {
                return Ok(false);
            }
        }
        Ok(false)
    }

    fn draw(&mut self, alloc: Global, drawn: &mut Drawn) -> Result<(), Failed> {
        let kind = drawn.word() % 32;
        let at = drawn.word() as usize;
        match kind {
            0 | 1 => self.restart(at, drawn, alloc),
            2..=4 => self.send(at, drawn)?,
            5..=13 => {
                if let Some(end) = drawn_end(&mut self.ends, at) {
                    end.tick(drawn)?;
                }
            }
            _ => {
                deliver(&mut self.ends, at)?;
            }
        }
        Ok(())
    }

    fn send(&mut self, at: usize, drawn: &mut Drawn) -> Result<(), Failed> {
        self.last = self.last.saturating_add(1);
        drawn.sent = drawn.sent.saturating_add(1);
        match drawn_end(&mut self.ends, at) {
            Some(end) => end.send(self.last, drawn),
            None => Ok(()),
        }
    }

    /// The node of an end crashes and restarts.
    fn restart(&mut self, at: usize, drawn: &mut Drawn, alloc: Global) {
        let Some(end) = drawn_end(&mut self.ends, at) else {
            return;
        };
        let node = end.me;
        drawn.restarts = drawn.restarts.saturating_add(1);
        for end in self.ends.iter_mut() {
            if end.me == node {
                end.restart(alloc);
            }
        }
    }

    fn deliver_all(&mut self) -> Result<(), Failed> {
        for at in 0..self.ends.len() {
            deliver_each(&mut self.ends, at)?;
        }
        Ok(())
    }

    /// Each end knows its peer's incarnation, and has handed up, in order and once, all that this has sent to its own.
    fn is_settled(&self) -> bool {
        self.ends.iter().all(|end| {
            self.ends.iter().any(|other| {
                other.me == end.peer
                    && other.peer == end.me
                    && other.inc == end.known
                    && other.sent.as_slice() == end.got.as_slice()
            })
        })
    }
}

fn drawn_end(ends: &mut Vec<End>, at: usize) -> Option<&mut End> {
    let count = ends.len();
    if count == 0 {
        return None;
    }
    ends.get_mut(at % count)
}

/// All packets on the link of an end come to the end that they are for.
fn deliver_each(ends: &mut Vec<End>, at: usize) -> Result<(), Failed> {
    for _packet in 0..u64::MAX {
        if !deliver(ends, at)? {
            return Ok(());
        }
    }
    Ok(())
}

/// The next packet on the link of an end comes to the end that it is for. Whether there was one.
fn deliver(ends: &mut Vec<End>, at: usize) -> Result<bool, Failed> {
    let Some(end) = drawn_end(ends, at) else {
        return Ok(false);
    };
    let Some(packet) = end.next()? else {
        return Ok(false);
    };
    for other in ends.iter_mut() {
        if other.me == packet.to && other.peer == packet.from {
            other.take(packet)?;
            return Ok(true);
        }
    }
    drop(packet);
    Ok(true)
}

//! What is drawn, and what was.

use qs_link::LinkFault;
use rand_core::utils::NextWord;
use rand_pcg::Lcg64Xsh32;

/// Draws a run's events and faults, and counts those of all runs.
#[derive(Drop)]
pub(crate) struct Drawn {
    rng: Lcg64Xsh32,
    /// No fault came since this was set.
    pub(crate) is_quiet: bool,
    pub(crate) sent: u64,
    pub(crate) lost: u64,
    pub(crate) repeated: u64,
    pub(crate) held: u64,
    pub(crate) restarts: u64,
    /// The most ticks after the last fault that a run took to settle.
    pub(crate) ticks: u32,
}

impl Drawn {
    pub(crate) fn new(rng: Lcg64Xsh32) -> Drawn {
        Drawn {
            rng,
            is_quiet: false,
            sent: 0,
            lost: 0,
            repeated: 0,
            held: 0,
            restarts: 0,
            ticks: 0,
        }
    }

    /// A further run is drawn by these numbers.
    pub(crate) fn begin(&mut self, rng: Lcg64Xsh32) {
        self.rng = rng;
        self.is_quiet = false;
    }

    pub(crate) fn word(&mut self) -> u32 {
        self.rng.next_word()
    }

    /// The fault of a packet: a quarter of all is lost, an eighth comes twice, and an eighth is held for one to eight
    /// others.
    pub(crate) fn fault(&mut self, packet: u64) -> Option<LinkFault> {
        match self.word() % 8 {
            0 | 1 => Some(LinkFault::Drop { packet }),
            2 => Some(LinkFault::Again { packet }),
            3 => Some(LinkFault::Hold {
                packet,
                count: u64::from(self.word() % 8) + 1,
            }),
            _ => None,
        }
    }

    /// Notes what a fault does as the packet with that number is put.
    pub(crate) fn note(&mut self, fault: LinkFault, number: u64) {
        match fault {
            LinkFault::Drop { packet } => {
                if packet == number {
                    self.is_quiet = false;
                    self.lost = self.lost.saturating_add(1);
                }
            }
            LinkFault::Again { packet } => {
                if packet == number {
                    self.is_quiet = false;
                    self.repeated = self.repeated.saturating_add(1);
                }
            }
            LinkFault::Hold { packet, count } => {
                if packet == number {
                    self.is_quiet = false;
                    self.held = self.held.saturating_add(1);
                }
                if packet.saturating_add(count) == number {
                    self.is_quiet = false;
                }
            }
        }
    }
}

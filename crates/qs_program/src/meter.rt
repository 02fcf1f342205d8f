//! The progress of a run, told on a terminal.
use std::rt::Clock;
use std::sync::atomic::{AtomicU64, Ordering};
use std::time::Instant;

/// After how many seconds the first line is due.
const FIRST_LINE: u64 = 1;

/// Counts the syncs of a run's disks, and tells by them how far it is: a line on standard error after a second, and another one each time that it
/// has gone on for twice as long. Where standard error is no terminal nothing is told.
#[derive(Drop)]
pub(crate) struct Meter<'a, R> {
    rt: &'a R,
    /// When the run began; none where nothing is to be told.
    began: Option<Instant>,
    syncs: AtomicU64,
    /// After how many seconds the next line is due.
    due: AtomicU64,
}

impl<'a, R: Clock + Eprint> Meter<'a, R> {
    /// That of a run which begins now.
    pub(crate) fn new(rt: &'a R, is_terminal: bool) -> Meter<'a, R> {
        let began = if is_terminal {
            Instant::now(rt).ok()
        } else {
            None
        };
        Meter {
            rt,
            began,
            syncs: AtomicU64::new(0),
            due: AtomicU64::new(FIRST_LINE),
        }
    }

    /// One sync more. A line that standard error does not take is lost.
    pub(crate) fn count_sync(&self) {
        let Some(began) = self.began else {
            return;
        };
        let syncs = self.syncs.fetch_add(1, Ordering::SeqCst);
        let Ok(time) = began.elapsed(self.rt) else {
            return;
        };
        let seconds = time.as_secs();
        if seconds < self.due.load(Ordering::SeqCst) {
            return;
        }
        self.due.store(seconds.saturating_mul(2), Ordering::SeqCst);
        let _ = eprintln!(self.rt; "qs: running for {seconds} s, disks synced {syncs} times");
    }
}

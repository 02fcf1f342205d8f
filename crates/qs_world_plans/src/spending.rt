//! How many rounds a run may have.
ghost use Rattle.std.specs.Prelude.{◌≡◌};
ghost use Rattle.std.specs.List.{count_by};
ghost use Rattle.qs_world_plans.specs.Budget.{is_disk_cause, is_disk_crash, tells_disk_crash, disk_crashes, budget_of, budget};

use qs_book_journal::{Act, CrashCause, Entry};
use qs_book_script::Script;

/// The rounds for each command and one more, and that again for each stop and one more.
const ROUNDS_EACH: u64 = 4_096;

/// The faults of disks that are counted.
pub const MOST_DISK_CRASHES: usize = 64;

/// How many rounds a run of the script has, whose journal is this so far. Numbers end at 64 bits.
pub fn budget(script: &Script, journal: &[Entry]) -> u64
    ensures { result ≡ budget script.now journal.now }
{
    budget_of(
        script.lines.len(),
        script.faults.len(),
        disk_crashes(journal),
    )
}

/// How many rounds a run has that has so many commands and lines of faults, and so many faults of disks so far. Numbers end at 64 bits.
pub fn budget_of(commands: usize, faults: usize, crashes: usize) -> u64
    ensures { result ≡ budget_of commands faults crashes }
{
    let each = ROUNDS_EACH.saturating_mul((commands as u64).saturating_add(1));
    let stops = (faults as u64)
        .saturating_add(crashes as u64)
        .saturating_add(1);
    each.saturating_mul(stops)
}

/// How often a fault of a disk stopped its node, as far as it is counted.
pub fn disk_crashes(journal: &[Entry]) -> usize
    ensures { result ≡ disk_crashes journal.now }
{
    count(journal).min(MOST_DISK_CRASHES)
}

fn count(journal: &[Entry]) -> usize
    ensures { result ≡ count_by tells_disk_crash journal.now }
{
    let mut count = 0;
    for entry in journal {
        if tells_disk_crash(entry) {
            count += 1;
        }
    }
    count
}

fn tells_disk_crash(entry: &Entry) -> bool
    ensures { result ≡ tells_disk_crash entry.now }
{
    is_disk_crash(&entry.act)
}

fn is_disk_crash(act: &Act) -> bool
    ensures { result ≡ is_disk_crash act.now }
{
    match act {
        Act::Crash { cause } => is_disk_cause(*cause),
        _ => false,
    }
}

fn is_disk_cause(cause: CrashCause) -> bool
    ensures { result ≡ is_disk_cause cause }
{
    matches!(cause, CrashCause::Disk { .. })
}

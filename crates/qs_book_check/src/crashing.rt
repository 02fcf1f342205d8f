//! Why a node stops.
ghost use Rattle.std.specs.Prelude.{◌≡◌};
ghost use Rattle.qs_book_conformance.specs.Crashes.{has_line, is_last, broken_cause, broken_crash};

use qs_base::{NodeNo, Stamp};
use qs_book_conformance::{NodeCourse, Rule};
use qs_book_course::{Course, is_right_after};
use qs_book_journal::CrashCause;

/// The last number of stamps, messages and requests.
const LAST_NUMBER: u64 = (1 << 62) - 1;

/// The last number of fields of 32 bits.
const LAST_COUNT: u64 = (1 << 32) - 1;

fn has_line(node: &NodeCourse) -> bool
    ensures { result ≡ has_line node.now }
{
    node.owing < node.lines
}

fn is_last(value: u64) -> bool
    ensures { result ≡ is_last value }
{
    value == LAST_NUMBER || value == LAST_COUNT
}

fn broken_cause(node: &NodeCourse, stamp: Stamp, cause: CrashCause) -> Option<Rule>
    ensures { result ≡ broken_cause node.now stamp cause }
{
    let (holds, rule) = match cause {
        CrashCause::Plan => (
            is_right_after(node, stamp) || has_line(node),
            Rule::CrashHasItsLine,
        ),
        CrashCause::Disk { from, .. } => (node.faults <= from, Rule::DiskCountsFollow),
        CrashCause::Last { value } => (is_last(value), Rule::StandsAtLast),
        CrashCause::Memory => return None,
    };
    if holds { None } else { Some(rule) }
}

/// The rule that a crash breaks.
pub fn broken_crash(course: &Course, here: NodeNo, stamp: Stamp, cause: CrashCause) -> Option<Rule>
    ensures { result ≡ broken_crash course.now here.0 stamp cause }
{
    match course.node(here) {
        Some(node) => broken_cause(node, stamp, cause),
        None => Some(Rule::CrashHasItsLine),
    }
}

//! The kinds of rules, and the lines of the script that crashes have.
ghost use Rattle.qs_world_course.specs.KindLaws.{KindsAreAll, LinesLeaveClients, QuietLeavesClients};
ghost use Rattle.qs_world_course.specs.Lines.{BeforeHasLine, PlanHasLine, SpentIsFired};

/// What keeps the rules of each kind keeps the script: what clients say and are told, what files vote and note, and how nodes stop. What an entry makes
/// of fault lines leaves what the course has of clients and replies, and so does each entry that is no command's.
pub fn kinds_are_kept()
    ensures all { KindsAreAll }
    ensures lines { LinesLeaveClients }
    ensures quiet { QuietLeavesClients }
{}

/// A line of the script is left for each crash that a node makes by plan: in place of an event or as a disk call trips (`plan`), and in front of an entry
/// that a line names (`before`), which uses up that line (`spent`).
pub fn lines_are_left()
    ensures plan { PlanHasLine }
    ensures before { BeforeHasLine }
    ensures spent { SpentIsFired }
{}

//! What the rules of files read of a course, and the parts that they have.
ghost use Rattle.qs_world_filed.specs.Parts.{FiledAreThese};
ghost use Rattle.qs_world_filed.specs.Reads.{EntriesLeaveSetting, FiledBySetting};

/// No entry changes the audit node or a quota of the course, and the course's machine is the machine after the entries (`leaves`). The rules of files
/// read nothing else (`judged`).
pub fn entries_leave_the_setting()
    ensures leaves { EntriesLeaveSetting }
    ensures judged { FiledBySetting }
{}

/// What keeps each part keeps the rules of files: that limits are quotas and notes go to the audit node, that votes are within quotas, and that they are noted, as they are made
/// and as a restart finds them.
pub fn parts_are_all()
    ensures { FiledAreThese }
{}

//! What comes to the nodes: scripts of clients, and messages on their way, as a run begins and through each thing that happens in the world.
ghost use Rattle.qs_world_lawful.specs.WayLaws.{EachCrashKeepsScripts, EachCrashKeepsWays, EachMeetKeepsScripts, EachMeetKeepsWays, EachMovesSoundly, EachOpensScripts, EachOpensSound, EachOpensWays, EachRiseKeepsScripts, EachRiseKeepsWays, EachStepKeepsOtherScripts, EachStepKeepsOtherWays, EachWorldMovesSoundly};

/// As a run begins the machine has the scripts of all clients: lines rise behind what was answered, and each label that is still to be begun is
/// fresh. Nothing is on its way, and the channels are sound.
pub fn opening_holds_what_comes()
    ensures scripts { EachOpensScripts }
    ensures ways { EachOpensWays }
    ensures sound { EachOpensSound }
{}

/// A crash, whatever it leaves in the log, keeps both: a stop, and a step that is cut off with its batch kept or lost.
pub fn crash_keeps_what_comes()
    ensures scripts { EachCrashKeepsScripts }
    ensures ways { EachCrashKeepsWays }
{}

/// A restart keeps both: what waited at the node is lost and nothing was posted for the incarnation that begins, and owners have their lines on.
pub fn restart_keeps_what_comes()
    ensures scripts { EachRiseKeepsScripts }
    ensures ways { EachRiseKeepsWays }
{}

/// A first meeting keeps both: what waited is posted behind all that was, in its order.
pub fn meeting_keeps_what_comes()
    ensures scripts { EachMeetKeepsScripts }
    ensures ways { EachMeetKeepsWays }
{}

/// A whole step of one node leaves what two others have on its way between them, and the script of each client that it does not answer, where it
/// begins nothing under a label of that.
pub fn steps_leave_other_ways()
    ensures ways { EachStepKeepsOtherWays }
    ensures scripts { EachStepKeepsOtherScripts }
{}

/// Channels stay sound through each thing that may happen to them: nothing is posted by or for an incarnation that is to come, and what was
/// handed up was posted.
pub fn channels_stay_sound()
    ensures channels { EachMovesSoundly }
    ensures worlds { EachWorldMovesSoundly }
{}

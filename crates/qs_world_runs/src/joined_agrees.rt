//! What the agreement machine gives the steps of nodes.
ghost use Rattle.qs_world_runs.specs.Agrees.{EventAgrees, PassesAgree, SoundGives, StagesSound, WaitsAgree};

/// Where each transaction that has begun is shown by the agreement machine, a step of a node is given that nothing is committed of which a request
/// comes, a loan stands or a vote is due, at each of its stages; and what answers for requests answers for some that were sent.
pub fn steps_agree()
    ensures events { EventAgrees }
    ensures passes { PassesAgree }
    ensures waits { WaitsAgree }
{}

/// The invariant of the node holds at each stage of such a step; and from it follows what settling asks of the node by itself: that the told set
/// of a home lacks a node of the run, and that what is forgotten is idle.
pub fn stages_are_sound()
    ensures stages { StagesSound }
    ensures gives { SoundGives }
{}

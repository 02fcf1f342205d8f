//! That histories keep to the scripts of their clients, tried.
ghost use Rattle.std.specs.Global.{Global};
ghost use Rattle.qs_world_trials.specs.TriedCourse.{FailsCourse, TriedCourse};
ghost use Rattle.qs_world_trials.specs.TriedScripts.{FailsScripts, TriedScripts};

/// The history of each of these runs of one, two and three nodes keeps to the scripts of its clients: with late loans, names that two bind, audit notes, transactions that
/// conflict, a step that is cut off at each of ninety moments with its batch kept or lost, and nodes that restart in doubt; and with votes that were noted, of files alone or with audit,
/// which a restart finds since their step was cut off.
pub fn journals_keep_to_scripts()
    ensures shown { (alloc : Global) → TriedScripts alloc }
{}

/// It does not keep to scripts with a line less, with a client at another node, without a client, or with notes that go to another node.
pub fn scripts_may_be_broken()
    ensures shown { (alloc : Global) → FailsScripts alloc }
{}

/// In each world of these runs the course that the scripts and the entries so far tell is that of the world: each client's lines that are left are those that it has, what the
/// first of them has made is what its node knows of its open command, its loans are those that its node keeps, a reply that is on its way was given, and the audit node and quotas are those of the nodes.
pub fn courses_go_with_worlds()
    ensures shown { (alloc : Global) → TriedCourse alloc }
{}

/// Each part of it fails in a world that no run leads to.
pub fn courses_may_fail()
    ensures shown { (alloc : Global) → FailsCourse alloc }
{}

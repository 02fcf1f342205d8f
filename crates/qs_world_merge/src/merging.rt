//! The local runs of all nodes are one run of the world.
ghost use Rattle.qs_world_merge.specs.MergedRuns.{EachMergeRuns};
ghost use Rattle.qs_world_merge.specs.Observed.{EachIsOfOneRun};
ghost use Rattle.qs_world_merge.specs.PlainPackets.{EachPlainMergeRuns};

/// Where each node's list of moves is a run of it alone, in which every packet may come, and each packet that one took was put by its sender in some step
/// of its list, the merge of the lists by stamp and node is a run of the world over packets, and each node has in it what it has by itself. Of the stamp
/// of the step that posted a message, which the world's packets have, its receiver need know nothing.
pub fn local_runs_merge()
    ensures exact { EachMergeRuns }
    ensures plain { EachPlainMergeRuns }
{}

/// Where what each cell tells is what its node did in a local run, and what was taken of each link was put to it, there is one run of all nodes in which
/// each has what it has by itself; its steps are the merge of the traces, and its history is the merge of the journals.
pub fn cells_tell_of_one_run()
    ensures { EachIsOfOneRun }
{}

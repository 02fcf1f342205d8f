//! The traces of all nodes, merged.
ghost use Rattle.qs_world_traces.specs.Links.{EachLinkBrings};
ghost use Rattle.qs_world_traces.specs.Listed.{EachJournalListed, EachTraceListed};
ghost use Rattle.qs_world_traces.specs.Traced.{EachTraced};

/// Where what each cell took of a link is a front of all that goes out by the plan of what was put to it, it was put to it.
pub fn links_bring_what_was_put()
    ensures { EachLinkBrings }
{}

/// What cells tell of local runs of their nodes, over links that keep their plans, merged by stamp and node: the trace is the steps of a run of the world
/// over packets, the journal is its history, and between two nodes what is taken is a front of what goes out.
pub fn traces_are_runs()
    ensures { EachTraced }
{}

/// The journals and the traces of all nodes, as one list of lists.
pub fn nodes_are_listed()
    ensures journals { EachJournalListed }
    ensures traces { EachTraceListed }
{}

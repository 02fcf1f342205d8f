//! What a cell does with the links of its node.
ghost use Rattle.std.specs.Prelude.{ℕ, List, Result, Bool};
ghost use Rattle.std.specs.Global.{Global};
ghost use Rattle.qs_cell.specs.Hearing.{Post};
ghost use Rattle.qs_cell.specs.Starts.{CellValue};
ghost use Rattle.qs_cell.specs.declared.starting.NodePlan.{NodePlan};
ghost use Rattle.qs_cell.specs.declared.state.RestartFault.{RestartFault};
ghost use Rattle.qs_cell_peers.specs.Links.{LinksValue};
ghost use Rattle.qs_link.specs.declared.ends.NodeEnds.{NodeEnds};
ghost use Rattle.qs_node_step.specs.declared.setting.Setting.{Setting};
ghost use Rattle.qs_world_links.specs.Telling.{BreakTells, RestartTells, RestartTellsTakes, StartTells, VisitTells, VisitTellsTakes};

use qs_disk::Disk;

/// The trace of a cell tells all that a visit does with its links: each got what the new steps put for its node, in order, and of each what they
/// took of its node was drawn, in order, also where a crash stands in place of the event; where all that was carried goes between the two nodes.
/// A start and a restart put nothing, and take nothing.
pub fn cells_tell_of_links<D: Disk>()
    ensures starts { (n : ℕ) (alloc : Global) (disk : D) (setting : Setting) (links : LinksValue) (ends : List NodeEnds) (plan : NodePlan) (new : CellValue D) → StartTells D.told D.state n alloc disk setting links ends plan new }
    ensures visits { (nodes n : ℕ) (old new : Post D) → VisitTells D.told D.state D.fault_count D.byte_count nodes n old new }
    ensures restarts { (alloc : Global) (nodes n : ℕ) (old new : Post D) (answer : Result Bool RestartFault) → RestartTells D.told D.state D.fault_count D.byte_count alloc nodes n old new answer }
{}

/// Where memory was refused in a visit or as a node was started again, the trace still tells what was taken of each link: it stood in front of what was carried. A
/// visit that was made tells as much.
pub fn cells_tell_of_takes<D: Disk>()
    ensures breaks { (nodes n : ℕ) (old new : Post D) → BreakTells D.told D.state D.fault_count D.byte_count nodes n old new }
    ensures visits { (nodes n : ℕ) (old new : Post D) → VisitTellsTakes D.told D.state D.fault_count D.byte_count nodes n old new }
    ensures restarts { (alloc : Global) (nodes n : ℕ) (old new : Post D) (answer : Result Bool RestartFault) → RestartTellsTakes D.told D.state D.fault_count D.byte_count alloc nodes n old new answer }
{}

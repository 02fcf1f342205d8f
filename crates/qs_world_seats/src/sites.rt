//! A node and its clients, as one site of a run in the world.
ghost use Rattle.std.specs.Prelude.{ℕ, Bool, List};
ghost use Rattle.std.specs.Global.{Global};
ghost use Rattle.qs_base.specs.declared.identifiers.ClientNo.{ClientNo};
ghost use Rattle.qs_book_script.specs.declared.script.Script.{Script};
ghost use Rattle.qs_cell.specs.Starts.{CellValue};
ghost use Rattle.qs_cell.specs.declared.starting.NodePlan.{NodePlan};
ghost use Rattle.qs_cell.specs.declared.state.CellState.{CellState};
ghost use Rattle.qs_cell_peers.specs.Links.{LinksValue};
ghost use Rattle.qs_client.specs.declared.cell.ClientCell.{ClientCell};
ghost use Rattle.qs_node_step.specs.declared.setting.Setting.{Setting};
ghost use Rattle.qs_world.specs.World.{Opening};
ghost use Rattle.qs_world_rounds.specs.Rounds.{Cast};
ghost use Rattle.qs_world_seats.specs.Cells.{CellTells, SiteHasCell, SiteRefused};
ghost use Rattle.qs_world_seats.specs.Sites.{ByNumber, NodeGoesOn, SiteBegins, SiteCarries, SiteFails, SiteGoesOn, SiteLinks, SiteVisits};

use qs_disk::Disk;

/// A site of a run stays one as its lanes are carried, through a visit of its node, which makes its events or is started again, or of one of its clients, so
/// through visits in any order, through a restart that fails, and whatever becomes of its links.
pub fn sites_go_on<D: Disk>()
    ensures node { (o : Opening) (n : ℕ) (old new : CellValue D) (did : Bool) (clients : List ClientCell) → NodeGoesOn D.told D.state D.fault_count D.byte_count o n old new did clients }
    ensures carries { (o : Opening) (n : ℕ) (old new : Cast D) → SiteCarries D.told D.state o n old new }
    ensures visits { (o : Opening) (n place : ℕ) (old new : Cast D) (did : Bool) → SiteVisits D.told D.state D.fault_count D.byte_count o n place old new did }
    ensures all { (o : Opening) (n : ℕ) (places : List ℕ) (old new : Cast D) (did : Bool) → SiteGoesOn D.told D.state D.fault_count D.byte_count o n places old new did }
    ensures fails { (o : Opening) (n place : ℕ) (old new : Cast D) → SiteFails D.told D.state D.fault_count D.byte_count o n place old new }
    ensures links { (o : Opening) (n : ℕ) (cast : Cast D) (links : LinksValue) → SiteLinks D.told D.state o n cast links }
{}

/// A node that is started over its disk and clients that are seated there, each at the first of its lines, are a site of a run whose world opens with that
/// node over its log and with those scripts. Clients that stand by number, each below a limit, have numbers of their own.
pub fn sites_begin<D: Disk>()
    ensures begins { (o : Opening) (n : ℕ) (alloc : Global) (given : Setting) (plan : NodePlan) (script : Script) (disk : D) (cast : Cast D) → SiteBegins D.told D.state o n alloc given plan script disk cast }
    ensures numbers { (is : ClientNo → Bool) (limit : ℕ) (clients : List ClientCell) → ByNumber is limit clients }
{}

/// Where memory was refused in a visit of a site, in whichever step, or as its node was started again, the cell still is where its node has come to: up, or down over
/// a disk that has one of two logs, whatever became of the clients. What it tells is of a local run of its node.
pub fn refused_sites_have_cells<D: Disk>()
    ensures refused { (o : Opening) (n place : ℕ) (old new : Cast D) → SiteRefused D.told D.state D.fault_count D.byte_count o n place old new }
    ensures site { (o : Opening) (n : ℕ) (cast : Cast D) → SiteHasCell D.told D.state o n cast }
    ensures tells { (o : Opening) (n : ℕ) (node : CellState D) → CellTells D.told D.state o n node }
{}

//! A node over its log is a host of the world.
ghost use Rattle.std.specs.Prelude.{ℕ};
ghost use Rattle.std.specs.Global.{Global};
ghost use Rattle.qs_log.specs.Log.{LogValue};
ghost use Rattle.qs_node_step.specs.declared.setting.Setting.{Setting};
ghost use Rattle.qs_node_step.specs.declared.event.Effects.{Effects};
ghost use Rattle.qs_node_step.specs.declared.event.Event.{Event};
ghost use Rattle.qs_node_host.specs.Host.{HostValue};
ghost use Rattle.qs_world_one.specs.InWorld.{BeginsAsHost, StepsAsHost, RisesAsHost, IsCutAsHost};
ghost use Rattle.qs_world.specs.World.{Host};

use qs_disk::Disk;

/// What it does with its records and its node is what a host of the world does: as it begins, in a whole step, in a
/// step that is cut off, and as it starts again.
pub fn hosts_of_the_world<D: Disk>()
    ensures begins { (alloc : Global) (setting : Setting) (log : LogValue D) → BeginsAsHost alloc setting log }
    ensures steps { (size before stamp : ℕ) (host : HostValue D) (event : Event) → StepsAsHost size before stamp host event }
    ensures rises { (stamp inc : ℕ) (before : Host) (log : LogValue D) → RisesAsHost stamp inc before log }
    ensures cuts { (stamp : ℕ) (out : Effects) (host : HostValue D) → IsCutAsHost stamp out host }
{}

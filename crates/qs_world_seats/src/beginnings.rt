//! How a cell begins in the world, and begins again.
ghost use Rattle.std.specs.Prelude.{ℕ, List};
ghost use Rattle.std.specs.Global.{Global};
ghost use Rattle.qs_book_journal.specs.declared.script_line.Point.{Point};
ghost use Rattle.qs_cell.specs.State.{Up};
ghost use Rattle.qs_cell.specs.declared.running.Running.{Running};
ghost use Rattle.qs_cell.specs.declared.stopped.Stopped.{Stopped};
ghost use Rattle.qs_disk.specs.Fuse.{FusedValue};
ghost use Rattle.qs_log.specs.Log.{LogValue};
ghost use Rattle.qs_node_step.specs.declared.setting.Setting.{Setting};
ghost use Rattle.qs_record.specs.declared.record.Record.{Record};
ghost use Rattle.qs_world.specs.World.{Opening};
ghost use Rattle.qs_world_packets.specs.PacketWorld.{PacketWorld};
ghost use Rattle.qs_world_seats.specs.Beginnings.{CellBegins, CellRises, CellStaysDown};

use qs_disk::Disk;
use qs_ops::Server;

/// A cell begins as its node of a world that opens with what the log held; where it is down it starts again as that node rises, or stays down there.
pub fn cells_begin_in_the_world<D: Disk, F: Server, X: Server>()
    ensures begins { (o : Opening) (n : ℕ) (alloc : Global) (given : Setting) (crashes : List ℕ) (points : List Point) (log : LogValue (FusedValue D)) (new : Up D) → CellBegins o n alloc given crashes points log new }
    ensures rises { (o : Opening) (n : ℕ) (alloc : Global) (old : Stopped D) (new : Running D F X) (world : PacketWorld) → CellRises o n alloc old new world }
    ensures stays_down { (o : Opening) (n : ℕ) (old new : Stopped D) (log : List Record) (world : PacketWorld) → CellStaysDown o n old new log world }
{}

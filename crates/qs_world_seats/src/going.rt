//! A cell and the clients of its node go on in the world.
ghost use Rattle.std.specs.Prelude.{ℕ, List, Result, Bool};
ghost use Rattle.std.specs.Global.{Global};
ghost use Rattle.qs_book_journal.specs.declared.script_line.Point.{Point};
ghost use Rattle.qs_cell.specs.Hearing.{Post};
ghost use Rattle.qs_cell.specs.State.{Up};
ghost use Rattle.qs_cell.specs.Visits.{Seat};
ghost use Rattle.qs_cell.specs.declared.state.CellState.{CellState};
ghost use Rattle.qs_cell.specs.declared.state.RestartFault.{RestartFault};
ghost use Rattle.qs_cell.specs.declared.stopped.Stopped.{Stopped};
ghost use Rattle.qs_cell_chronicle.specs.declared.occasion.Occasion.{Occasion};
ghost use Rattle.qs_cell_peers.specs.Sessions.{SessionsValue};
ghost use Rattle.qs_client.specs.declared.cell.ClientCell.{ClientCell};
ghost use Rattle.qs_disk.specs.Fuse.{FusedValue};
ghost use Rattle.qs_link.specs.declared.ends.NodeEnds.{NodeEnds};
ghost use Rattle.qs_log.specs.Log.{LogValue};
ghost use Rattle.qs_node_step.specs.declared.event.ClientAnswer.{ClientAnswer};
ghost use Rattle.qs_node_step.specs.declared.setting.Setting.{Setting};
ghost use Rattle.qs_world.specs.World.{Opening};
ghost use Rattle.qs_world_seats.specs.Reached.{EventsGoOn, RestartsGoOn, SeatBegins, TellsOfRun};
ghost use Rattle.qs_world_seats.specs.Seats.{From};
ghost use Rattle.qs_world_seats.specs.Visiting.{HearsGoOn, RoomGoesOn, TurnGoesOn, VisitBegins, VisitsGoOn};

use qs_disk::Disk;

/// Where a cell and the clients of its node are in a world to which the node has come, they are so after each event that is due, in another world, unless
/// memory was refused. Where the event is cut off there are two, with its batch kept and lost, until a restart finds which of the two logs the disk has:
/// it goes on in the world of that log, and one that fails leaves both. So what a cell tells is of a local run of its node, from where both begin.
pub fn seats_go_on<D: Disk>()
    ensures events { (o : Opening) (n : ℕ) (source : From) (occasion : Occasion) (sessions : SessionsValue) (old : Up D) (new : CellState D) (ends : List NodeEnds) (clients : List ClientCell) (answers : List ClientAnswer)
        → EventsGoOn D.told D.state D.fault_count D.byte_count o n source occasion sessions old new ends clients answers }
    ensures begins { (o : Opening) (n : ℕ) (alloc : Global) (given : Setting) (crashes : List ℕ) (points : List Point) (log : LogValue (FusedValue D)) (new : Up D) (ends : List NodeEnds) (clients : List ClientCell)
        → SeatBegins D.told D.state o n alloc given crashes points log new ends clients }
    ensures tells { (o : Opening) (n : ℕ) (node : CellState D) (ends : List NodeEnds) (clients : List ClientCell) → TellsOfRun D.told D.state o n node ends clients }
    ensures restarts { (alloc : Global) (o : Opening) (n : ℕ) (old : Stopped D) (new : CellState D) (ends : List NodeEnds) (clients : List ClientCell) (answer : Result Bool RestartFault)
        → RestartsGoOn D.told D.state D.fault_count D.byte_count alloc o n old new ends clients answer }
{}

/// A visit goes on so turn by turn: a packet is taken in, and makes an event or is set aside, the event that is due of a source is made, or nothing
/// happens. And nothing happens as a visit begins, and as room is made.
pub fn visits_of_seats_go_on<D: Disk>()
    ensures hears { (o : Opening) (n m : ℕ) (old new : Post D) (clients : List ClientCell) → HearsGoOn D.told D.state D.fault_count D.byte_count o n m old new clients }
    ensures turns { (o : Opening) (n : ℕ) (source : From) (ready : CellState D) (ends : List NodeEnds) (new : Seat D) (clients : List ClientCell) → TurnGoesOn D.told D.state D.fault_count D.byte_count o n source ready ends new clients }
    ensures room { (o : Opening) (n : ℕ) (old ready : CellState D) (ends : List NodeEnds) (clients : List ClientCell) → RoomGoesOn D.told D.state o n old ready ends clients }
    ensures begins { (o : Opening) (n : ℕ) (old begun : CellState D) (ends : List NodeEnds) (clients : List ClientCell) → VisitBegins D.told D.state o n old begun ends clients }
    ensures visits { (o : Opening) (n : ℕ) (old new : Post D) (clients : List ClientCell) → VisitsGoOn D.told D.state D.fault_count D.byte_count o n old new clients }
{}

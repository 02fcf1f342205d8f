//! Lanes are carried and clients have their turns: nothing happens in the world.
ghost use Rattle.std.specs.Prelude.{ℕ, Bool, List};
ghost use Rattle.qs_cell.specs.Starts.{CellValue};
ghost use Rattle.qs_client.specs.declared.cell.ClientCell.{ClientCell};
ghost use Rattle.qs_world.specs.World.{Opening};
ghost use Rattle.qs_world_seats.specs.Carrying.{CarriesGoOn, ClientsGoOn};

use qs_disk::Disk;

/// As a round begins and what stands in the lanes between a node and its clients is carried, and as a client has its turn, the cell and the clients are in
/// the world as before, and no two clients have one number.
pub fn lanes_go_on<D: Disk>()
    ensures carries { (o : Opening) (n : ℕ) (old new : CellValue D) (befores afters : List ClientCell) → CarriesGoOn D.told D.state o n old new befores afters }
    ensures clients { (o : Opening) (n : ℕ) (cell : CellValue D) (clients new : List ClientCell) (at : ℕ) (did : Bool) → ClientsGoOn D.told D.state o n cell clients new at did }
{}

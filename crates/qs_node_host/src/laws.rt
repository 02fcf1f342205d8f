//! Fresh disks have room.
ghost use Rattle.std.specs.Prelude.{ℕ, replicate};
ghost use Rattle.qs_disk.specs.Disk.{IsSize};
ghost use Rattle.qs_node_host.specs.Roomy.{HasRoomyLog};

/// What a disk of zeros has for a log has room for all that is kept there, which is nothing: a first run begins with room.
pub fn fresh_disks_are_roomy()
    ensures { (keep size : ℕ) → IsSize size → HasRoomyLog keep size (replicate size 0) }
{}

//! Many disks, and one.
ghost use Rattle.std.specs.Prelude.{ℕ, List};
ghost use Rattle.std.specs.Global.{Global};
ghost use Rattle.qs_disk.specs.Disk.{DiskState};
ghost use Rattle.qs_world_left.specs.Disks.{FreshAreCoherent, OneIsCoherent};
ghost use Rattle.qs_world_left.specs.Left.{CoherentAreRead};
ghost use Rattle.qs_world_left.specs.Touched.{TouchedStayCoherent};

use qs_world_opening::logs_stay_coherent;

/// What a read gives of coherent disks is coherent, where it is one of the images of each. Of one disk this says what is said of the only disk of a run.
pub fn disks_are_read()
    ensures read { (disks : List DiskState) → CoherentAreRead disks }
    ensures one { (disk : DiskState) → OneIsCoherent disk }
{}

/// What disks of zeros have for logs is empty, and so coherent: a first run of so many nodes may begin over them.
pub fn fresh_disks_stand_together()
    ensures { (alloc : Global) (size : ℕ) (lengths : ℕ → ℕ) → FreshAreCoherent alloc size lengths }
{
    logs_stay_coherent();
}

/// Disks stay coherent where no more was done on them than to raise the incarnations of their logs.
pub fn touched_disks_stay_coherent()
    ensures { (old new : List DiskState) → TouchedStayCoherent old new }
{
    logs_stay_coherent();
}

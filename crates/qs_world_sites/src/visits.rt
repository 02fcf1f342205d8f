//! The visit of the actor whom a turn means.
ghost use Rattle.std.specs.Prelude.{◌≡◌, slice_get, Err, IfOk, OnOk};
ghost use Rattle.qs_base.specs.declared.identifiers.NodeNo.{NodeNo};
ghost use Rattle.qs_world_rounds.specs.Breaks as one;
ghost use Rattle.qs_world_rounds.specs.declared.faults.RoundFault.TheVariants as faults;
ghost use Rattle.qs_world_sites.specs.Breaks.{FailsHere, HasRisen, OfSite};
ghost use Rattle.qs_world_sites.specs.Late.{IsLate, RisesBy};
ghost use Rattle.qs_world_sites.specs.Rounds.{VisitOfSite};
ghost use Rattle.qs_world_sites.specs.Sites.{AreLinked, Each, StaysLinked};

use crate::turn::Turn;
use qs_disk::Disk;
use qs_world_rounds::{Actors, RoundFault};

/// The visit of the actor whom the turn means, and whether anything was done in it. A fault of a disk is told with its node, which was down
/// and could not be started again for it; it comes only where the disk's own count of faults rose since it was handed in. `NoMemory`
/// comes where memory was refused, be it within a step of a node; `Damaged` where a log opened as damaged as its node was started
/// again, which over a disk that tells it never does within 2^61 - 2 visits and restarts of the node.
pub fn visit_turn<D: Disk>(sites: &mut Vec<Actors<D>>, turn: Turn) -> Result<bool, RoundFault>
    requires { AreLinked sites.old.items }
    ensures visits { IfOk result (VisitOfSite D.told D.state D.fault_count D.byte_count turn (slice_get sites.old.items turn.site) sites.old.items sites.new.items) }
    ensures broken { (node : NodeNo) → result ≡ Err (faults.DiskFault node) → OfSite (FailsHere D.told D.state D.fault_count D.byte_count node) turn (slice_get sites.old.items turn.site) sites.old.items sites.new.items }
    ensures rose { (node : NodeNo) → result ≡ Err (faults.DiskFault node) → HasRisen D.fault_count node sites.old.items sites.new.items }
    ensures refused { result ≡ Err faults.NoMemory → OfSite (one.RefusedAt D.told D.state D.fault_count D.byte_count) turn (slice_get sites.old.items turn.site) sites.old.items sites.new.items }
    ensures damaged { D.told → result ≡ Err faults.Damaged → IsLate 0 sites.old.items }
    ensures rises { OnOk result (Each (RisesBy 1) sites.old.items sites.new.items) }
    ensures stays { Each StaysLinked sites.old.items sites.new.items }
    ensures linked { AreLinked sites.new.items }
{
    if turn.site < sites.len() {
        return sites[turn.site].visit(turn.place);
    }
    Ok(false)
}

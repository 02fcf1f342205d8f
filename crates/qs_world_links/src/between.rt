//! A link between the traces of its two nodes.
ghost use Rattle.std.specs.Prelude.{ℕ};
ghost use Rattle.qs_cell.specs.Hearing.{Post};
ghost use Rattle.qs_world_links.specs.Between.{EachLinkBegins, EachLinkGoesOn, EachLinkIsCarried, EachLinkIsNamed, EachLinkKeepsPlan};
ghost use Rattle.qs_world_links.specs.Posts.{LinkIsPutTo, LinkIsTakenFrom};

use qs_disk::Disk;

/// A new link stands between two traces that tell of nothing, and stays between its traces as it is carried, and as its ends go on, each in a
/// thread of its own. All that stands on a link goes from the one node to the other; and what the receiver's trace took of the sender is a front
/// of all that goes out by the plan of what the sender's trace put.
pub fn links_bring_by_plan()
    ensures begins { EachLinkBegins }
    ensures carried { EachLinkIsCarried }
    ensures goes_on { EachLinkGoesOn }
    ensures named { EachLinkIsNamed }
    ensures keeps { EachLinkKeepsPlan }
{}

/// A link stays between the traces of its two nodes as the cell of either tells what it did with its links.
pub fn links_go_on_as_told<D: Disk>()
    ensures put { (nodes m n : ℕ) (old new : Post D) → LinkIsPutTo nodes m n old new }
    ensures taken { (nodes m n : ℕ) (old new : Post D) → LinkIsTakenFrom nodes m n old new }
{}

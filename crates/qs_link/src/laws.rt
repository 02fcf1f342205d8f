//! What lanes and links keep. Each is a function that does nothing.
ghost use Rattle.std.specs.Prelude.{◌≡◌, [], ◌++◌, List};
ghost use Rattle.qs_link.specs.Lane.{FeedValue, DrawValue, Fed, Drawn, IsFifo, on_way};
ghost use Rattle.qs_link.specs.Plan.{OutgoingValue, HoldsSome, IsFresh};
ghost use Rattle.qs_link.specs.Planned.{PutAll, IsLink, Carried};
ghost use Rattle.qs_link.specs.declared.outgoing.LinkFault.{LinkFault};
ghost use Rattle.qs_packet.specs.declared.packet.Packet.{Packet};

/// Whatever the two ends of a lane did, each in a thread of its own: what was taken and what is on
/// its way are what was on its way and what was put.
pub fn went<T>()
    ensures { (ps ts : List T) (f g : FeedValue T) (d e : DrawValue T) → IsFifo f d → IsFifo g e → Fed ps f g → Drawn ts d e → ts ++ on_way g e ≡ on_way f d ++ ps }
{}

/// What was taken of a link and what is on its way is all that goes out by the plan of what was put:
/// so of a new link, and after both ends went on, each in a thread of its own, and after a carry. So
/// what was taken is a front of it.
pub fn taken_is_put()
    ensures begins { (o : OutgoingValue) (i : DrawValue Packet) (plan : List LinkFault) → IsFresh plan o → on_way o.feed i ≡ [] → IsLink [] [] o i }
    ensures goes_on { (put taken xs ts : List Packet) (o p : OutgoingValue) (i j : DrawValue Packet) → HoldsSome o.plan → IsLink put taken o i
        → IsFifo o.feed i → IsFifo p.feed j → PutAll xs o p → Drawn ts i j → IsLink (put ++ xs) (taken ++ ts) p j }
    ensures carried { (put taken : List Packet) (o p : OutgoingValue) (i j : DrawValue Packet) → IsLink put taken o i → Carried o p i j → IsLink put taken p j }
{}

//! What passes make of two ends of a session, from whatever a run left of them.
ghost use Rattle.std.specs.Prelude.{◌≡◌, ℕ};
ghost use Rattle.qs_session_settling.specs.Delivered.{EachDelivers, EachGoesOn, EachRunDelivers};
ghost use Rattle.qs_session_settling.specs.Plain.{EachHasPasses, parted_by, plainly, reunited, slow, slow_at_rest};
ghost use Rattle.qs_session_settling.specs.Ran.{EachRunLeaves, EachRunSettles};
ghost use Rattle.qs_session_settling.specs.Settled.{EachAcquaints, EachFallsSilent, EachHandsUp, EachHasHandedUp, EachHasMet, EachIsSilent, EachMeets, EachRests, EachSettles, EachStays, EachStaysKnown, EachStaysMet};

/// Each step of either side, a packet taken, a message sent or a tick, leaves what a run leaves, and keeps that the two know each other, and have met.
pub fn stays<M>()
    ensures consistent { EachStays M }
    ensures known { EachStaysKnown M }
    ensures met { EachStaysMet M }
{}

/// After three passes, from whatever a run left, each of two ends knows the other's present incarnation.
pub fn acquaints<M>()
    ensures { EachAcquaints M }
{}

/// Six passes make two ends that know each other meet, each the other's present incarnation, so nine do from whatever a run left.
pub fn meets<M>()
    ensures knowing { EachMeets M }
    ensures whole { EachHasMet M }
{}

/// Behind one pass over two ends that know each other, each pass hands up whatever was kept as it began. So five passes hand up, from whatever a run left,
/// what each end kept for the other's present incarnation.
pub fn hands_up<M>()
    ensures knowing { EachHandsUp M }
    ensures whole { EachHasHandedUp M }
{}

/// Five passes without a send bring two ends that have met to rest: nothing is kept, owed or on its way. At rest no tick puts a packet, and all stays as it
/// is until a message is sent.
pub fn rests<M>()
    ensures falls { EachFallsSilent M }
    ensures silent { EachIsSilent M }
    ensures stays { EachRests M }
{}

/// Eleven passes without a send settle two ends, from whatever a run left: they have met, each the other's present incarnation, what each kept for that
/// has been handed up, and nothing is sent any more.
pub fn settles<M>()
    ensures { EachSettles M }
{}

/// Every run of the network leaves two nodes that run so, with any packets on the links between them that it sent, whatever is lost, repeated and held in
/// it, and whoever crashes: so eleven passes without a send settle them.
pub fn runs_settle<M>()
    ensures leaves { EachRunLeaves M }
    ensures settles { EachRunSettles M }
{}

/// Steps over two nodes of a network are events of it. At rest all that was posted between the two incarnations has been handed up, in order, each once: so
/// eleven passes without a send, from whatever a run left, are a run on to a network in which it has.
pub fn runs_deliver<M>()
    ensures goes { EachGoesOn M }
    ensures delivers { EachDelivers M }
    ensures whole { EachRunDelivers M }
{}

/// Whatever stands on the links, there are passes without a send: those in which each side takes just that, and ticks.
pub fn passes_are_there<M>()
    ensures { EachHasPasses M }
{}

/// Whole stretches by evaluation. A node that rose again has its messages handed up and acknowledged; where a packet of a dead incarnation of the other
/// node comes first, what waited is put for that, and given up. And a stretch that takes seven passes.
pub fn rows()
    ensures reunited { plainly 0 5 (parted_by 2) ≡ reunited 2 }
    ensures given_up { plainly 0 3 (parted_by 1) ≡ reunited 0 }
    ensures slow { plainly 0 7 slow ≡ slow_at_rest }
{}

//! What a step does for the clients of its node, deed by deed: its entries break no rule of clients, and the course after them has of each client what the node has for it.
ghost use Rattle.qs_world_said.specs.Deeds.{AbortsKeep, AsksKeep, BeginsKeep, ComesJust, ComesKeeps, EndedKeeps, HomeAbortsKeep, IssuesAwayKeep, IssuesHereKeep, LearnsKeeps, NotItsKeeps, OverKeeps, RefusesKeep, RepliesKeep, RestsKeep, ServesAwayKeep, ServesKeep, TakesKeep, UnbegunKeeps, UnseenKeeps, VoidKeeps, YieldsKeep};

/// What no client sees of a step leaves what the course has of clients, and so does a home's abort by a vote, for a node that is gone or for want of room.
pub fn the_unseen_stays()
    ensures unseen { UnseenKeeps }
    ensures aborts { HomeAbortsKeep }
{}

/// As a line comes, its client has just that in hand, and nothing was done for it since (`just`); where nothing is, it is on the course as before (`rests`). The label of a
/// request may be learnt.
pub fn lines_come_on_course()
    ensures comes { ComesKeeps }
    ensures just { ComesJust }
    ensures rests { RestsKeep }
    ensures learns { LearnsKeeps }
{}

/// A begin of a new label is answered as it begins, or refused for want of room in the log.
pub fn begins_keep_to_the_script()
    ensures begins { BeginsKeep }
    ensures refuses { RefusesKeep }
{}

/// An owner is told that its transaction never began or how it ended, and a borrower that the loan of its last take is not its own any more or is void; a take is
/// answered as the loan is worth.
pub fn answers_keep_to_the_script()
    ensures unbegun { UnbegunKeeps }
    ensures over { OverKeeps }
    ensures not_its { NotItsKeeps }
    ensures void { VoidKeeps }
    ensures ended { EndedKeeps }
    ensures takes { TakesKeep }
{}

/// What a command makes is what the first line of its client says, and is made once: a yield, an ask, an abort, and a request to a server here or elsewhere.
pub fn commands_keep_to_the_script()
    ensures yields { YieldsKeep }
    ensures asks { AsksKeep }
    ensures aborts { AbortsKeep }
    ensures here { IssuesHereKeep }
    ensures away { IssuesAwayKeep }
{}

/// A serve is kept for whoever asked, and lends to a client of its node; and a reply that was given answers the command that was issued for it.
pub fn serves_keep_to_the_script()
    ensures here { ServesKeep }
    ensures away { ServesAwayKeep }
    ensures replies { RepliesKeep }
{}

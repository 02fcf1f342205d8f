//! What holds of every run of the commit protocol.
ghost use Rattle.std.specs.Prelude.{◌≡◌, ◌++◌, ℕ, true, List, ◌∷◌};
ghost use Rattle.qs_world_agree.specs.World.{World, Committed};
ghost use Rattle.qs_world_agree.specs.Origins.{Origin, IsOrigin, first};
ghost use Rattle.qs_world_agree.specs.Step.{Event, Refuse, Answer_running};
ghost use Rattle.qs_world_agree.specs.Laws.{Run, IsSettled, IsAnswered, IsInvolved, IsAgreed, IsSilenced};
ghost use Rattle.qs_world_agree.specs.Events.{Happens, IsOpposed, NeverCommits, IsRemembered};
ghost use Rattle.qs_world_agree.specs.Doomed.{DoomStays, AbortDooms, EngagedPastDooms, PastHomeDooms, AbortVoteDooms, GoneDooms, RefusalDooms, LeftDooms, LeftBehindDooms, KeptBackDooms, SentStays, LateDooms, BusyEngaged, EngagedOpen, LeftOpen, KeptBackOpen};

/// Once commit is decided, every request was served and stands before a vote, and no vote was against it.
pub fn unanimity()
    ensures settled { (origin : Origin) (events : List Event) (new : World) → IsOrigin origin → Run (first origin) events new → new.cell ≡ Committed → IsSettled new }
{}

/// Once commit is decided, whoever is in doubt is named by the Commit that stands in the home's log. Whoever sent a request, used a server that is told without a vote, or has a Prepare in its log is among those.
pub fn nobody_forgotten()
    ensures answered { (origin : Origin) (events : List Event) (new : World) → IsOrigin origin → Run (first origin) events new → new.cell ≡ Committed → IsAnswered new }
    ensures involved { (origin : Origin) (events : List Event) (new : World) → IsOrigin origin → Run (first origin) events new → new.cell ≡ Committed → IsInvolved new }
{}

/// Nobody learns commit where another learns abort, and nobody knows or is told what was not decided.
pub fn agreement()
    ensures agreed { (origin : Origin) (events : List Event) (new : World) → IsOrigin origin → Run (first origin) events new → IsAgreed new }
{}

/// Whoever was told abort serves nothing more of the transaction, and votes on nothing.
pub fn abort_is_final()
    ensures silenced { (origin : Origin) (before after : List Event) (mid new : World) → IsOrigin origin → Run (first origin) before mid → Run mid after new → IsSilenced mid new }
{}

/// A run in which a server votes abort never commits: no event decides it, and nobody is told it, learns it or is answered so. Nor where an engaged place takes a refusal, or waits for a reply that never comes.
pub fn abort_votes_are_heeded()
    ensures voted { (origin : Origin) (events : List Event) (new : World) → IsOrigin origin → Run (first origin) events new → IsOpposed events → NeverCommits events new }
    ensures refused { (origin : Origin) (before after : List Event) (q : ℕ) (mid new : World) → IsOrigin origin → Run (first origin) before mid → mid.engaged q ≡ true → Run mid (Refuse q ∷ after) new → NeverCommits (before ++ Refuse q ∷ after) new }
{}

/// Whoever inquired while the home ran the transaction is told what the home decides: a Commit names its node, and stands until that acknowledges; where the home aborts, it is to tell the node.
pub fn inquirers_are_told()
    ensures remembered { (origin : Origin) (events : List Event) (q : ℕ) (new : World) → IsOrigin origin → Run (first origin) events new → Happens events (Answer_running q) → IsRemembered events new (new.node q) }
{}

/// A transaction is doomed, and never commits, where abort is decided or voted, where an engaged place stopped, was refused or has a cause
/// Gone, where the home stopped before it committed, and where a request can be taken no more: what it was put for stopped, or knows a later
/// incarnation of its sender's node, or its sender stopped before it was put.
pub fn doom()
    ensures stays { DoomStays }
    ensures aborted { AbortDooms }
    ensures engaged { EngagedPastDooms }
    ensures home { PastHomeDooms }
    ensures voted { AbortVoteDooms }
    ensures gone { GoneDooms }
    ensures refused { RefusalDooms }
    ensures left { LeftDooms }
    ensures left_behind { LeftBehindDooms }
    ensures kept_back { KeptBackDooms }
    ensures sent { SentStays }
    ensures late { LateDooms }
{}

/// While a place is engaged, and a request is still to be handed up or put, commit is not decided; and a place is engaged while anything is
/// open there.
pub fn open_still()
    ensures busy { BusyEngaged }
    ensures engaged { EngagedOpen }
    ensures left { LeftOpen }
    ensures kept_back { KeptBackOpen }
{}

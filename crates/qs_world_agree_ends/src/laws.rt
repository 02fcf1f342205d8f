//! What holds in every world of every run, also once abort is decided.
ghost use Rattle.qs_world_agree_ends.specs.Engagement.{EngagedHangs, EngagerIsNearer, BusyIsEngaged, HomeIsEngaged};
ghost use Rattle.qs_world_agree_ends.specs.Moments.{EngagedGoesOn, SaidGoesOn, EngagersComeFirst, OwedComesLater, EngagersLeadHome};
ghost use Rattle.qs_world_agree_ends.specs.Requests.{SentIsPut, PutIsKnown, UncoveredGoesOn, OwedIsKnown};
ghost use Rattle.qs_world_agree_ends.specs.Still.{EngagedRuns, HomeIsReady};
ghost use Rattle.qs_world_agree_ends.specs.Telling.{CommitMayBeTold, ToldMayAnswer, LearntIsAnswered, AbortMayBeTold, ToldMayLearn, ToTellStays, DrawnAreToTell, DrawnAreNamed};
ghost use Rattle.qs_world_agree_ends.specs.Waiting.{RisenGoesOn, InvolvedWasEngaged, AwaitsBehind};
ghost use Rattle.qs_world_agree_ends.specs.Word.{HomeHasDecided, NobodyAwaits};

/// A request that is not covered is kept back, or was put for the place that its sender knows. While its sender runs, has no cause Gone and has
/// decided nothing, the request is still to be handed up there, or an answer that covers it is on its way back, or the place that took it is
/// engaged and answers to the sender's node, and to that sender.
pub fn requests_go_on()
    ensures put { SentIsPut }
    ensures known { PutIsKnown }
    ensures uncovered { UncoveredGoesOn }
    ensures owed { OwedIsKnown }
{}

/// Whoever is engaged hangs below its engager, which is engaged too, or is the home, and has not covered the last request that the place took of it,
/// if it has no cause Gone. Unless the place knows abort, the engager is nearer to the home. And who has anything open is engaged, or is the home.
pub fn engaged_hang()
    ensures hangs { EngagedHangs }
    ensures nearer { EngagerIsNearer }
    ensures busy { BusyIsEngaged }
    ensures home { HomeIsEngaged }
{}

/// Whoever engaged a place last is the home, or was engaged before it, and is engaged as long as the place is. Once the place has said yes, its engager is
/// engaged still, or says yes later. Where no engager stopped, who owes a place an answer was engaged by it. So from engager to engager one comes from each
/// place that was ever engaged to the home.
pub fn engagers_come_first()
    ensures order { EngagersComeFirst }
    ensures owed { OwedComesLater }
    ensures home { EngagersLeadHome }
{}

/// As a run goes on, each place keeps the moment at which it was engaged last and the one at which it said yes, unless an event engages it anew, or it says yes
/// anew; and it rises in doubt by a restart alone.
pub fn moments_go_on()
    ensures engaged { EngagedGoesOn }
    ensures said { SaidGoesOn }
    ensures risen { RisenGoesOn }
{}

/// Where running places know running places alone, each engaged place runs, as all between it and the home, or one of these has a cause Gone, and all above
/// that run.
/// Where besides no request and no answer is on its way, whoever is engaged has nothing to do and no cause Gone, and nobody is left to say yes, the home is
/// ready, if it runs and has decided nothing.
pub fn votes_come_to_an_end()
    ensures runs { EngagedRuns }
    ensures ready { HomeIsReady }
{}

/// Whoever is to be told was engaged, or rose in doubt. So whoever awaits word and did not rise in doubt was drawn in by another that awaits word, and so on, up
/// to the home, or a place that stopped or knows the outcome.
pub fn who_awaits_word()
    ensures involved { InvolvedWasEngaged }
    ensures behind { AwaitsBehind }
{}

/// While a Commit has no End, the running place of the home's node may tell it to anybody. Who is told, and knows a place of the home's node, may learn it
/// or acknowledge. Who has learnt it has put its Told.
pub fn commits_are_told()
    ensures told { CommitMayBeTold }
    ensures answers { ToldMayAnswer }
    ensures learnt { LearntIsAnswered }
{}

/// Whom a place of the home's node is to tell abort, it may tell, and stays to be told. Who is told knows it, or may learn it. The home is to tell all whom it
/// had drawn in before it decided, and the Told of another place names all whom that had drawn in before it learnt, but for the home's node.
pub fn aborts_are_told()
    ensures told { AbortMayBeTold }
    ensures learns { ToldMayLearn }
    ensures stays { ToTellStays }
    ensures drawn { DrawnAreToTell }
    ensures named { DrawnAreNamed }
{}

/// Where the running place of the home's node is a later one, or has decided, the outcome is decided. Where it is, and no place awaits word that a Commit without
/// an End names, nor of an abort one that rose in doubt, or whose engager has stopped or knows it, nobody awaits word.
pub fn word_comes_to_all()
    ensures decided { HomeHasDecided }
    ensures none { NobodyAwaits }
{}

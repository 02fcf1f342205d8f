//! A transaction of which all places hold what they should is unanimous as it is committed.
ghost use Rattle.qs_world_runs.specs.StopLaws.{StopsPlaced, CutPlaced, StopHolds, CutHolds};
ghost use Rattle.qs_world_runs.specs.PlacesRules.{LeftGoesOn, BeginLeaves, OthersLeave, RestLeaves, IssueHereGoesOn, IssueAwayGoesOn, ServeGoesOn, VoteGoesOn, YieldGoesOn};
ghost use Rattle.qs_world_runs.specs.PlacesCommits.{WorldShowsField, HomeCommitsUnanimous};
ghost use Rattle.qs_world_runs.specs.PlacesComes.{MessageComes, NoticeComes, RequestComes};
ghost use Rattle.qs_world_runs.specs.PlacesWhole.{ServeAllGoes, StepPlaces};
ghost use Rattle.qs_world_runs.specs.PlacesJoined.{WholeStepPlaces};
ghost use Rattle.qs_world_runs.specs.PlacesSteps.{FreshFind, StepsKeepPlaces, WholeFind};
ghost use Rattle.qs_world_runs.specs.JoinedLaws.{EachCommitsSettled};
ghost use Rattle.qs_world_runs.specs.JoinedPlaces.{PlacesAt};
ghost use Rattle.qs_world_runs.specs.PlacesTurns.{FindsSettle, OthersBeside, PlacedSettles, TurnsBegan, TurnsFollow, TurnsGo, TurnsSettle, TurnsShown};
ghost use Rattle.qs_world_runs.specs.Awaited.{BusyEngaged, IssuesWait, StepsWaitOn, WaitsEngaged};
ghost use Rattle.qs_world_runs.specs.Awaiting.{EachIssueWaits};
ghost use Rattle.qs_world_runs.specs.PlacesGo.{IssueGoes, SettleGoes, CommandGoes, WaitGoes};
ghost use Rattle.qs_world_runs.specs.PlacesEnds.{StepBegins, StepEnds};
ghost use Rattle.qs_world_runs.specs.PlacedLaws.{ReadyFree, FreeAgrees, QuietUnanimous, CommittedFree, CommittedWays, CommittedKeeps, CommittedUnanimous};

/// At a node that is ready no request of it waits, no loan stands and every vote covers what was served; where that is so its present lives agree. Where all nodes
/// are such and nothing is on its way, it is unanimous.
pub fn quiet()
    ensures ready { ReadyFree }
    ensures agrees { FreeAgrees }
    ensures unanimous { QuietUnanimous }
{}

/// Once the agreement machine has decided commit, nodes elsewhere than at the home are such, and nothing is on its way; so a commit of a
/// home that stopped as it had forced it is unanimous.
pub fn commits()
    ensures free { CommittedFree }
    ensures ways { CommittedWays }
    ensures keeps { CommittedKeeps }
    ensures unanimous { CommittedUnanimous }
{}

/// A node stops, between two steps or in one of which nothing is kept of it: it is doomed then, or so placed still. So it is where a record
/// of it is kept, if it was unanimous before where that step decided it.
pub fn stops()
    ensures placed { StopsPlaced }
    ensures cut { CutPlaced }
    ensures stop_holds { StopHolds }
    ensures cut_holds { CutHolds }
{}

/// In the middle of a step of a node, what all places hold goes on through rules that leave it, as most do; and as a request is issued that
/// reaches a node, as one is served with its loan, as a vote for commit is cast, and as a loan is given back.
pub fn rules()
    ensures left { LeftGoesOn }
    ensures begins { BeginLeaves }
    ensures others { OthersLeave }
    ensures rest { RestLeaves }
    ensures issues_here { IssueHereGoesOn }
    ensures issues_away { IssueAwayGoesOn }
    ensures serves { ServeGoesOn }
    ensures votes { VoteGoesOn }
    ensures yields { YieldGoesOn }
{}

/// A home that is ready in the middle of its step commits in the agreement machine, whatever room its log has; so where all places hold what
/// they should, or it is doomed, its transaction is unanimous.
pub fn home_commits()
    ensures field { WorldShowsField }
    ensures unanimous { HomeCommitsUnanimous }
{}

/// A step begins with the field of its world, and ends with that of the world after it: what it sent stands behind what was on its way, or
/// waits where no incarnation of its receiver is known. In between a message is off its way, and waits at its server where it is a request.
pub fn ends()
    ensures begins { StepBegins }
    ensures ends { StepEnds }
    ensures comes { MessageComes }
    ensures requests { RequestComes }
    ensures notices { NoticeComes }
{}

/// From a rule of a step to the next, whichever it is, what all places hold goes on or the transaction is doomed: as a request is issued, and as a
/// transaction is settled, its own with its vote pass or another; as a command comes,
/// and as one that stayed open is looked at again.
pub fn goes()
    ensures issues { IssueGoes }
    ensures settles { SettleGoes }
    ensures commands { CommandGoes }
    ensures waits { WaitGoes }
    ensures serves { ServeAllGoes }
    ensures whole { StepPlaces }
{}

/// So it goes on through a whole step of a world in which all stands together, where the step finds what it needs or the transaction is doomed.
pub fn whole_steps()
    ensures { WholeStepPlaces }
{}

/// At the turn of a transaction, as its node settles and once its own votes are cast, a machine shows it that what showed it before leads to, and what
/// showed it once what came was done; and all that was settled before is lawful, so that what stands there may show its commit. What its home is
/// ready to commit there began before the step. What the step entered by then leaves the other nodes, whether any stamp is left for them or not.
/// So where all places hold there what they should, or it is doomed, what its home commits is unanimous. They do so as through a whole step.
pub fn at_turns()
    ensures follow { TurnsFollow }
    ensures shown { TurnsShown }
    ensures began { TurnsBegan }
    ensures settle { TurnsSettle }
    ensures others { OthersBeside }
    ensures commits { PlacedSettles }
    ensures goes { TurnsGo }
    ensures finds { FindsSettle }
{}

/// A whole step finds what it needs of a transaction that had begun, or that is doomed in what shows it after the step; and so it does of what begins in
/// it. So what all places hold goes on through each step of a run.
pub fn each_step()
    ensures begun { WholeFind }
    ensures fresh { FreshFind }
    ensures keeps { StepsKeepPlaces }
{}

/// What a home commits in a step is unanimous: what came found what it needed, and so did all that was issued and voted.
pub fn home_commits_found()
    ensures { EachCommitsSettled PlacesAt }
{}

/// A request to another node that waits for its reply waits on through a whole step, until that reply comes, the outcome comes, or its node
/// decides: its client commands nothing else meanwhile, or files vote no more, so that its node is engaged. So it waits as it is issued, where
/// its node is engaged, as it is where its own pass is due and while a loan stands.
pub fn requests_wait()
    ensures on { StepsWaitOn }
    ensures issues { IssuesWait }
    ensures busy { BusyEngaged }
    ensures engaged { WaitsEngaged }
{}

/// So what a node issues to another one in a step waits there for its reply as the step ends, or its transaction is decided there.
pub fn issues_wait()
    ensures { EachIssueWaits PlacesAt }
{}

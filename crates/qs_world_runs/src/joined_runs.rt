//! Every run of the world of nodes is lawful.
ghost use Rattle.qs_world_runs.specs.StepLaws.{AnswersAside, BeginsOwned, InStep, KeepsClients, KeepsLabels, KeepsOwing, KeepsScripts, KeepsWays, CountsHaveRoom};
ghost use Rattle.qs_world_runs.specs.Rooms.{AskedOfRun, OwnedOfRun, RoomsAt, RoomsStay};
ghost use Rattle.qs_world_runs.specs.AlongRun.{AlongRun};
ghost use Rattle.qs_world_runs.specs.JoinedPlaces.{PlacesAt};
ghost use Rattle.qs_world_runs.specs.PlacesLaws.{PlacesGoOn};
ghost use Rattle.qs_world_runs.specs.JoinedRuns.{EachMoveJoined, EachOpensJoined, EachRunJoined, EachRunLawful};
ghost use Rattle.qs_world_runs.specs.Joined.{RunningAt};
ghost use Rattle.qs_world_runs.specs.CutCommits.{EachKeepsCommits, EachKeepsItsBatch, EachKeepsVotes};
ghost use Rattle.qs_world_runs.specs.CutRecords.{StepsMakeRecords};
ghost use Rattle.qs_world_runs.specs.CutVotes.{BatchLeavesVotes, DueVotesCut, EachMarkedBefore, StepsVoteDue};
ghost use Rattle.qs_world_runs.specs.Firsts.{CommitsStood, CommitsUnanimous, StepsCommitFirst, StepsVoteFirst};
ghost use Rattle.qs_world_runs.specs.Labels.{RequestsOwned};
ghost use Rattle.qs_world_runs.specs.JoinedLaws.{Opens};
ghost use Rattle.qs_world_runs.specs.RiseLaws.{EachRiseKeepsBeside, EachRisesRunning};
ghost use Rattle.qs_world_runs.specs.StaysLaws.{StepsKeepLogged, StepsTickOnce, StepsYoung};

/// All that the machines and the nodes have together stands as a run begins, over old logs too that a restart can take up, and after each move; so
/// each run's history is lawful.
pub fn runs_are_lawful()
    ensures opens { EachOpensJoined AlongRun }
    ensures moves { EachMoveJoined AlongRun }
    ensures runs { EachRunJoined AlongRun }
    ensures lawful { EachRunLawful }
{}

/// As a run begins, over old logs too, and as a node restarts, the machine has beside each node that begins all that it is to have beside it.
pub fn nodes_begin_with_what_stands_beside()
    ensures opens { Opens RunningAt }
    ensures rises { EachRisesRunning PlacesAt }
{}

/// A restart of one node leaves what the machine has beside each other that runs.
pub fn restart_leaves_what_stands_beside()
    ensures { EachRiseKeepsBeside }
{}

/// What all places hold of each transaction stands as a run begins, and after each whole step, in which what a home commits is unanimous; and after a
/// crash, a restart and a first meeting, if a step that was cut off decided nothing that was not unanimous before it. And what the log of a home that
/// is down has committed stays unanimous through a step of another node.
pub fn places_go_on()
    ensures { PlacesGoOn }
{}

/// A step of a node and its clients: each transaction that begins has an owner, no client is answered that has a command in hand at another node,
/// what is in hand is of clients of the node, and the machine has the scripts of all clients after it. And where its entries are lawful, each request
/// that is on its way stands in the machine in the order of numbers, behind those that wait. What the node waits for of others stands in the history.
pub fn steps_keep_what_comes()
    ensures owned { InStep PlacesAt BeginsOwned }
    ensures aside { InStep PlacesAt AnswersAside }
    ensures clients { InStep PlacesAt KeepsClients }
    ensures scripts { InStep PlacesAt KeepsScripts }
    ensures ways { InStep PlacesAt KeepsWays }
    ensures owing { InStep PlacesAt KeepsOwing }
{}

/// What has an owner, and what commit was asked for, began in the run, in an incarnation that no log of the opening can name. Of such transactions
/// files of each node have few changes pending, since each counts as an operation, of which a server takes 1,024 at most, and so has each vote of
/// files in a log: as a run begins, and after each move. So where a vote pass is due in a step, at its turn a note can tell how many changes files
/// have pending.
pub fn counts_have_room()
    ensures owned { OwnedOfRun }
    ensures asked { AskedOfRun }
    ensures opens { Opens RoomsAt }
    ensures moves { RoomsStay }
    ensures turns { InStep PlacesAt CountsHaveRoom }
{}

/// A whole step of a node leaves what its home has not decided younger than the age limit: what becomes that old at a tick it aborts in that
/// step. Its clock moves by one tick at most; and it leaves the Commits that the log had as the node opened.
pub fn steps_leave_the_young()
    ensures young { StepsYoung }
    ensures ticks { StepsTickOnce }
    ensures logged { StepsKeepLogged }
{}

/// What a home commits in a step, it commits before the step asks for it, serves a request of it, votes on it, lends for it or takes a loan back.
/// So it stood as the step began, and was unanimous. And each vote comes before what the step asks or serves of its transaction.
pub fn steps_commit_first()
    ensures first { StepsCommitFirst }
    ensures unanimous { CommitsUnanimous }
    ensures stood { CommitsStood }
    ensures votes { StepsVoteFirst }
{}

/// Where a step is cut off with its batch kept, each Commit of the log that is left is of what the machine has committed, or is unanimous and was
/// for that home to decide; and its votes are marked as its Commits are, and none that is in doubt at its home is committed.
pub fn kept_batches_are_settled()
    ensures commits { EachKeepsCommits PlacesAt }
    ensures votes { EachKeepsVotes PlacesAt }
{}

/// So the crash of a step that is cut off with its batch kept is lawful, and the machine after it has the world after it: what the log says with the batch
/// a restart may find, where each vote of the batch is of what was pending as the step began. Each vote stood on record or could be made then, and no
/// vote that was told is lost; what the log has committed is what the restart applies, and what it has in doubt is on record then.
pub fn kept_batches_are_held()
    ensures { EachKeepsItsBatch AlongRun }
{}

/// What commit was asked for, or has a request, began in the run, so it has an owner. And each label of a transaction of its own that a node keeps after
/// a step is kept as its owner's: no request that comes home tells of another.
pub fn labels_stay_owned()
    ensures requests { RequestsOwned }
    ensures labels { InStep PlacesAt KeepsLabels }
{}

/// Each vote of a step was due as the step began, beside what its member has pending: asked and not committed, with something served since the last
/// vote, and with covers that count. What was asked for, and where it was crossed, stands before the place that is next. So a vote that is due as its
/// node stops could be made then, where its member has something pending or the transaction is crossed there. And a batch leaves the votes that stood
/// as they stood, beside those of its own Prepares.
pub fn votes_were_due()
    ensures due { StepsVoteDue }
    ensures marked { EachMarkedBefore }
    ensures cut { DueVotesCut }
    ensures batch { BatchLeavesVotes }
{}

/// Where the records of a step come from: a Prepare from a vote, and a Commit or an Aborted from a decision, that the step enters, or from an outcome that
/// its node is told of what it has in doubt; an End from the last acknowledgement of a Commit that stands in the log; and an Aborted from what a home opens
/// with in doubt. Of one transaction it makes no more Commits than it enters or is told.
pub fn steps_make_records()
    ensures { StepsMakeRecords }
{}

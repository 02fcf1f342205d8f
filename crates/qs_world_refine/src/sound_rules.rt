//! Rules of a node's step that leave a sound node sound.
ghost use Rattle.qs_world_refine.specs.SoundLaws.{StartSound, OpenedSound, BeginSound, BeginCommandSound, OwnerAsksSound, AskCameSound, RefusalCameSound, ReplyCameSound, IssueAwaySound, CloserCameSound, RequestCameSound, ServeAllSound, TakeSound, YieldSound, PassRuleSound, AnswerSuperiorSound, RefuseElsewhereSound, ForgetRuleSound, DecideAbortSound, DecideCommitSound, SettleSound, TellCameSound, InquiryCameSound, ToldCameSound, PeerRestartedSound, RestartSound, BeginIncarnationSound, BorrowerCommandSound, OwnerCommandSound};
ghost use Rattle.qs_world_refine.specs.SoundMoves.{MoveSound};
ghost use Rattle.qs_world_refine.specs.SoundSteps.{HappenSound, AnswerWaitingSound, StepSound};

/// Where a world begins every node is sound; with its log where the logs are empty.
pub fn opening()
    ensures starts { StartSound }
    ensures opens { OpenedSound }
{}

/// A client begins a transaction, or its command is refused.
pub fn beginning()
    ensures begins { BeginSound }
    ensures command { BeginCommandSound }
{}

/// The node is asked for its vote, by the owner or by its superior, is refused, or gets a reply.
pub fn asking()
    ensures owner_asks { OwnerAsksSound }
    ensures ask_came { AskCameSound }
    ensures refusal_came { RefusalCameSound }
    ensures reply_came { ReplyCameSound }
{}

/// A request goes to another node of the run.
pub fn issuing()
    ensures issue_away { IssueAwaySound }
{}

/// What answers for requests comes.
pub fn counting()
    ensures closer_came { CloserCameSound }
{}

/// A request of another node comes, and what waits is served.
pub fn serving()
    ensures request_came { RequestCameSound }
    ensures serve_all { ServeAllSound }
{}

/// A client takes its loan, and gives it back.
pub fn borrowing()
    ensures take { TakeSound }
    ensures gives_back { YieldSound }
{}

/// The servers of a transaction vote.
pub fn voting()
    ensures passes { PassRuleSound }
{}

/// A node answers its superior, sends refusals on, and forgets what it only read.
pub fn answering()
    ensures answer_superior { AnswerSuperiorSound }
    ensures refuse_elsewhere { RefuseElsewhereSound }
    ensures forget_rule { ForgetRuleSound }
{}

/// A home decides.
pub fn deciding()
    ensures abort { DecideAbortSound }
    ensures commit { DecideCommitSound }
{}

/// A node settles at the end of each step.
pub fn settling()
    ensures settle { SettleSound }
{}

/// A node is told how a transaction ended, a home who took it in, or is asked.
pub fn telling()
    ensures tell_came { TellCameSound }
    ensures told_came { ToldCameSound }
    ensures inquiry_came { InquiryCameSound }
{}

/// Another node restarted, or this one did.
pub fn restarting()
    ensures peer_restarted { PeerRestartedSound }
    ensures restart { RestartSound }
    ensures begin_incarnation { BeginIncarnationSound }
{}

/// A client commands.
pub fn commanding()
    ensures borrower { BorrowerCommandSound }
    ensures owner { OwnerCommandSound }
{}

/// A whole step: what comes is done, the node settles, and commands that stayed open are answered.
pub fn stepping()
    ensures happens { HappenSound }
    ensures answers { AnswerWaitingSound }
    ensures step { StepSound }
{}

/// A move of the world: a step, one that is cut off, a crash, a restart, a first meeting.
pub fn moving()
    ensures moves { MoveSound }
{}

//! Rules of a node's step, each as its events of the agreement machine.
ghost use Rattle.qs_world_refine.specs.RuleLaws.{VotedYesGoes, CoveredGoes, IssueAwayGoes, RequestGoes, RequestHomeGoes, RequestUnknownGoes, CloserIgnored, ForeignGoes, AnsweredGoes, RefusalGoes, AskVoteGoes, RecoverableGoes, VolatileGoes, ReadOnlyGoes, AgainstGoes, ServeNextGoes, LendNextGoes, TellCommitGoes, AnswerSuperiorGoes, IssueHereGoes, OwnerAsksGoes};
ghost use Rattle.qs_world_refine.specs.DecisionLaws.{DecideCommitGoes, DecideAbortGoes, ToldCommitGoes, ToldLastGoes, ForgetReadGoes};
ghost use Rattle.qs_world_refine.specs.AbortRules.{TellAbortGoes, TellAbortAgainGoes, TellAbortUnknownGoes};
ghost use Rattle.qs_world_refine.specs.SettleLaws.{ReadyHomeGoes, ReadyElsewhereGoes, RefuseHomeGoes, RefuseElsewhereGoes, ForgetRuleGoes, SettleHomeGoes, SettleElsewhereGoes};
ghost use Rattle.qs_world_refine.specs.WaitingLaws.{IssueAwaitsGoes};
ghost use Rattle.qs_world_refine.specs.LoanLaws.{TakeGoes, GiveBackGoes};
ghost use Rattle.qs_world_refine.specs.ToldRules.{ToldAbortGoes, ToldUnknownGoes};
ghost use Rattle.qs_world_refine.specs.AgainLaws.{TellCommitUnknownGoes, TellCommitAgainGoes, TellHomeGoes, ToldElsewhereGoes, ToldRunningGoes, ToldNobodyGoes};
ghost use Rattle.qs_world_refine.specs.RestartLaws.{FindGoneGoes, NoticeDecidedGoes, TellAgainGoes, NameHomeGoes, NameOtherGoes, ResumeCommitGoes, ResumeAbortGoes};
ghost use Rattle.qs_world_refine.specs.InquireLaws.{InquireRuleGoes, ResumeDoubtGoes};
ghost use Rattle.qs_world_refine.specs.StepLaws.{StepBegins, StepEnds};
ghost use Rattle.qs_world_refine.specs.InquiryRules.{InquiryRunningGoes, InquiryCommitGoes, InquiryPastGoes, InquiryAbortGoes, InquiryUnknownGoes};

/// What answers for requests is counted where the transaction is known and not decided, and ignored where the node is not engaged.
pub fn closers()
    ensures voted_yes { VotedYesGoes }
    ensures covered { CoveredGoes }
    ensures ignored { CloserIgnored }
{}

/// A request goes to another node, and comes there; a reply comes back.
pub fn requests()
    ensures issue_away { IssueAwayGoes }
    ensures issue_awaits { IssueAwaitsGoes }
    ensures request { RequestGoes }
    ensures request_home { RequestHomeGoes }
    ensures request_unknown { RequestUnknownGoes }
    ensures answered { AnsweredGoes }
{}

/// A node is asked to vote, and refuses; a server votes, with its Prepare logged in the step of the vote or with nothing in
/// the log, for a commit or against it; and the node answers its superior once it is ready.
pub fn votes()
    ensures ask_vote { AskVoteGoes }
    ensures refusal { RefusalGoes }
    ensures recoverable { RecoverableGoes }
    ensures volatile { VolatileGoes }
    ensures read_only { ReadOnlyGoes }
    ensures against { AgainstGoes }
    ensures answer_superior { AnswerSuperiorGoes }
{}

/// A message leaves every transaction but its own.
pub fn others()
    ensures foreign { ForeignGoes }
{}

/// What waits first at a server is served, and a client takes a loan.
pub fn serving()
    ensures serve { ServeNextGoes }
    ensures lend { LendNextGoes }
{}

/// A node that is told an outcome learns it.
pub fn telling()
    ensures tell_commit { TellCommitGoes }
    ensures tell_abort { TellAbortGoes }
    ensures tell_abort_again { TellAbortAgainGoes }
    ensures tell_abort_unknown { TellAbortUnknownGoes }
{}

/// A client's request goes to a server of its own node, and the owner asks for the commit.
pub fn commands()
    ensures issue_here { IssueHereGoes }
    ensures owner_asks { OwnerAsksGoes }
{}

/// The home decides a transaction, and tells whom it is to tell.
pub fn decisions()
    ensures decide_commit { DecideCommitGoes }
    ensures decide_abort { DecideAbortGoes }
{}

/// The home's node takes in that an outcome was told, whom else an abort is to be told, and that a commit is over; another
/// node forgets what it only read.
pub fn endings()
    ensures told_commit { ToldCommitGoes }
    ensures told_last { ToldLastGoes }
    ensures told_abort { ToldAbortGoes }
    ensures told_unknown { ToldUnknownGoes }
    ensures forget_read { ForgetReadGoes }
{}

/// The home's node answers inquiries.
pub fn inquiries()
    ensures running { InquiryRunningGoes }
    ensures commit { InquiryCommitGoes }
    ensures past { InquiryPastGoes }
    ensures abort { InquiryAbortGoes }
    ensures unknown { InquiryUnknownGoes }
{}

/// What a node does of itself for one transaction at the end of a step, but for its votes.
pub fn settling()
    ensures ready_home { ReadyHomeGoes }
    ensures ready_elsewhere { ReadyElsewhereGoes }
    ensures refuse_home { RefuseHomeGoes }
    ensures refuse_elsewhere { RefuseElsewhereGoes }
    ensures forget { ForgetRuleGoes }
    ensures home { SettleHomeGoes }
    ensures elsewhere { SettleElsewhereGoes }
{}

/// A borrower takes a loan, and gives it back.
pub fn lending()
    ensures take { TakeGoes }
    ensures give_back { GiveBackGoes }
{}

/// Messages about an outcome that bring nothing new.
pub fn repeats()
    ensures commit_unknown { TellCommitUnknownGoes }
    ensures commit_again { TellCommitAgainGoes }
    ensures tell_home { TellHomeGoes }
    ensures told_elsewhere { ToldElsewhereGoes }
    ensures told_running { ToldRunningGoes }
    ensures told_nobody { ToldNobodyGoes }
{}

/// A node finds that another one restarted, and looks at one transaction: what that one owes will never come, and an outcome
/// is told again.
pub fn restarts()
    ensures find_gone { FindGoneGoes }
    ensures decided { NoticeDecidedGoes }
    ensures tell_again { TellAgainGoes }
    ensures name_home { NameHomeGoes }
    ensures name_other { NameOtherGoes }
    ensures inquire { InquireRuleGoes }
{}

/// A node makes the first step of an incarnation, with what it found in its log.
pub fn resumptions()
    ensures commit { ResumeCommitGoes }
    ensures abort { ResumeAbortGoes }
    ensures doubt { ResumeDoubtGoes }
{}

/// A step begins with what shows the world, and ends with what shows it once its messages are put and its records stand.
pub fn steps()
    ensures begins { StepBegins }
    ensures ends { StepEnds }
{}

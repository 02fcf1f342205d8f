//! What single events of the agreement machine make of all that is seen of a transaction.
ghost use Rattle.qs_world_refine.specs.EventLaws.{CountGoes, IgnoreGoes, IssueGoes, IssueLocalGoes, EngageGoes, JoinGoes, CoverGoes, DropEngageGoes, DropJoinGoes, DropCoverGoes, DropHomeGoes, ServeGoes, ServeToldGoes, LendGoes, YieldGoes, AskGoes, VoteReadGoes, VoteVolatileGoes, VoteAbortGoes, PrepareGoes, AgreeGoes, AnswerGoes, CommitGoes, CommitUnloggedGoes, TellGoes, LearnGoes, LearnAbortGoes, AcknowledgeGoes, NameAgainGoes, NoticeGoes, CrashGoes};
ghost use Rattle.qs_world_refine.specs.OutcomeLaws.{CommitAloneGoes, AbortGoes, TellWaitsGoes, TellAbortGoes, TellAbortWaitsGoes, TakeToldGoes, ForgetGoes, AcksStay};
ghost use Rattle.qs_world_refine.specs.WaitingLaws.{IssueUnmetGoes};
ghost use Rattle.qs_world_refine.specs.InquireLaws.{InquireGoes, InquireWaitsGoes};
ghost use Rattle.qs_world_refine.specs.ClosingLaws.{EndLoggedGoes, AbortLoggedGoes};
ghost use Rattle.qs_world_refine.specs.MeetingLaws.{MeetGoes};
ghost use Rattle.qs_world_refine.specs.RisingLaws.{RestartGoes};
ghost use Rattle.qs_world_refine.specs.InquiryLaws.{AnswerRunningGoes, AnswerCommitGoes, AnswerAbortGoes, TakeNameGoes};

/// Requests that are issued, come, and are covered.
pub fn requests()
    ensures issue { IssueGoes }
    ensures issue_local { IssueLocalGoes }
    ensures issue_unmet { IssueUnmetGoes }
    ensures engage { EngageGoes }
    ensures join { JoinGoes }
    ensures cover { CoverGoes }
{}

/// Requests that come where abort is known, or where the home does not run the transaction.
pub fn drops()
    ensures engage { DropEngageGoes }
    ensures join { DropJoinGoes }
    ensures cover { DropCoverGoes }
    ensures home { DropHomeGoes }
{}

/// Requests that are served, and loans.
pub fn serving()
    ensures serve { ServeGoes }
    ensures serve_told { ServeToldGoes }
    ensures lend { LendGoes }
    ensures give_back { YieldGoes }
{}

/// Votes, the answers of nodes that are ready, and how these are counted.
pub fn votes()
    ensures ask { AskGoes }
    ensures read { VoteReadGoes }
    ensures volatile { VoteVolatileGoes }
    ensures against { VoteAbortGoes }
    ensures prepare { PrepareGoes }
    ensures agree { AgreeGoes }
    ensures answer { AnswerGoes }
    ensures count { CountGoes }
    ensures ignore { IgnoreGoes }
{}

/// The decision to commit, and how it is told.
pub fn decisions()
    ensures commit { CommitGoes }
    ensures commit_unlogged { CommitUnloggedGoes }
    ensures tell { TellGoes }
    ensures commit_alone { CommitAloneGoes }
    ensures abort { AbortGoes }
{}

/// How the outcome is learnt and acknowledged.
pub fn outcomes()
    ensures learn { LearnGoes }
    ensures learn_abort { LearnAbortGoes }
    ensures acknowledge { AcknowledgeGoes }
    ensures name_again { NameAgainGoes }
{}

/// A node stops, in whatever part of what it would have put, and restarts, and another one finds that it did.
pub fn crashes()
    ensures crash { CrashGoes }
    ensures notice { NoticeGoes }
    ensures restart { RestartGoes }
    ensures meet { MeetGoes }
{}

/// An outcome is told, to a place that is known or to one that is to come, and the home takes in that it was told; a node
/// forgets what it only read.
pub fn tellings()
    ensures tell_waits { TellWaitsGoes }
    ensures tell_abort { TellAbortGoes }
    ensures tell_abort_waits { TellAbortWaitsGoes }
    ensures take_told { TakeToldGoes }
    ensures acks_stay { AcksStay }
    ensures forget { ForgetGoes }
{}

/// A node inquires, and the home answers inquiries, and takes in whom an abort is to be told.
pub fn inquiries()
    ensures inquire { InquireGoes }
    ensures inquire_waits { InquireWaitsGoes }
    ensures running { AnswerRunningGoes }
    ensures commit { AnswerCommitGoes }
    ensures abort { AnswerAbortGoes }
    ensures take_name { TakeNameGoes }
{}

/// A record that was not forced reaches the disk.
pub fn closings()
    ensures end { EndLoggedGoes }
    ensures aborted { AbortLoggedGoes }
{}

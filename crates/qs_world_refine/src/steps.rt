//! Pieces of a node's step as wholes, each as its events of the agreement machine.
ghost use Rattle.qs_world_refine.specs.PassLaws.{PassRuleGoes};
ghost use Rattle.qs_world_refine.specs.SettleWhole.{SettleTidGoes, SettleGoes};
ghost use Rattle.qs_world_refine.specs.TickLaws.{TickGoes};
ghost use Rattle.qs_world_refine.specs.RequestWhole.{RequestStands};
ghost use Rattle.qs_world_refine.specs.CloserWhole.{CoveredStands, VotedYesStands};
ghost use Rattle.qs_world_refine.specs.CameWhole.{MessageStands};
ghost use Rattle.qs_world_refine.specs.ToldWhole.{ToldStands, ToldAwayStands};
ghost use Rattle.qs_world_refine.specs.OutcomeWhole.{TellStands, InquireStands};
ghost use Rattle.qs_world_refine.specs.RestartFound.{PeerRestartedGoes};
ghost use Rattle.qs_world_refine.specs.MessageWhole.{ForeignStands, AnsweredStands, AskVoteStands, RefusalStands};
ghost use Rattle.qs_world_refine.specs.StepWhole.{StepGoes};
ghost use Rattle.qs_world_refine.specs.ServeWhole.{ServeAllGoes};
ghost use Rattle.qs_world_refine.specs.RestartWhole.{BeginIncarnationGoes};
ghost use Rattle.qs_world_refine.specs.CommandLaws.{BorrowerGoes, AnswerWaitingGoes, CommandGoes};

/// Every server whose vote is due votes, and files that owe a note issue it.
pub fn passes()
    ensures pass { PassRuleGoes }
{}

/// A node settles at the end of a step: one transaction, and all to which something may be due.
pub fn settles()
    ensures one { SettleTidGoes }
    ensures all { SettleGoes }
{}

/// Time goes on.
pub fn ticks()
    ensures tick { TickGoes }
{}

/// Clients command, and commands that stayed open are answered.
pub fn answers()
    ensures borrower { BorrowerGoes }
    ensures command { CommandGoes }
    ensures waiting { AnswerWaitingGoes }
{}

/// A node makes the first step of an incarnation.
pub fn beginnings()
    ensures begin { BeginIncarnationGoes }
{}

/// All that waits is served.
pub fn serves()
    ensures all { ServeAllGoes }
{}

/// A whole step, from what shows the world to what shows it after, over what its event makes of a transaction.
pub fn whole()
    ensures step { StepGoes }
{}

/// Messages come: about another transaction, and such as say nothing of this one to the machine.
pub fn messages()
    ensures foreign { ForeignStands }
    ensures answered { AnsweredStands }
    ensures ask_vote { AskVoteStands }
    ensures refusal { RefusalStands }
{}

/// Another node restarted.
pub fn restarts()
    ensures found { PeerRestartedGoes }
{}

/// A Tell comes to another node than the home, and an Inquire to the home's.
pub fn outcomes()
    ensures tell { TellStands }
    ensures inquire { InquireStands }
{}

/// A request comes.
pub fn requests()
    ensures request { RequestStands }
{}

/// A node that was engaged answers for what came to it: a Covered or a VotedYes comes.
pub fn closers()
    ensures covered { CoveredStands }
    ensures voted_yes { VotedYesStands }
{}

/// A node that was told the outcome acknowledges it: a Told comes to the home's node, and to another one.
pub fn tellings()
    ensures told { ToldStands }
    ensures away { ToldAwayStands }
{}

/// A message comes, whatever it is.
pub fn comings()
    ensures message { MessageStands }
{}

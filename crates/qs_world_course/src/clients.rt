//! What a course has of a client goes with what its node has for it.
ghost use Rattle.qs_world_course.specs.Answered.{AnswersGo, BeginsAreAnswered, PlainAreAnswered, RefusalsAreAnswered, TakesAreAnswered, YieldIsDue, YieldsAreAnswered};
ghost use Rattle.qs_world_course.specs.Due.{BeginIsDue, BorrowerIsReplied, DueIsKept, EndedIsDue, NotBegunIsDue, NotYoursIsDue, OwnerIsEnded, OwnerIsReplied, OwnerIsTold, RefusalIsDue, TakeIsDue};
ghost use Rattle.qs_world_course.specs.Going.{ClientStays, GivenStays, LendsGo, ServedIsGiven};
ghost use Rattle.qs_world_course.specs.LoanLaws.{LoansGo, NextIsNext, OthersStay, PresentIsPresent, TakesGo, YieldsGo};
ghost use Rattle.qs_world_course.specs.Making.{AbortIsKept, AskIsKept, BeginIsKept, BorrowerMayIssue, BorrowerMayYield, IssuesGo, MadeGoes, OwnerMayIssue};

/// The loans that a node keeps and those that the course has go together: the next one to be taken and the present one are the same in both, and stay so
/// as one is taken, is given back or is made.
pub fn loans_go_together()
    ensures next { NextIsNext }
    ensures present { PresentIsPresent }
    ensures takes { TakesGo }
    ensures yields { YieldsGo }
    ensures loans { LoansGo }
    ensures others { OthersStay }
{}

/// Each reason for which a node answers a command makes that answer due, and an answer that is due breaks no rule.
pub fn answers_are_due()
    ensures kept { DueIsKept }
    ensures begins { BeginIsDue }
    ensures refusals { RefusalIsDue }
    ensures not_begun { NotBegunIsDue }
    ensures told { OwnerIsTold }
    ensures ended { OwnerIsEnded }
    ensures replied { OwnerIsReplied }
    ensures takes { TakeIsDue }
    ensures yields { YieldIsDue }
    ensures not_yours { NotYoursIsDue }
    ensures borrower_ended { EndedIsDue }
    ensures borrower_replied { BorrowerIsReplied }
{}

/// What a command makes breaks no rule where its client's first line says so and has made nothing yet: a begin, an ask, an abort, a request of the owner or
/// of a borrower, a yield. Then the course has made of it what is in hand (`made`).
pub fn commands_make_theirs()
    ensures begins { BeginIsKept }
    ensures asks { AskIsKept }
    ensures aborts { AbortIsKept }
    ensures owner { OwnerMayIssue }
    ensures borrower { BorrowerMayIssue }
    ensures yields { BorrowerMayYield }
    ensures made { MadeGoes }
{}

/// An answer leaves the other clients and the replies (`answers`). Of its client the course has what its node has, too, after an answer that is no take's
/// (`plain`) and after a take.
pub fn takes_go_on()
    ensures answers { AnswersGo }
    ensures plain { PlainAreAnswered }
    ensures takes { TakesAreAnswered }
{}

/// So it has after a yield, as a request is issued and as a loan is made, and where nothing of the client is changed.
pub fn loans_and_issues_go()
    ensures yields { YieldsAreAnswered }
    ensures issues { IssuesGo }
    ensures lends { LendsGo }
    ensures stays { ClientStays }
{}

/// And after a begin that is answered, and after one that is refused for want of room.
pub fn begins_go_on()
    ensures begins { BeginsAreAnswered }
    ensures refusals { RefusalsAreAnswered }
{}

/// A reply that was given since its request was issued stays so, and what is served is given.
pub fn replies_are_given()
    ensures stays { GivenStays }
    ensures served { ServedIsGiven }
{}

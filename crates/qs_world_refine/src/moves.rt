//! Moves of the world: a node stops and restarts, and each move as events of the agreement machine.
ghost use Rattle.qs_world_refine.specs.EachMove.{ShownFits, EachMayCome, EachMoveGoes};
ghost use Rattle.qs_world_refine.specs.EachRun.{EachRunGoes};
ghost use Rattle.qs_world_refine.specs.JoinLaws.{StepCloses};
ghost use Rattle.qs_world_refine.specs.MoveLaws.{StartSeated, MoveSeated, StaysClosed, ClosedGoes, MoveGoes};
ghost use Rattle.qs_world_refine.specs.SaidLaws.{SaidSeen, SeenSaid, StepSaid, StepSeated, StepForces, StepOpen, OpenedSaid, RestartSaid, MoveSaid};
ghost use Rattle.qs_world_refine.specs.OpenLaws.{StartOpen, MoveMay, MoveOpen};
ghost use Rattle.qs_world_refine.specs.SaysLaws.{BeginSays, RequestSays, ReplySays, AskSays, CloserSays, RefusalSays, TellSays, ToldSays, InquirySays, ServeSays, NoticeSays, HappenSays, DecideSays, PassSays, ReadySays, RefuseSays, ForgetSays, SettleSays, ResumeSays, WaitingSays};
ghost use Rattle.qs_world_refine.specs.TakenLaws.{HandedTaken, NoticedTaken};
ghost use Rattle.qs_world_refine.specs.RiseLaws.{StartPlaced, StaysPlaced, RisenFace, RiseGoes};

/// A place that has not begun knows nobody, and 0 is no place.
pub fn places()
    ensures start { StartPlaced }
    ensures stay { StaysPlaced }
{}

/// A node opens over its log in a later incarnation, and what is seen of a transaction is what the log says of it; so the
/// machine shows it after the restart, at the home's node or another one, with votes in doubt or none.
pub fn risings()
    ensures face { RisenFace }
    ensures rise { RiseGoes }
{}

/// What comes to a node and is done leaves it sound over its log.
pub fn arrivals()
    ensures begin { BeginSays }
    ensures request { RequestSays }
    ensures reply { ReplySays }
    ensures ask { AskSays }
    ensures closer { CloserSays }
    ensures refusal { RefusalSays }
    ensures tell { TellSays }
    ensures told { ToldSays }
    ensures inquiry { InquirySays }
    ensures serve { ServeSays }
    ensures restart { NoticeSays }
    ensures happens { HappenSays }
{}

/// So does what a node does of itself, a decision and each rule at the end of a step, and the first step of an incarnation.
pub fn rules()
    ensures decide { DecideSays }
    ensures pass { PassSays }
    ensures ready { ReadySays }
    ensures refuse { RefuseSays }
    ensures forget { ForgetSays }
    ensures settle { SettleSays }
    ensures resume { ResumeSays }
    ensures waiting { WaitingSays }
{}

/// A node that is sound over its log keeps of each transaction what the log says, with the records that wait: where a world
/// begins, after a whole step and a restart, and after each move.
pub fn logs()
    ensures seen { SaidSeen }
    ensures said { SeenSaid }
    ensures opens { OpenedSaid }
    ensures step { StepSaid }
    ensures seated { StepSeated }
    ensures forces { StepForces }
    ensures stays_open { StepOpen }
    ensures restart { RestartSaid }
    ensures moves { MoveSaid }
{}

/// Records of a transaction that wait may close it, and still may while their node runs; and the machine goes on as they
/// reach the disk.
pub fn closings()
    ensures stays { StaysClosed }
    ensures goes { ClosedGoes }
{}

/// The nodes of a world sit in their places, where it begins and after each move.
pub fn seats()
    ensures start { StartSeated }
    ensures moves { MoveSeated }
{}

/// What shows the world before a move shows it after: a whole step and one that is cut off, as far as the step goes on by
/// events of the machine, a stop, a restart and a first meeting.
pub fn going()
    ensures moves { MoveGoes }
{}

/// The commands that are open in a world go to nodes of the run, so that a move of it need not ask for that.
pub fn commands()
    ensures start { StartOpen }
    ensures may { MoveMay }
    ensures moves { MoveOpen }
{}

/// What shows the world with those of a step's records on the disk that must be forced goes on to what shows it with all; and
/// a message that a step takes, or a restart that it notices, is taken from the channels as from all that is read.
pub fn joins()
    ensures closes { StepCloses }
    ensures handed { HandedTaken }
    ensures noticed { NoticedTaken }
{}

/// Each move of a world goes on to show a transaction that has begun, whatever happens inside its step: from what holds of all
/// nodes, logs and channels, and from that messages about other transactions fit. A message about one that is shown fits. So it is
/// shown from any moment of a run on.
pub fn each()
    ensures fits { ShownFits }
    ensures may { EachMayCome }
    ensures moves { EachMoveGoes }
    ensures runs { EachRunGoes }
{}

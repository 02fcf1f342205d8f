//! A whole step of a node, and what is known at its stages.
ghost use Rattle.qs_world_said.specs.Amid.{NoneCameIsOn};
ghost use Rattle.qs_world_said.specs.Hands.{HandsStay};
ghost use Rattle.qs_world_said.specs.Knows.{MachineIsKnown, RoomIsKnown};
ghost use Rattle.qs_world_said.specs.Labels.{LabelsStayTold};
ghost use Rattle.qs_world_said.specs.Names.{StepKeepsNames};
ghost use Rattle.qs_world_said.specs.Naming.{NamesAreKnown, NamesAside, NamesStay};
ghost use Rattle.qs_world_said.specs.NamingStep.{NamesAreKnownAmid, StepKeepsStanding};
ghost use Rattle.qs_world_said.specs.Opens.{LawfulStepLeavesOpen, StepLeavesOpen};
ghost use Rattle.qs_world_said.specs.Outcomes.{OutcomesStayTold};
ghost use Rattle.qs_world_said.specs.Steps.{LawfulStepKeepsSaid, StepKeepsSaid};
ghost use Rattle.qs_world_said.specs.Whole.{LawfulStepLeaves};

/// What a step of a node enters breaks no rule of clients, whatever comes, and after it each client of the node is on the course (`on`), where at each stage of the step is
/// known what is known there.
pub fn steps_keep_to_the_script()
    ensures steps { StepKeepsSaid }
    ensures on { NoneCameIsOn }
{}

/// So does a step of a node of a run, where the names are known at each stage: it is lawful at each of them, which tells what is known of its machine.
pub fn lawful_steps_keep_to_the_script()
    ensures { LawfulStepKeepsSaid }
{}

/// What is known of the machine at a stage of a step is so wherever the machine after what the step entered so far holds what the node has.
pub fn stages_know_the_machine()
    ensures machine { MachineIsKnown }
    ensures room { RoomIsKnown }
{}

/// What a node keeps of outcomes is what the machine has, with its cause, at each turn of a step whose entries are lawful, where it was so before.
pub fn outcomes_stay_told()
    ensures { OutcomesStayTold }
{}

/// The labels that a node keeps tell the machine's transactions at each turn of such a step, where they did before and where the request that comes tells its own.
pub fn labels_stay_told()
    ensures { LabelsStayTold }
{}

/// So what a node keeps of names, which it has at its next restart too, is told of the machine after a step.
pub fn steps_keep_names()
    ensures { StepKeepsNames }
{}

/// What stays in hand as a step ends is not to be answered: an owner's transaction is not decided, and a borrower's request waits on a loan that stands. It is so of a step of a
/// node of a run where the names are known (`lawful`).
pub fn steps_leave_open_what_waits()
    ensures all { StepLeavesOpen }
    ensures lawful { LawfulStepLeavesOpen }
{}

/// What a node has in hand is said as scripts say it at each turn of a step, where it was so before and what comes is.
pub fn hands_stay_said()
    ensures { HandsStay }
{}

/// Names stand at each turn of a step whose entries are lawful, where they stood before it and what comes is said so; what other nodes enter leaves them (`aside`); and where
/// they stand, what has to be known of them is (`known`).
pub fn names_stand_at_each_turn()
    ensures stay { NamesStay }
    ensures aside { NamesAside }
    ensures known { NamesAreKnown }
{}

/// So at each stage of a step of a node of a run all is known of names that has to be, where what hangs on more than that node is known of the deeds (`amid`); and names stand
/// after the step (`after`).
pub fn names_are_known_amid()
    ensures amid { NamesAreKnownAmid }
    ensures after { StepKeepsStanding }
{}

/// All of it together: a step of a node of a run breaks no rule of clients, its clients stand after it as they did before, and what stays in hand is open still.
pub fn lawful_steps_leave_clients_standing()
    ensures { LawfulStepLeaves }
{}

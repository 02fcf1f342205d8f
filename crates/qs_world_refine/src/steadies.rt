//! What holds of all nodes, logs and channels of a world, whatever becomes of a transaction.
ghost use Rattle.qs_world_refine.specs.Steadies.{StartSteady, SteadyMay, MoveSteady};
ghost use Rattle.qs_world_refine.specs.SteadyFacts.{SteadyNodeFacts, SteadySuperior, SteadyTakenUp, UnbegunUnknown};

/// Where a world begins, over old logs too, and after each move, each node, what waits in its log and what is on its way stand
/// as they should; so that of a move nothing is asked beside what the agreement machine gives of the event that comes.
pub fn worlds()
    ensures start { StartSteady }
    ensures may { SteadyMay }
    ensures moves { MoveSteady }
{}

/// What such a world gives of a node that runs; and of a transaction that has not begun no node and no log knows anything.
pub fn facts()
    ensures nodes { SteadyNodeFacts }
    ensures superior { SteadySuperior }
    ensures taken_up { SteadyTakenUp }
    ensures unbegun { UnbegunUnknown }
{}

//! Two kinds of steps of a cell, whole.
ghost use Rattle.qs_world_traces.specs.Steps.{EachTakesMessage};
ghost use Rattle.qs_world_traces.specs.Ticks.{EachTakesTick};

/// A step in which a packet brings the message in turn, from what the cell itself knows of it: it makes the node's local run one step longer, and its
/// sessions are the node's ends there.
pub fn messages_are_taken()
    ensures { EachTakesMessage }
{}

/// A tick of a cell, from what the cell itself knows of it: it makes the node's local run longer by its step and a move for each session, and its sessions
/// are the node's ends there.
pub fn ticks_are_taken()
    ensures { EachTakesTick }
{}

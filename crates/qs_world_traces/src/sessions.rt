//! The sessions of a cell, as the world has them.
ghost use Rattle.qs_world_traces.specs.Puts.{EachPutsOn, EachTicksOn};
ghost use Rattle.qs_world_traces.specs.Sessions.{EachReceives, EachSends, EachTicks};

/// The sessions of a cell are its node's ends in the world: as a step sends, as a packet comes, and as a session ticks.
pub fn sessions_are_ends()
    ensures sends { EachSends }
    ensures receives { EachReceives }
    ensures ticks { EachTicks }
{}

/// What a cell has put goes on with what a step sends, and with what its sessions send again.
pub fn puts_go_on()
    ensures sends { EachPutsOn }
    ensures ticks { EachTicksOn }
{}

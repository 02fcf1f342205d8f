//! What comes in a step of a node finds what it needs.
ghost use Rattle.qs_world_runs.specs.BegunBare.{BegunBare};
ghost use Rattle.qs_world_runs.specs.ComesFind.{CommandsUnbegun, ComesFind, ComesLater, ComesUnknown};

/// Whatever comes in a step finds what it needs of a transaction that has begun, or the transaction is doomed in a machine that shows it then: a request
/// of it is taken in, what waits of it is served, and as a later incarnation of another node becomes known what all places hold of it goes on.
/// What a client's command issues for it is given. What dooms it there dooms it in each machine that is led to from there. Of what the reference machine
/// does not have yet nothing comes, and no command issues anything of what has not begun.
pub fn what_comes_finds()
    ensures finds { ComesFind }
    ensures later { ComesLater }
    ensures unknown { ComesUnknown }
    ensures unbegun { CommandsUnbegun }
{}

/// What begins in a step is not asked for there, and no loan of it stands: so no server's vote on it is due, and no borrower has a request of it issued.
pub fn what_begins_is_bare()
    ensures { BegunBare }
{}

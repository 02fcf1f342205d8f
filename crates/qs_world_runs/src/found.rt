//! What is issued and voted in a step of a node finds what it needs, or its transaction is doomed.
ghost use Rattle.qs_world_runs.specs.PlacesFound.{StepsFind, TurnsFind};

/// At each stage of a step a request that is issued fits, and goes to a node that it reaches, and a vote is for commit; else the transaction is doomed in
/// what shows it after the step, which what showed it before leads to.
pub fn in_steps()
    ensures { StepsFind }
{}

/// At the turn of a transaction whose home is ready to commit, what the step commanded, issued and voted of it found what it needed: each request fits, and
/// goes to a node that it reaches, and each vote is for commit.
pub fn at_turns()
    ensures { TurnsFind }
{}

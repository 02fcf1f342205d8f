//! The laws carried to another world, where many transactions run at once.
ghost use Rattle.std.specs.Prelude.{◌≡◌, List};
ghost use Rattle.qs_world_agree.specs.World.{World};
ghost use Rattle.qs_world_agree.specs.Carry.{RunOf, IsLawful, IsShown, Begins, GoesOn, StaysLawful};

/// Another world, and how the machine shows a transaction of it.
pub trait OtherWorld {
    ghost State: { Type 0 };

    ghost Act: { Type 0 };

    ghost Tid: { Type 0 };
    /// The acts that lead from one state to another.
    ghost does: { Act → State → State → Type 0 };
    /// A transaction that has not begun.
    ghost unbegun: { Tid → State → Type 0 };
    /// A world of the machine that shows a transaction.
    ghost shows: { Tid → State → World → Type 0 };
}

/// Such a world in which each transaction begins as the machine does, and each act is a list of the machine's events for each transaction.
///
/// So a crash, a restart and the notice of one are events of every transaction.
pub trait Shown: OtherWorld {
    ghost begins: { (t : Self.OtherWorld.Tid) (a : Self.OtherWorld.Act) (old new : Self.OtherWorld.State) → Self.OtherWorld.unbegun t old → Self.OtherWorld.does a old new → Begins Self.OtherWorld.unbegun Self.OtherWorld.shows t new };

    ghost goes_on: { (t : Self.OtherWorld.Tid) (a : Self.OtherWorld.Act) (old new : Self.OtherWorld.State) (w : World) → IsLawful w → Self.OtherWorld.shows t old w → Self.OtherWorld.does a old new → GoesOn Self.OtherWorld.shows t new w };
}

/// After every run of such a world each transaction has not begun, or is shown by a world of which all laws hold.
pub fn carried<W: Shown>()
    ensures shown { (acts : List W.Act) (old new : W.State) → ((t : W.Tid) → W.unbegun t old) → RunOf W.does old acts new → (t : W.Tid) → IsShown W.unbegun W.shows t new }
{}

/// From any moment of such a run to a later one, what shows a transaction goes on, and whoever knew abort keeps to it.
pub fn carried_on<W: Shown>()
    ensures kept { (acts : List W.Act) (old new : W.State) (t : W.Tid) (w : World) → IsLawful w → W.shows t old w → RunOf W.does old acts new → StaysLawful W.shows t new w }
{}

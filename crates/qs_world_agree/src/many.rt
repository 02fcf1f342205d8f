//! Many transactions of the machine at once, as the first world that the laws are carried to.
ghost use Rattle.std.specs.Prelude.{◌≡◌, ℕ, List, true};
ghost use Rattle.qs_world_agree.specs.Carry.{RunOf, IsLawful};
ghost use Rattle.qs_world_agree.specs.Many.{Many, Act, Does, unbegun, Shows};
ghost use Rattle.qs_world_agree.specs.ManyShown.{begins, goes_on};

use crate::carry::{OtherWorld, Shown, carried};

/// The world of many transactions over the same nodes.
pub struct ManyAtOnce;

impl OtherWorld for ManyAtOnce {
    ghost State = { Many };

    ghost Act = { Act };

    ghost Tid = { ℕ };

    ghost does = { Does };

    ghost unbegun = { unbegun };

    ghost shows = { Shows };
}

impl Shown for ManyAtOnce {
    ghost begins = { begins };

    ghost goes_on = { goes_on };
}

/// However many transactions run at once, all laws hold of each that has begun.
pub fn many_at_once()
    ensures lawful { (acts : List Act) (old new : Many) → ((t : ℕ) → unbegun t old) → RunOf Does old acts new → (t : ℕ) → new.began t ≡ true → IsLawful (new.of t) }
{
    carried::<ManyAtOnce>()
}

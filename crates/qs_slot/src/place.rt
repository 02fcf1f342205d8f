//! The places of the two slots.
ghost use Rattle.std.specs.Prelude.{◌≡◌, ◌≤◌};
ghost use Rattle.qs_slot.specs.Opening.{offset_of};
ghost use Rattle.qs_slot.specs.Turning.{other};

/// Where a slot stands.
#[derive(Clone, Copy)]
pub enum Place {
    /// At byte 0.
    First,
    /// At byte 4,096.
    Second,
}

impl Place {
    /// The byte where the slot begins.
    pub fn offset(self) -> u64
        ensures exact { result ≡ offset_of self }
        ensures within { result ≤ 4096 }
    {
        match self {
            Place::First => 0,
            Place::Second => 4096,
        }
    }

    /// The other slot.
    pub fn other(self) -> Place
        ensures { offset_of result ≡ other (offset_of self) }
    {
        match self {
            Place::First => Place::Second,
            Place::Second => Place::First,
        }
    }
}

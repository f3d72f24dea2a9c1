//! The two slots of a disk.

ghost use Rattle.std.specs.Prelude.{◌≡◌};

/// One of the two slots of a disk.
#[derive(Clone, Copy, PartialEq, Eq)]
pub enum Slot {
    First,
    Second,
}

impl Slot {
    ghost use Rattle.ic_frames.specs.Places.{place, other};

    /// The byte that it begins at.
    pub(crate) fn place(self) -> u64
        ensures { result ≡ place self }
    {
        match self {
            Slot::First => 0,
            Slot::Second => SECOND_AT,
        }
    }

    pub(crate) fn other(self) -> Slot
        ensures { result ≡ other self }
    {
        match self {
            Slot::First => Slot::Second,
            Slot::Second => Slot::First,
        }
    }
}

/// The byte that the second slot begins at.
pub const SECOND_AT: u64 = 4_194_304;

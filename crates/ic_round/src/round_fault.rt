//! Why a round isn't made.

ghost use Rattle.std.specs.Prelude.{◌≡◌};
ghost use Rattle.ic_round.specs.declared.round_fault.RoundFault.TheVariants.{Memory};

use std::alloc::AllocError;

/// Why a round isn't made, in the order in which it is tried.
#[derive(Clone, Copy, PartialEq, Eq)]
pub enum RoundFault {
    /// The fired configuration has more than 8,192 nodes.
    Overgrown,
    /// The names of the fired configuration pass 2^62.
    NamesOut,
    /// A growth was refused.
    Memory,
}

impl From<AllocError> for RoundFault {
    ghost from_gives = { λ _ fault. fault ≡ Memory };

    fn from(_error: AllocError) -> RoundFault {
        RoundFault::Memory
    }
}

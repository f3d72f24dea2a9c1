//! Why results don't make a configuration.

ghost use Rattle.std.specs.Prelude.{◌≡◌};
ghost use Rattle.ic_round.specs.declared.gather_fault.GatherFault.TheVariants.{Memory};

use std::alloc::AllocError;

/// Why results don't make a configuration, in the order in which it is tried.
#[derive(Clone, Copy, PartialEq, Eq)]
pub enum GatherFault {
    /// An awaited place has no result.
    Lost,
    /// A result is for a place that isn't awaited, or for one that has another result.
    Stranger,
    /// A growth was refused.
    Memory,
}

impl From<AllocError> for GatherFault {
    ghost from_gives = { λ _ fault. fault ≡ Memory };

    fn from(_error: AllocError) -> GatherFault {
        GatherFault::Memory
    }
}

//! Why a reduction isn't kept, or doesn't go on.

ghost use Rattle.std.specs.Prelude.{◌≡◌};
ghost use Rattle.ic_keeping.specs.declared.fault.KeepingFault.TheVariants.{Keep, Memory};

use ic_frames::{KeepFault, OpenCause};
use std::alloc::{AllocError, AllocFailed};

/// Why a reduction that is kept doesn't go on.
#[derive(Clone, Copy, PartialEq, Eq)]
pub enum KeepingFault {
    /// One of the two files holds something, which isn't written over.
    NotEmpty,
    /// A call to a file has failed before anything was kept.
    Device,
    /// The two files hold no state.
    Open(OpenCause),
    /// The state is none of a reduction: its text is no system, or its words write no configuration over its symbols.
    Unsound,
    /// What was reached has more names or nodes than are read, or there are too many interactions to be counted.
    Limit,
    /// A growth was refused.
    Memory,
    /// What was reached couldn't be kept.
    Keep(KeepFault),
}

impl From<AllocError> for KeepingFault {
    ghost from_gives = { λ _ fault. fault ≡ Memory };

    fn from(_error: AllocError) -> KeepingFault {
        KeepingFault::Memory
    }
}

impl<T: Drop> From<AllocFailed<T>> for KeepingFault {
    ghost from_gives = { λ _ fault. fault ≡ Memory };

    fn from(_error: AllocFailed<T>) -> KeepingFault {
        KeepingFault::Memory
    }
}

impl From<KeepFault> for KeepingFault {
    ghost from_gives = { λ cause fault. fault ≡ Keep cause };

    fn from(cause: KeepFault) -> KeepingFault {
        KeepingFault::Keep(cause)
    }
}

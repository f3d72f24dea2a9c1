//! Why bytes give no state.

ghost use Rattle.std.specs.Prelude.{◌≡◌};
ghost use Rattle.ic_state.specs.declared.fault.StateFault.TheVariants.{Memory};

use std::alloc::{AllocError, AllocFailed};
use thiserror::Error;

/// Why bytes give no state. The numbers are lasting.
#[derive(Clone, Copy, Debug, PartialEq, Eq, Error)]
pub enum StateFault {
    /// They are the byte form of no state.
    #[error("the bytes are no state")]
    NotAState = 1,
    /// A growth was refused.
    #[error("out of memory")]
    Memory = 2,
}

impl From<AllocError> for StateFault {
    ghost from_gives = { λ _ fault. fault ≡ Memory };

    fn from(_error: AllocError) -> StateFault {
        StateFault::Memory
    }
}

impl<T: Drop> From<AllocFailed<T>> for StateFault {
    ghost from_gives = { λ _ fault. fault ≡ Memory };

    fn from(_error: AllocFailed<T>) -> StateFault {
        StateFault::Memory
    }
}

//! Why a file isn't shown.

ghost use Rattle.std.specs.Prelude.{◌≡◌};

use std::alloc::{AllocError, AllocFailed};

/// Why a file isn't shown.
#[derive(Clone, Copy)]
pub enum InspectFault {
    /// The file can't be read.
    Read = 1,
    /// It was written meanwhile: a slot's head was another one at the second reading, or the file had its second slot
    /// only then.
    Changed = 2,
    /// A growth was refused.
    Memory = 3,
    /// The output can't be written.
    Write = 4,
}

impl InspectFault {
    ghost use Rattle.ic_inspect.specs.Seeing.{inspect_fault_number};

    /// The lasting number of the fault.
    pub fn number(self) -> u8
        ensures { result ≡ inspect_fault_number self }
    {
        self as u8
    }
}

impl From<AllocError> for InspectFault {
    ghost use Rattle.ic_inspect.specs.declared.fault.InspectFault.TheVariants.{Memory};

    ghost from_gives = { λ _ e. e ≡ Memory };

    fn from(_error: AllocError) -> InspectFault {
        InspectFault::Memory
    }
}

impl<T: Drop> From<AllocFailed<T>> for InspectFault {
    ghost use Rattle.ic_inspect.specs.declared.fault.InspectFault.TheVariants.{Memory};

    ghost from_gives = { λ _ e. e ≡ Memory };

    fn from(_failed: AllocFailed<T>) -> InspectFault {
        InspectFault::Memory
    }
}

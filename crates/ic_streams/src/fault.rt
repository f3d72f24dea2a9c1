//! Why a stream isn't answered.

ghost use Rattle.std.specs.Prelude.{◌≡◌};

use ic_round::RoundFault;
use ic_text::TextFault;
use std::alloc::{AllocError, AllocFailed};

/// Why a stream isn't answered, each with its lasting number.
#[derive(Clone, Copy, PartialEq, Eq)]
pub enum StreamFault {
    /// 1: the input can't be read.
    Read,
    /// 2: the text is refused. A `TextFault::Memory` is answered as `Memory`.
    Text(TextFault),
    /// 3: the round isn't made. A `RoundFault::Memory` is answered as `Memory`.
    Round(RoundFault),
    /// 4: a growth was refused.
    Memory,
    /// 5: the output can't be written.
    Write,
}

impl StreamFault {
    ghost use Rattle.ic_streams.specs.Faults.{stream_fault_number};

    /// The lasting number of the fault.
    pub fn number(self) -> u8
        ensures { result ≡ stream_fault_number self }
    {
        match self {
            StreamFault::Read => 1,
            StreamFault::Text(_) => 2,
            StreamFault::Round(_) => 3,
            StreamFault::Memory => 4,
            StreamFault::Write => 5,
        }
    }
}

impl From<TextFault> for StreamFault {
    ghost use Rattle.ic_streams.specs.Faults.{fault_of_text};

    ghost from_gives = { λ fault e. e ≡ fault_of_text fault };

    fn from(fault: TextFault) -> StreamFault {
        match fault {
            TextFault::Memory => StreamFault::Memory,
            refused => StreamFault::Text(refused),
        }
    }
}

impl From<RoundFault> for StreamFault {
    ghost use Rattle.ic_streams.specs.Faults.{fault_of_round};

    ghost from_gives = { λ fault e. e ≡ fault_of_round fault };

    fn from(fault: RoundFault) -> StreamFault {
        match fault {
            RoundFault::Memory => StreamFault::Memory,
            refused => StreamFault::Round(refused),
        }
    }
}

impl From<AllocError> for StreamFault {
    ghost use Rattle.ic_streams.specs.declared.fault.StreamFault.TheVariants.{Memory};

    ghost from_gives = { λ _ e. e ≡ Memory };

    fn from(_error: AllocError) -> StreamFault {
        StreamFault::Memory
    }
}

impl<T: Drop> From<AllocFailed<T>> for StreamFault {
    ghost use Rattle.ic_streams.specs.declared.fault.StreamFault.TheVariants.{Memory};

    ghost from_gives = { λ _ e. e ≡ Memory };

    fn from(_failed: AllocFailed<T>) -> StreamFault {
        StreamFault::Memory
    }
}

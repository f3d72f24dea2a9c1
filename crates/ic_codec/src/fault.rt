//! Why bytes give no table.

ghost use Rattle.std.specs.Prelude.{◌≡◌};
ghost use Rattle.ic_codec.specs.declared.fault.CodecFault.TheVariants.{Memory};

use std::alloc::{AllocError, AllocFailed};
use thiserror::Error;

/// Why bytes give no table. The numbers are lasting.
#[derive(Clone, Copy, Debug, PartialEq, Eq, Error)]
pub enum CodecFault {
    /// They are the byte form of no table.
    #[error("the bytes are no table")]
    NotATable = 1,
    /// A growth was refused.
    #[error("memory is wanting")]
    Memory = 2,
}

impl CodecFault {
    ghost use Rattle.ic_codec.specs.CodecFault.{codec_fault_number};

    /// The lasting number of the fault.
    pub fn number(self) -> u8
        ensures { result ≡ codec_fault_number self }
    {
        self as u8
    }
}

impl From<AllocError> for CodecFault {
    ghost from_gives = { λ _ fault. fault ≡ Memory };

    fn from(_error: AllocError) -> CodecFault {
        CodecFault::Memory
    }
}

impl<T: Drop> From<AllocFailed<T>> for CodecFault {
    ghost from_gives = { λ _ fault. fault ≡ Memory };

    fn from(_error: AllocFailed<T>) -> CodecFault {
        CodecFault::Memory
    }
}

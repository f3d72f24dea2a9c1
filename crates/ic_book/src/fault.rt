//! Why a call on a book was refused.

ghost use Rattle.std.specs.Prelude.{◌≡◌};
ghost use Rattle.ic_book.specs.declared.fault.BookFault.TheVariants.{Memory};

use std::alloc::AllocError;
use thiserror::Error;

/// Why a call on a book was refused. The numbers are lasting.
#[derive(Clone, Copy, Debug, PartialEq, Eq, Error)]
pub enum BookFault {
    #[error("an earlier call to the disk has failed")]
    Broken = 1,
    #[error("the history is full")]
    LogFull = 2,
    #[error("the numbers of the slots are used up")]
    Worn = 3,
    #[error("out of memory")]
    Memory = 4,
    #[error("a call to the disk has failed")]
    Device = 5,
}

impl BookFault {
    ghost use Rattle.ic_book.specs.Refusals.{fault_number};

    /// The lasting number of the refusal.
    pub fn number(self) -> u8
        ensures { result ≡ fault_number self }
    {
        self as u8
    }
}

impl From<AllocError> for BookFault {
    ghost from_gives = { λ _ e. e ≡ Memory };

    fn from(_: AllocError) -> Self {
        BookFault::Memory
    }
}

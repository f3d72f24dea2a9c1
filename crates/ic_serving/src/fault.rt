//! Why a serving ended.

ghost use Rattle.std.specs.Prelude.{◌≡◌};

use ic_book::BookFault;
use ic_lines::LineFault;
use ic_pool::PoolFault;
use std::alloc::{AllocError, AllocFailed};

/// Why a serving ended before the end of its lines, each with its lasting number.
#[derive(Clone, Copy, PartialEq, Eq)]
pub enum ServeFault {
    /// 1: the reader failed.
    Read,
    /// 2: the writer failed.
    Write,
    /// 3: more than 1,000,000 lines.
    TooManyLines,
    /// 4: the book refused a call.
    Book(BookFault),
    /// 5: a round could not be made.
    Pool(PoolFault),
    /// 6: a line of more than 262,144 bytes.
    LongLine,
    /// 7: a growth was refused.
    Memory,
}

impl ServeFault {
    ghost use Rattle.ic_serving.specs.Faults.{serve_fault_number};

    /// The lasting number of the fault.
    pub fn number(self) -> u8
        ensures { result ≡ serve_fault_number self }
    {
        match self {
            ServeFault::Read => 1,
            ServeFault::Write => 2,
            ServeFault::TooManyLines => 3,
            ServeFault::Book(_) => 4,
            ServeFault::Pool(_) => 5,
            ServeFault::LongLine => 6,
            ServeFault::Memory => 7,
        }
    }
}

impl From<LineFault> for ServeFault {
    ghost use Rattle.ic_serving.specs.Faults.{fault_of_line};

    ghost from_gives = { λ fault e. e ≡ fault_of_line fault };

    fn from(fault: LineFault) -> ServeFault {
        match fault {
            LineFault::Read => ServeFault::Read,
            LineFault::Write => ServeFault::Write,
            LineFault::LongLine => ServeFault::LongLine,
            LineFault::Memory => ServeFault::Memory,
        }
    }
}

impl From<BookFault> for ServeFault {
    ghost use Rattle.ic_serving.specs.declared.fault.ServeFault.TheVariants.{Book};

    ghost from_gives = { λ fault e. e ≡ Book fault };

    fn from(fault: BookFault) -> ServeFault {
        ServeFault::Book(fault)
    }
}

impl From<PoolFault> for ServeFault {
    ghost use Rattle.ic_serving.specs.declared.fault.ServeFault.TheVariants.{Pool};

    ghost from_gives = { λ fault e. e ≡ Pool fault };

    fn from(fault: PoolFault) -> ServeFault {
        ServeFault::Pool(fault)
    }
}

impl From<AllocError> for ServeFault {
    ghost use Rattle.ic_serving.specs.declared.fault.ServeFault.TheVariants.{Memory};

    ghost from_gives = { λ _ e. e ≡ Memory };

    fn from(_error: AllocError) -> ServeFault {
        ServeFault::Memory
    }
}

impl<T: Drop> From<AllocFailed<T>> for ServeFault {
    ghost use Rattle.ic_serving.specs.declared.fault.ServeFault.TheVariants.{Memory};

    ghost from_gives = { λ _ e. e ≡ Memory };

    fn from(_failed: AllocFailed<T>) -> ServeFault {
        ServeFault::Memory
    }
}

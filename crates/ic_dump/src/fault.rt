//! Why a table isn't dumped, or that of a disk.

ghost use Rattle.std.specs.Prelude.{◌≡◌};

use ic_frames::OpenCause;
use ic_rules::JobName;
use std::alloc::{AllocError, AllocFailed};

/// Why a table isn't dumped, each with its lasting number.
#[derive(Clone, Copy)]
pub enum DumpFault {
    /// 1: no job has this name, which is the first such.
    NoJob(JobName),
    /// 2: the line of this job, which is the first such, has more bytes than a line may have.
    TooLong(JobName),
    /// 3: a growth was refused.
    Memory,
    /// 4: the output can't be written.
    Write,
}

/// Why the table of a disk isn't dumped.
#[derive(Clone, Copy)]
pub enum DiskDumpFault {
    /// The disk isn't opened.
    Open(OpenCause),
    /// The table that it holds isn't dumped.
    Dump(DumpFault),
}

impl DumpFault {
    ghost use Rattle.ic_dump.specs.Dumping.{dump_fault_number};

    /// The lasting number of the fault.
    pub fn number(self) -> u8
        ensures { result ≡ dump_fault_number self }
    {
        match self {
            DumpFault::NoJob(_) => 1,
            DumpFault::TooLong(_) => 2,
            DumpFault::Memory => 3,
            DumpFault::Write => 4,
        }
    }
}

impl From<AllocError> for DumpFault {
    ghost use Rattle.ic_dump.specs.declared.fault.DumpFault.TheVariants.{Memory};

    ghost from_gives = { λ _ e. e ≡ Memory };

    fn from(_error: AllocError) -> DumpFault {
        DumpFault::Memory
    }
}

impl<T: Drop> From<AllocFailed<T>> for DumpFault {
    ghost use Rattle.ic_dump.specs.declared.fault.DumpFault.TheVariants.{Memory};

    ghost from_gives = { λ _ e. e ≡ Memory };

    fn from(_failed: AllocFailed<T>) -> DumpFault {
        DumpFault::Memory
    }
}

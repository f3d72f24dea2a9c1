//! Why lines are refused, and why a batch ended before its jobs have.

ghost use Rattle.std.specs.Prelude.{◌≡◌};

use ic_jobs::Refusal;
use ic_rules::JobName;
use ic_serving::ServeFault;
use ic_text::TextFault;
use std::alloc::{AllocError, AllocFailed};

/// Why a line gives no job.
#[derive(Clone, Copy, PartialEq, Eq)]
pub enum JobsCause {
    /// It can't be read. A command that submits nothing is `Syntax`.
    Text(TextFault),
    /// A disk without a job would refuse it after the lines before it: its name is taken, or there
    /// are 32 jobs already.
    Refused(Refusal),
}

/// Why lines give no jobs, each with its lasting number.
#[derive(Clone, Copy, PartialEq, Eq)]
pub enum JobsFault {
    /// 1: the first line with a fault, by its number from 1, blank lines counted, and the fault.
    Line(usize, JobsCause),
    /// 2: the lines can't be read. `read_jobs` doesn't answer it; whoever reads a file does.
    Read,
    /// 3: a growth was refused.
    Memory,
}

impl JobsFault {
    ghost use Rattle.ic_batch.specs.Faults.{jobs_fault_number};

    /// The lasting number of the fault.
    pub fn number(self) -> u8
        ensures { result ≡ jobs_fault_number self }
    {
        match self {
            JobsFault::Line(_, _) => 1,
            JobsFault::Read => 2,
            JobsFault::Memory => 3,
        }
    }
}

impl From<AllocError> for JobsFault {
    ghost use Rattle.ic_batch.specs.declared.fault.JobsFault.TheVariants.{Memory};

    ghost from_gives = { λ _ e. e ≡ Memory };

    fn from(_error: AllocError) -> JobsFault {
        JobsFault::Memory
    }
}

impl<T: Drop> From<AllocFailed<T>> for JobsFault {
    ghost use Rattle.ic_batch.specs.declared.fault.JobsFault.TheVariants.{Memory};

    ghost from_gives = { λ _ e. e ≡ Memory };

    fn from(_failed: AllocFailed<T>) -> JobsFault {
        JobsFault::Memory
    }
}

/// How a job of the disk differs from the one of its name that is to be there.
#[derive(Clone, Copy, PartialEq, Eq)]
pub enum Difference {
    /// It has other rules.
    Rules,
    /// It has another budget, or one where none is told, or none where one is.
    Budget,
    /// It has made no rounds, and has another configuration.
    Start,
}

/// Why a batch ended before it has written what its jobs came to, each with its lasting number.
#[derive(Clone, Copy, PartialEq, Eq)]
pub enum BatchFault {
    /// 1: another job has this name. Nothing was done.
    Taken(JobName, Difference),
    /// 2: the disk has no room for all jobs, beside those that it has.
    Full,
    /// 3: a call to the book, a round, a growth or the writer failed.
    Serve(ServeFault),
}

impl BatchFault {
    ghost use Rattle.ic_batch.specs.Faults.{batch_fault_number};

    /// The lasting number of the fault.
    pub fn number(self) -> u8
        ensures { result ≡ batch_fault_number self }
    {
        match self {
            BatchFault::Taken(_, _) => 1,
            BatchFault::Full => 2,
            BatchFault::Serve(_) => 3,
        }
    }
}

impl From<ServeFault> for BatchFault {
    ghost use Rattle.ic_batch.specs.declared.fault.BatchFault.TheVariants.{Serve};

    ghost from_gives = { λ fault e. e ≡ Serve fault };

    fn from(fault: ServeFault) -> BatchFault {
        BatchFault::Serve(fault)
    }
}

impl From<AllocError> for BatchFault {
    ghost use Rattle.ic_serving.specs.declared.fault.ServeFault.TheVariants.{Memory};
    ghost use Rattle.ic_batch.specs.declared.fault.BatchFault.TheVariants.{Serve};

    ghost from_gives = { λ _ e. e ≡ Serve Memory };

    fn from(_error: AllocError) -> BatchFault {
        BatchFault::Serve(ServeFault::Memory)
    }
}

//! Replies: what an event answers, and why a command is refused.

ghost use Rattle.std.specs.Prelude.{◌≡◌, IfOk, OnErr, IsTrue};

use crate::shown::{JobList, ShownJob};
use std::alloc::AllocError;

/// Why a command is refused. The numbers are lasting.
#[derive(Clone, Copy, PartialEq, Eq)]
pub enum Refusal {
    /// A job of this name is in the table.
    Taken = 1,
    /// The table has 32 jobs.
    Full = 2,
    /// No job of this name is in the table.
    NoJob = 3,
    /// The job isn't running.
    NotRunning = 4,
    /// The job isn't paused.
    NotPaused = 5,
}

impl Refusal {
    ghost use Rattle.ic_jobs.specs.Refusal.{refusal_number};

    /// The lasting number of the refusal.
    pub fn number(self) -> u8
        ensures { result ≡ refusal_number self }
    {
        self as u8
    }
}

/// What an event answers.
#[derive(Drop)]
pub enum Reply {
    /// The job was submitted, or copied.
    Accepted,
    /// The job was paused, resumed or cancelled.
    Okay,
    /// The job that was fetched.
    Shown(ShownJob),
    /// All jobs, in the order of the table.
    Listed(JobList),
    /// Nothing has changed.
    Refused(Refusal),
    /// The job made a round.
    Moved,
    /// The job was halted, since it can't make a round.
    Halted,
}

impl Reply {
    ghost use Rattle.ic_jobs.specs.Memory.{tells_jobs};

    /// A copy, equal to its source, which shares what is shown and listed. Only those of `Shown` and
    /// `Listed` may answer that memory ran out.
    pub fn copy(&self) -> Result<Reply, AllocError>
        ensures copy { IfOk result (λ copy. copy ≡ self.now) }
        ensures memory { OnErr result (IsTrue (tells_jobs self.now)) }
    {
        match self {
            Reply::Accepted => Ok(Reply::Accepted),
            Reply::Okay => Ok(Reply::Okay),
            Reply::Shown(shown) => Ok(Reply::Shown(shown.copy()?)),
            Reply::Listed(list) => Ok(Reply::Listed(list.copy()?)),
            Reply::Refused(refusal) => Ok(Reply::Refused(*refusal)),
            Reply::Moved => Ok(Reply::Moved),
            Reply::Halted => Ok(Reply::Halted),
        }
    }
}

//! Why a flight isn't played.

ghost use Rattle.std.specs.Prelude.{◌≡◌};
ghost use Rattle.ic_pool.specs.declared.fault.PoolFault.TheVariants.{Memory};

use ic_round::RoundFault;
use std::alloc::{AllocError, AllocFailed};

/// Why a flight isn't played. The numbers are lasting. The checks come in this order: `NoWorkers`,
/// `RoundsOut`, `Overgrown`, `NamesOut`, then the others.
#[derive(Clone, Copy, Debug, PartialEq, Eq)]
pub enum PoolFault {
    /// The number of workers is 0.
    NoWorkers = 1,
    /// The fired configuration has more than 8,192 nodes.
    Overgrown = 2,
    /// The names of the fired configuration pass 2^62.
    NamesOut = 3,
    /// A thread could not be started.
    NoThread = 4,
    /// A growth was refused.
    Memory = 5,
    /// A work has no result.
    Lost = 6,
    /// A result is for no work of the round, or for one that has another result.
    Stranger = 7,
    /// The job has made 2^62 rounds.
    RoundsOut = 8,
}

impl PoolFault {
    ghost use Rattle.ic_pool.specs.PoolFault.{fault_number, is_of_flight};

    /// The lasting number of the fault.
    pub fn number(self) -> u8
        ensures { result ≡ fault_number self }
    {
        self as u8
    }

    /// Whether no round of the flight can be made, however it is played: its job is to be halted.
    pub fn is_of_flight(self) -> bool
        ensures { result ≡ is_of_flight self }
    {
        matches!(
            self,
            PoolFault::RoundsOut | PoolFault::Overgrown | PoolFault::NamesOut
        )
    }
}

impl From<AllocError> for PoolFault {
    ghost from_gives = { λ _ fault. fault ≡ Memory };

    fn from(_error: AllocError) -> PoolFault {
        PoolFault::Memory
    }
}

impl<T: Drop> From<AllocFailed<T>> for PoolFault {
    ghost from_gives = { λ _ fault. fault ≡ Memory };

    fn from(_error: AllocFailed<T>) -> PoolFault {
        PoolFault::Memory
    }
}

impl From<RoundFault> for PoolFault {
    ghost use Rattle.ic_pool.specs.PoolFault.{pool_fault};

    ghost from_gives = { λ f fault. fault ≡ pool_fault f };

    fn from(fault: RoundFault) -> PoolFault {
        match fault {
            RoundFault::Overgrown => PoolFault::Overgrown,
            RoundFault::NamesOut => PoolFault::NamesOut,
            RoundFault::Memory => PoolFault::Memory,
        }
    }
}

/// Why workers give no results.
#[derive(Clone, Copy, PartialEq, Eq)]
pub(crate) enum WorkerFault {
    /// A thread could not be started.
    NoThread,
    /// A growth was refused.
    Memory,
}

impl From<AllocError> for WorkerFault {
    ghost use Rattle.ic_pool.specs.declared.fault.WorkerFault.TheVariants.{Memory};

    ghost from_gives = { λ _ fault. fault ≡ Memory };

    fn from(_error: AllocError) -> WorkerFault {
        WorkerFault::Memory
    }
}

impl From<WorkerFault> for PoolFault {
    ghost use Rattle.ic_pool.specs.Workers.{worker_fault};

    ghost from_gives = { λ f fault. fault ≡ worker_fault f };

    fn from(fault: WorkerFault) -> PoolFault {
        match fault {
            WorkerFault::NoThread => PoolFault::NoThread,
            WorkerFault::Memory => PoolFault::Memory,
        }
    }
}

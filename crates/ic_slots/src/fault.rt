//! Why a disk wasn't created.

ghost use Rattle.std.specs.Prelude.{◌≡◌};
ghost use Rattle.ic_slots.specs.declared.fault.CreateFault.TheVariants.{Device, Memory};

use ic_disk::DiskFault;
use std::alloc::AllocError;
use thiserror::Error;

/// Why the empty table wasn't put on a disk.
#[derive(Clone, Copy, Debug, PartialEq, Eq, Error)]
pub enum CreateFault {
    #[error("a call to the disk has failed")]
    Device = 1,
    #[error("out of memory")]
    Memory = 2,
}

impl CreateFault {
    ghost use Rattle.ic_slots.specs.Numbers.{create_fault_number};

    /// The lasting number of the fault.
    pub fn number(self) -> u8
        ensures { result ≡ create_fault_number self }
    {
        self as u8
    }
}

impl From<DiskFault> for CreateFault {
    ghost from_gives = { λ _ e. e ≡ Device };

    fn from(_: DiskFault) -> Self {
        CreateFault::Device
    }
}

impl From<AllocError> for CreateFault {
    ghost from_gives = { λ _ e. e ≡ Memory };

    fn from(_: AllocError) -> Self {
        CreateFault::Memory
    }
}

//! Why a call was refused.

ghost use Rattle.std.specs.Prelude.{◌≡◌};
ghost use Rattle.ic_frames.specs.declared.faults.KeepFault.TheVariants.{Device as KeepDevice};
ghost use Rattle.ic_frames.specs.declared.faults.OpenCause.TheVariants.{Device as OpenDevice, Memory};

use ic_disk::DiskFault;
use std::alloc::AllocError;
use thiserror::Error;

/// Why a keep, or a phase of one, was refused.
#[derive(Clone, Copy, Debug, PartialEq, Eq, Error)]
pub enum KeepFault {
    #[error("an earlier call to the disk has failed")]
    Broken = 1,
    #[error("the numbers of the slots are used up")]
    Worn = 2,
    #[error("a call to the disk has failed")]
    Device = 3,
}

impl KeepFault {
    ghost use Rattle.ic_frames.specs.Numbers.{keep_fault_number};

    /// The lasting number of the fault.
    pub fn number(self) -> u8
        ensures { result ≡ keep_fault_number self }
    {
        self as u8
    }
}

impl From<DiskFault> for KeepFault {
    ghost from_gives = { λ _ e. e ≡ KeepDevice };

    fn from(_: DiskFault) -> Self {
        KeepFault::Device
    }
}

/// Why no body was found on a disk.
#[derive(Clone, Copy, Debug, PartialEq, Eq, Error)]
pub enum OpenCause {
    #[error("a call to the disk has failed")]
    Device = 1,
    #[error("no slot of the disk is open")]
    NoSlot = 2,
    #[error("the two slots of the disk have one number")]
    TwoAlike = 3,
    #[error("the newest slot of the disk is damaged")]
    Damaged = 4,
    #[error("out of memory")]
    Memory = 5,
}

impl OpenCause {
    ghost use Rattle.ic_frames.specs.Numbers.{open_cause_number};

    /// The lasting number of the cause.
    pub fn number(self) -> u8
        ensures { result ≡ open_cause_number self }
    {
        self as u8
    }
}

impl From<DiskFault> for OpenCause {
    ghost from_gives = { λ _ e. e ≡ OpenDevice };

    fn from(_: DiskFault) -> Self {
        OpenCause::Device
    }
}

impl From<AllocError> for OpenCause {
    ghost from_gives = { λ _ e. e ≡ Memory };

    fn from(_: AllocError) -> Self {
        OpenCause::Memory
    }
}

/// A disk on which no body was found, and why.
#[derive(Debug, Drop, Error)]
#[error("{cause}")]
pub struct OpenFault<D> {
    pub disk: D,
    pub cause: OpenCause,
}

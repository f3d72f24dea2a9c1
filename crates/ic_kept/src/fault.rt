//! Why no first state is written.

ghost use Rattle.std.specs.Prelude.{◌≡◌};
ghost use Rattle.ic_kept.specs.declared.fault.CreateFault.TheVariants.{Device};

use ic_disk::DiskFault;

/// Why no first state is written. The numbers are lasting.
#[derive(Clone, Copy, PartialEq, Eq)]
pub enum CreateFault {
    /// One of the two disks holds something, which would be lost.
    NotEmpty = 1,
    /// A call to a disk has failed.
    Device = 2,
}

impl From<DiskFault> for CreateFault {
    ghost from_gives = { λ _ fault. fault ≡ Device };

    fn from(_fault: DiskFault) -> CreateFault {
        CreateFault::Device
    }
}

//! Whether a disk may be made anew without a loss.

ghost use Rattle.std.specs.Prelude.{◌≡◌, ◌↔◌, IsTrue, IfOk, length};
ghost use Rattle.ic_disk.specs.Content.{bytes_at};
ghost use Rattle.ic_disk.specs.Images.{Within};
ghost use Rattle.ic_disk.specs.Time.{LeavesOnly};
ghost use Rattle.ic_frames.specs.Opening.{LeavesAsFound};
ghost use Rattle.ic_slots.specs.Faults.{CountsCreate};
ghost use Rattle.ic_slots.specs.Unused.{IsBegun, IsUnused, looking_of};

use crate::first::is_first;
use crate::laws::{one_is_held, what_is_begun_is_shut};
use crate::{CreateFault, Keeper, OpenCause, OpenFault};
use ic_disk::Disk;
use ic_frames::{HEAD, SECOND_AT};
use std::alloc::Global;

/// Whether a disk may be made anew without a loss: it holds the empty table, or is what a stopped
/// `create` leaves of an empty file. The disk is handed back, with nothing changed except for a
/// sync.
pub fn is_unused<D: Disk>(alloc: Global, disk: D) -> (D, Result<bool, CreateFault>)
    ensures keeps { D.keeps result.0 ≡ D.keeps disk }
    ensures same { IsTrue (D.keeps disk) → D.content result.0 ≡ D.content disk }
    ensures unused { IsTrue (D.keeps disk) → IfOk result.1 (λ unused.
        IsTrue unused ↔ IsUnused (D.content disk)) }
    // A crash at any moment leaves what it may have left before, and at Ok it leaves what reads give.
    ensures crash { LeavesAsFound D.keeps D.content D.image D.clock D.left
        (looking_of result.1) disk result.0 }
    ensures counted { CountsCreate result.1 (D.failures disk) (D.failures result.0) }
{
    one_is_held();
    what_is_begun_is_shut();
    match Keeper::open(alloc, disk) {
        Ok((keeper, table)) => {
            let is_empty = table.jobs().is_empty();
            (keeper.close(), Ok(is_empty))
        }
        Err(OpenFault { mut disk, cause }) => match cause {
            OpenCause::NoSlot => {
                let begun = is_begun(alloc, &mut disk);
                (disk, begun)
            }
            OpenCause::TwoAlike => (disk, Ok(false)),
            OpenCause::Damaged => (disk, Ok(false)),
            OpenCause::Device => (disk, Err(CreateFault::Device)),
            OpenCause::Memory => (disk, Err(CreateFault::Memory)),
        },
    }
}

/// Whether a disk is what a stopped `create` leaves of an empty file.
fn is_begun<D: Disk>(alloc: Global, disk: &mut D) -> Result<bool, CreateFault>
    ensures keeps { D.keeps disk.new ≡ D.keeps disk.old }
    ensures same { IsTrue (D.keeps disk.old) → D.content disk.new ≡ D.content disk.old }
    ensures images { IsTrue (D.keeps disk.old) → Within (D.image disk.new) (D.image disk.old) }
    ensures leaves { IsTrue (D.keeps disk.old)
        → LeavesOnly D.clock D.left disk.old disk.new (D.image disk.old) }
    ensures begun { IsTrue (D.keeps disk.old) → IfOk result (λ begun.
        IsTrue begun ↔ IsBegun (D.content disk.old)) }
    ensures counted { CountsCreate result (D.failures disk.old) (D.failures disk.new) }
{
    let len = disk.len()?;
    if len > SECOND_AT + HEAD as u64 {
        return Ok(false);
    }
    let bytes = read_whole(alloc, disk, len as usize)?;
    Ok(is_first(&bytes))
}

/// All bytes of a disk of this length.
fn read_whole<D: Disk>(alloc: Global, disk: &mut D, len: usize) -> Result<Vec<u8>, CreateFault>
    requires { IsTrue (D.keeps disk.old) → len ≡ length (D.content disk.old) }
    ensures keeps { D.keeps disk.new ≡ D.keeps disk.old }
    ensures same { IsTrue (D.keeps disk.old) → D.content disk.new ≡ D.content disk.old }
    ensures images { IsTrue (D.keeps disk.old) → Within (D.image disk.new) (D.image disk.old) }
    ensures leaves { IsTrue (D.keeps disk.old)
        → LeavesOnly D.clock D.left disk.old disk.new (D.image disk.old) }
    ensures bytes { IsTrue (D.keeps disk.old) → IfOk result (λ bytes.
        bytes.items ≡ bytes_at 0 len (D.content disk.old)) }
    ensures counted { CountsCreate result (D.failures disk.old) (D.failures disk.new) }
{
    let mut bytes = Vec::new(alloc);
    bytes.resize(len, 0)?;
    disk.read(0, &mut bytes)?;
    Ok(bytes)
}

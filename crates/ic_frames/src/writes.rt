//! Writes to one slot, each of them on the disk for good before the next call.

ghost use Rattle.std.specs.Prelude.{◌≡◌, ◌⊎◌, ◌+◌, ◌-◌, ◌≤◌, [], ◌∷◌, length, drop, IsTrue, OnOk, OnErr};
ghost use Rattle.ic_disk.specs.Content.{laid};
ghost use Rattle.ic_disk.specs.Images.{Only, TornFrom, Within};
ghost use Rattle.ic_disk.specs.Time.{CountsFailure, LeavesOnly};
ghost use Rattle.ic_frames.specs.Places.{place};

use crate::Slot;
use ic_disk::laws::write_synced;
use ic_disk::{Disk, DiskFault};

// Writes the gate of a slot.
pub(crate) fn write_gate<D: Disk>(disk: &mut D, slot: Slot, gate: u8) -> Result<(), DiskFault>
    ensures keeps { D.keeps disk.new ≡ D.keeps disk.old }
    ensures counted { CountsFailure result (D.failures disk.old) (D.failures disk.new) }
    ensures written { IsTrue (D.keeps disk.old) → OnOk result
        (D.content disk.new ≡ laid (place slot) (gate ∷ []) (D.content disk.old)) }
    ensures durable { IsTrue (D.keeps disk.old) → OnOk result
        (Only (laid (place slot) (gate ∷ []) (D.content disk.old)) (D.image disk.new)) }
    ensures any_moment { IsTrue (D.keeps disk.old) → LeavesOnly D.clock D.left disk.old disk.new
        (TornFrom (place slot) 1 (D.image disk.old)) }
    ensures calls { D.clock disk.new ≤ D.clock disk.old + 2 }
{
    write_synced(disk, slot.place(), &[gate])
}

// Writes what is in a frame from some byte of its head on.
pub(crate) fn write_frame<D: Disk>(
    disk: &mut D,
    slot: Slot,
    skip: usize,
    frame: &[u8],
) -> Result<(), DiskFault>
    requires low { skip ≤ 1 }
    requires head { 13 ≤ length frame.now }
    ensures keeps { D.keeps disk.new ≡ D.keeps disk.old }
    ensures counted { CountsFailure result (D.failures disk.old) (D.failures disk.new) }
    ensures written { IsTrue (D.keeps disk.old) → OnOk result (D.content disk.new
        ≡ laid (place slot + skip) (drop skip frame.now) (D.content disk.old)) }
    ensures durable { IsTrue (D.keeps disk.old) → OnOk result
        (Only (laid (place slot + skip) (drop skip frame.now) (D.content disk.old))
        (D.image disk.new)) }
    ensures failed { IsTrue (D.keeps disk.old) → OnErr result
        (Within (D.image disk.old) (D.image disk.new)
        ⊎ Only (laid (place slot + skip) (drop skip frame.now) (D.content disk.old))
        (D.image disk.new)) }
    ensures any_moment { IsTrue (D.keeps disk.old) → LeavesOnly D.clock D.left disk.old disk.new
        (TornFrom (place slot + skip) (length frame.now - skip) (D.image disk.old)) }
    ensures calls { D.clock disk.new ≤ D.clock disk.old + 2 }
{
    write_synced(disk, slot.place() + skip as u64, &frame[skip..])
}

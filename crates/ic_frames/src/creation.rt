//! The first body of a disk.

ghost use Rattle.std.specs.Prelude.{◌≡◌, ◌+◌, ◌≤◌, length, drop, replicate, IsTrue, OnOk};
ghost use Rattle.ic_disk.specs.Content.{laid};
ghost use Rattle.ic_disk.specs.Images.{Within};
ghost use Rattle.ic_disk.specs.Time.{CountsFailure, LeavesOnly};
ghost use Rattle.ic_frames.specs.Creation.{writes_of_create, IsInOneOf, IsTornBy, KeepPace};
ghost use Rattle.ic_frames.specs.Layout.{slot_bytes};
ghost use Rattle.ic_frames.specs.Places.{place};
ghost use Rattle.ic_frames.specs.Held.{Holds, IsClosedIn, body_held, the_body};
ghost use Rattle.ic_frames.specs.Staged.{IsStaged};
ghost use Rattle.ic_frames.specs.declared.frame.TheConstants.{MAX_BODY};

use crate::frame::fill_head;
use crate::writes::{write_frame, write_gate};
use crate::{HEAD, SECOND_AT, Slot};
use ic_disk::laws::write_synced;
use ic_disk::{Disk, DiskFault};

/// Writes the body of this frame as the first one of a disk, whatever the disk had. The head of the
/// frame is filled in. After a refusal it is to be done again.
pub fn create<D: Disk>(disk: &mut D, frame: &mut [u8]) -> Result<(), DiskFault>
    requires head { 13 ≤ length frame.old }
    requires short { length frame.old ≤ 13 + MAX_BODY }

    ensures keeps { D.keeps disk.new ≡ D.keeps disk.old }
    ensures counted { CountsFailure result (D.failures disk.old) (D.failures disk.new) }
    ensures same_body { drop 13 frame.new ≡ drop 13 frame.old }
    ensures calls { D.clock disk.new ≤ D.clock disk.old + 6 }

    // Whatever the answer, a crash at any moment leaves a file that one of its three writes has torn,
    // over what those before it have left.
    ensures ordered { IsTrue (D.keeps disk.old) → LeavesOnly D.clock D.left disk.old disk.new
        (IsInOneOf IsTornBy (writes_of_create (drop 13 frame.old))
        (D.content disk.old) (D.image disk.old)) }

    // At Ok each write was there to stay after two calls.
    ensures paced { IsTrue (D.keeps disk.old) → OnOk result (KeepPace (D.left disk.new)
        (D.clock disk.old) (writes_of_create (drop 13 frame.old))
        (D.content disk.old) (D.image disk.old)) }

    // At Ok the slot's bytes are at the beginning of the disk, and thirteen zeros are written at the
    // second slot; all else stays.
    ensures written { IsTrue (D.keeps disk.old) → OnOk result (D.content disk.new
        ≡ laid (place Slot.First) (slot_bytes 1 (drop 13 frame.old))
        (laid (place Slot.Second) (replicate 13 0) (D.content disk.old))) }

    // At Ok a crash leaves that body, and so do reads. It is in the first slot with the number 1,
    // and the second slot is closed.
    ensures holds { IsTrue (D.keeps disk.old)
        → OnOk result (Within (D.image disk.new) (Holds (drop 13 frame.old))) }
    ensures held { IsTrue (D.keeps disk.old)
        → OnOk result (body_held (D.content disk.new) ≡ the_body (drop 13 frame.old)) }
    ensures first { IsTrue (D.keeps disk.old) → OnOk result
        (Within (D.image disk.new) (IsStaged Slot.First 1 (drop 13 frame.old))) }
    ensures shut { IsTrue (D.keeps disk.old)
        → OnOk result (Within (D.image disk.new) (IsClosedIn Slot.Second)) }
{
    fill_head(frame, 1);
    write_synced(disk, SECOND_AT, &[0; HEAD])?;
    write_frame(disk, Slot::First, 0, frame)?;
    write_gate(disk, Slot::First, 1)
}

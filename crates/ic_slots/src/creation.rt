//! The empty table on a disk.

ghost use Rattle.std.specs.Prelude.{◌≡◌, ◌+◌, ◌≤◌, [], replicate, IsTrue, IsErrOf, OnOk};
ghost use Rattle.ic_codec.specs.Tables.{table_bytes};
ghost use Rattle.ic_disk.specs.Content.{laid};
ghost use Rattle.ic_disk.specs.Images.{Within};
ghost use Rattle.ic_disk.specs.Time.{LeavesOnly};
ghost use Rattle.ic_frames.specs.Creation.{writes_of_create, IsInOneOf, IsTornBy, KeepPace};
ghost use Rattle.ic_frames.specs.Held.{IsClosedIn};
ghost use Rattle.ic_frames.specs.Layout.{slot_bytes};
ghost use Rattle.ic_frames.specs.Places.{place};
ghost use Rattle.ic_slots.specs.Held.{HoldsTable, IsStagedTable, IsHeld, the_table};
ghost use Rattle.ic_slots.specs.Faults.{CountsCreate};

use crate::CreateFault;
use ic_codec::encode_into;
use ic_disk::Disk;
use ic_frames::{HEAD, MAX_BODY, Slot};
use ic_jobs::Table;
use std::alloc::Global;

/// Puts the empty table on a disk, whatever the disk had. After a refusal it is to be done again.
pub fn create<D: Disk>(alloc: Global, disk: &mut D) -> Result<(), CreateFault>
    ensures keeps { D.keeps disk.new ≡ D.keeps disk.old }
    ensures counted { CountsCreate result (D.failures disk.old) (D.failures disk.new) }
    ensures calls { D.clock disk.new ≤ D.clock disk.old + 6 }

    // Whatever the answer, a crash at any moment leaves a file that one of its three writes has torn,
    // over what those before it have left.
    ensures ordered { IsTrue (D.keeps disk.old) → LeavesOnly D.clock D.left disk.old disk.new
        (IsInOneOf IsTornBy (writes_of_create (table_bytes []))
        (D.content disk.old) (D.image disk.old)) }

    // At Ok each write was there to stay after two calls.
    ensures paced { IsTrue (D.keeps disk.old) → OnOk result (KeepPace (D.left disk.new)
        (D.clock disk.old) (writes_of_create (table_bytes []))
        (D.content disk.old) (D.image disk.old)) }

    // Where memory ran out, the disk is as it was.
    ensures unchanged { IsErrOf result CreateFault.Memory → disk.new ≡ disk.old }

    // At Ok the slot's bytes are at the beginning of the disk, and thirteen zeros are written at the
    // second slot; all else stays.
    ensures written { IsTrue (D.keeps disk.old) → OnOk result (D.content disk.new
        ≡ laid (place Slot.First) (slot_bytes 1 (table_bytes []))
        (laid (place Slot.Second) (replicate 13 0) (D.content disk.old))) }

    // At Ok a crash leaves the empty table, and so do reads. It is in the first slot with the number
    // 1, and the second slot is closed.
    ensures holds { IsTrue (D.keeps disk.old)
        → OnOk result (Within (D.image disk.new) (HoldsTable [])) }
    ensures held { IsTrue (D.keeps disk.old)
        → OnOk result (IsHeld (the_table []) (D.content disk.new)) }
    ensures first { IsTrue (D.keeps disk.old)
        → OnOk result (Within (D.image disk.new) (IsStagedTable Slot.First 1 [])) }
    ensures shut { IsTrue (D.keeps disk.old)
        → OnOk result (Within (D.image disk.new) (IsClosedIn Slot.Second)) }
{
    let mut frame = Vec::with_capacity(alloc, HEAD + MAX_BODY)?;
    frame.resize(HEAD, 0)?;
    encode_into(&Table::new(alloc), &mut frame);
    ic_frames::create(disk, &mut frame)?;
    Ok(())
}

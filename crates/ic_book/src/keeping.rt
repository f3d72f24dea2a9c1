//! Keeping a table.

ghost use Rattle.std.specs.Prelude.{◌≡◌, ◌≢◌, ◌+◌, ◌-◌, ◌^◌, ◌≤◌, List, true, false, IsTrue, OnOk, OnErr, IfErr};
ghost use Rattle.ic_disk.specs.Images.{Within};
ghost use Rattle.ic_disk.specs.Time.{LeavesOnly};
ghost use Rattle.ic_jobs.specs.Job.{JobParts};
ghost use Rattle.ic_jobs.specs.Table.{IsTable};
ghost use Rattle.ic_frames.specs.Fields.{IsMade};
ghost use Rattle.ic_frames.specs.Opened.{IsOnNewest};
ghost use Rattle.ic_slots.specs.Held.{HoldsTable, HoldsEitherTable, IsHeld, the_table};
ghost use Rattle.ic_slots.specs.Keeper.{disk_of, frames_of, is_broken, number_of};
ghost use Rattle.ic_book.specs.Refusals.{CountsBook};

use crate::BookFault;
use ic_disk::Disk;
use ic_jobs::Table;
use ic_slots::Keeper;

// Puts this table in the place of the one that is kept. The keeper is neither broken nor worn.
pub(crate) fn keep_table<D: Disk>(keeper: &mut Keeper<D>, table: &Table) -> Result<(), BookFault>
    requires ready { is_broken keeper.old ≡ false }
    requires fresh { number_of keeper.old ≢ 2 ^ 64 - 1 }
    ensures keeps { D.keeps (disk_of keeper.new) ≡ D.keeps (disk_of keeper.old) }
    ensures device { IfErr result (λ fault. fault ≡ BookFault.Device) }
    ensures breaks { OnErr result (is_broken keeper.new ≡ true) }
    ensures ready { OnOk result (is_broken keeper.new ≡ false) }
    ensures counted { CountsBook result
        (D.failures (disk_of keeper.old)) (D.failures (disk_of keeper.new)) }
    ensures calls { D.clock (disk_of keeper.new) ≤ D.clock (disk_of keeper.old) + 6 }
    ensures any_moment { (kept : List JobParts) → IsTrue (D.keeps (disk_of keeper.old))
        → Within (D.image (disk_of keeper.old)) (HoldsTable kept)
        → LeavesOnly D.clock D.left (disk_of keeper.old) (disk_of keeper.new)
        (HoldsEitherTable kept table.now) }
    ensures either_if_made { (kept : List JobParts) → IsTrue (D.keeps (disk_of keeper.old))
        → Within (D.image (disk_of keeper.old)) (IsHeld (the_table kept))
        → Within (D.image (disk_of keeper.new)) IsMade
        → Within (D.image (disk_of keeper.new)) (HoldsEitherTable kept table.now) }
    ensures holds { IsTrue (D.keeps (disk_of keeper.old)) → OnOk result
        (Within (D.image (disk_of keeper.new)) (HoldsTable table.now)) }
    ensures held { IsTrue (D.keeps (disk_of keeper.old)) → OnOk result
        (IsHeld (the_table table.now) (D.content (disk_of keeper.new))) }
    ensures newest { IsTrue (D.keeps (disk_of keeper.old)) → OnOk result
        (IsOnNewest (frames_of keeper.new) (D.content (disk_of keeper.new))) }
    ensures sound { IsTable table.now }
{
    // Called for what its contract says: that the table is sound.
    let _jobs = table.jobs();
    match keeper.keep(table) {
        Ok(()) => Ok(()),
        Err(_) => Err(BookFault::Device),
    }
}

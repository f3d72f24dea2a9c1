//! What the words come to in which clauses tell of calls: of a disk, of two frames, of a book.

ghost use Rattle.std.specs.Prelude.{◌≡◌, ◌⊎◌, ◌↔◌, ◌+◌, ◌-◌, ◌^◌, ◌<◌, ◌≤◌, ℕ, List, Bool, true, false, Result, Ok, Err, IsTrue, IsErr, IsErrOf, length, min};
ghost use Rattle.ic_disk.specs.Course.{calls_in, content_in, failures_in, first_course, image_in};
ghost use Rattle.ic_disk.specs.DiskCalls.{ChangesNothing, IsDiskSync, IsDiskWrite};
ghost use Rattle.ic_disk.specs.FuseDisk.{Spends, calls_of, fuse_of};
ghost use Rattle.ic_disk.specs.Images.{Within};
ghost use Rattle.ic_frames.specs.declared.faults.KeepFault.{KeepFault};
ghost use Rattle.ic_frames.specs.Fields.{IsMade};
ghost use Rattle.ic_frames.specs.Frames.{is_closed, is_staged, number_of as slot_number, target_of};
ghost use Rattle.ic_frames.specs.Keeping.{ClosesGate, TakesTurns, WritesBody};
ghost use Rattle.ic_frames.specs.Places.{other};
ghost use Rattle.ic_jobs.specs.declared.event.Entry.{Entry};
ghost use Rattle.ic_jobs.specs.declared.landed.Landed.{Landed};
ghost use Rattle.ic_jobs.specs.declared.landed.Landed.TheVariants.{Moved, Stale};
ghost use Rattle.ic_slots.specs.Held.{IsHeld, the_table};
ghost use Rattle.ic_book.specs.declared.fault.BookFault.{BookFault};
ghost use Rattle.ic_book.specs.declared.fault.BookFault.TheVariants.{Broken, LogFull, Worn, Memory, Device};
ghost use Rattle.ic_book.specs.Book.{IsUnchanged, disk_of, is_broken, keeper_of, kept_of, log_of, number_of, start_of, table_of};
ghost use Rattle.ic_book.specs.Calls.{BreaksOrStays, KeepsAll, RefusesRound, TakesRound, TellsWorn};
ghost use Rattle.ic_book.specs.Entries.{Adds};
ghost use Rattle.ic_book.specs.Refusals.{CountsBook};

use ic_book::Book;
use ic_disk::{Disk, DiskFault, FuseDisk};
use ic_frames::Frames;

/// A call of a disk counts as one, or as none.
pub fn a_call_counts_as_one_at_most<D: Disk>(old: &D, new: &D)
    ensures reads { ChangesNothing D.content D.image D.clock D.left old.now new.now
        → (D.clock new.now ≡ D.clock old.now) ⊎ (D.clock new.now ≡ D.clock old.now + 1) }
    ensures writes { (at : ℕ) (bytes : List ℕ) (result : Result (Unit {0}) DiskFault)
        → IsDiskWrite D.content D.image D.clock D.left at bytes result old.now new.now
        → (D.clock new.now ≡ D.clock old.now) ⊎ (D.clock new.now ≡ D.clock old.now + 1) }
    ensures syncs { (result : Result (Unit {0}) DiskFault)
        → IsDiskSync D.content D.image D.clock D.left result old.now new.now
        → (D.clock new.now ≡ D.clock old.now) ⊎ (D.clock new.now ≡ D.clock old.now + 1) }
{
    let _ = old;
    let _ = new;
}

/// A disk of the written model begins with its bytes: reads give them, a crash leaves nothing else,
/// and there has been no call and no failure.
pub fn a_course_begins_with_its_bytes()
    ensures reads { (file : List ℕ) → content_in (first_course file) ≡ file }
    ensures crash { (file left : List ℕ) → image_in (first_course file) left → left ≡ file }
    ensures calls { (file : List ℕ) → calls_in (first_course file) ≡ 0 }
    ensures failures { (file : List ℕ) → failures_in (first_course file) ≡ 0 }
{}

/// After a call a disk with a fuse has the same fuse, and has counted the call, up to the end of the
/// count.
pub fn a_fuse_counts_calls(old: &FuseDisk, new: &FuseDisk)
    ensures fuse { Spends old.now new.now → fuse_of new.now ≡ fuse_of old.now }
    ensures calls { Spends old.now new.now
        → calls_of new.now ≡ min (calls_of old.now + 1) (2 ^ 64 - 1) }
{
    let _ = old;
    let _ = new;
}

/// A keep of frames that succeeds has written the slot whose turn it was, with the next number. The
/// other slot is the next one: it isn't closed yet, and nothing is staged there. One that fails
/// leaves turn and number, and so do the phases before the last one, each of which does its own part.
pub fn keeps_take_turns<D: Disk>(old: &Frames<D>, new: &Frames<D>)
    ensures kept { (done : Unit {0}) → TakesTurns (Ok done) old.now new.now
        → (target_of new.now ≡ other (target_of old.now))
        × (slot_number new.now ≡ slot_number old.now + 1)
        × (is_closed new.now ≡ false) × (is_staged new.now ≡ false) }
    ensures failed { (fault : KeepFault) → TakesTurns {T = Unit {0}} (Err fault) old.now new.now
        → (target_of new.now ≡ target_of old.now)
        × (slot_number new.now ≡ slot_number old.now) }
    ensures closing { (result : Result (Unit {0}) KeepFault) → ClosesGate result old.now new.now
        → (target_of new.now ≡ target_of old.now)
        × (slot_number new.now ≡ slot_number old.now)
        × (is_staged new.now ≡ is_staged old.now) }
    ensures writing { (body : List ℕ) (result : Result (Unit {0}) KeepFault)
        → WritesBody body result old.now new.now
        → (target_of new.now ≡ target_of old.now)
        × (slot_number new.now ≡ slot_number old.now)
        × (is_closed new.now ≡ is_closed old.now) }
{
    let _ = old;
    let _ = new;
}

/// A round is refused by a book that is broken, else by one whose history is full, else for want of
/// memory, and for no other cause. Then nothing has changed.
pub fn rounds_are_refused_so<D: Disk>(old: &Book<D>, new: &Book<D>)
    ensures broken { (result : Result Landed BookFault) → RefusesRound result old.now new.now
        → IsErrOf result Broken ↔ (is_broken old.now ≡ true) }
    ensures full { (result : Result Landed BookFault) → RefusesRound result old.now new.now
        → IsErrOf result LogFull
        ↔ ((is_broken old.now ≡ false) × (length (log_of old.now) ≡ 65536)) }
    ensures others { (fault : BookFault) → RefusesRound (Err fault) old.now new.now
        → (fault ≡ Broken) ⊎ ((fault ≡ LogFull) ⊎ (fault ≡ Memory)) }
    ensures unchanged { (fault : BookFault) → RefusesRound (Err fault) old.now new.now
        → IsUnchanged old.now new.now }
{
    let _ = old;
    let _ = new;
}

/// A round moves its job exactly where it was expected, and stands at the end of the log then. One
/// that is stale changes nothing. None is kept yet, and none touches the disk.
pub fn rounds_are_taken_so<D: Disk>(old: &Book<D>, new: &Book<D>)
    ensures moved { (entry : Entry) (expected : Bool)
        → TakesRound entry (expected ≡ true) (Ok Moved) old.now new.now → (expected ≡ true)
        × Adds entry (log_of old.now) (log_of new.now) (table_of old.now) (table_of new.now) }
    ensures stale { (entry : Entry) (expected : Bool)
        → TakesRound entry (expected ≡ true) (Ok Stale) old.now new.now
        → ¬ (expected ≡ true) × IsUnchanged old.now new.now }
    ensures wanted { (entry : Entry) (expected : Bool)
        → TakesRound entry (expected ≡ true) (Err Memory) old.now new.now → expected ≡ true }
    ensures kept { (entry : Entry) (expected : Bool) (result : Result Landed BookFault)
        → TakesRound entry (expected ≡ true) result old.now new.now
        → (start_of new.now ≡ start_of old.now) × (kept_of new.now ≡ kept_of old.now)
        × (keeper_of new.now ≡ keeper_of old.now) }
{
    let _ = old;
    let _ = new;
}

/// A keep that succeeds leaves a book that isn't broken, with its table, which reads of the disk give
/// then. Where there was something to keep, the disk is made. A keep that fails has kept no more than
/// before. It is told to be worn where the numbers of the slots are used up.
pub fn keeps_leave<D: Disk>(old: &Book<D>, new: &Book<D>)
    ensures kept { (done : Unit {0}) → KeepsAll (Ok done) old.now new.now
        → (is_broken new.now ≡ false) × (table_of new.now ≡ table_of old.now) }
    ensures held { (done : Unit {0}) → KeepsAll (Ok done) old.now new.now
        → IsTrue (D.keeps (disk_of old.now))
        → IsHeld (the_table (table_of old.now)) (D.content (disk_of new.now)) }
    ensures made { (done : Unit {0}) → KeepsAll (Ok done) old.now new.now
        → IsTrue (D.keeps (disk_of old.now)) → kept_of old.now < length (log_of old.now)
        → Within (D.image (disk_of new.now)) IsMade }
    ensures failed { (fault : BookFault) → KeepsAll {T = Unit {0}} (Err fault) old.now new.now
        → (table_of new.now ≡ table_of old.now) × (kept_of new.now ≡ kept_of old.now) }
    ensures worn { (result : Result (Unit {0}) BookFault) → TellsWorn result old.now
        → IsErrOf result Worn → (is_broken old.now ≡ false)
        × (kept_of old.now < length (log_of old.now)) × (number_of old.now ≡ 2 ^ 64 - 1) }
{
    let _ = old;
    let _ = new;
}

/// A command or a keep is told that the book is broken exactly where it was. Where the disk fails at
/// it, the book is broken then, and one more failure is counted. Any other refusal changes nothing.
pub fn refusals_leave<D: Disk>(old: &Book<D>, new: &Book<D>)
    ensures broken { (result : Result (Unit {0}) BookFault) → BreaksOrStays result old.now new.now
        → IsErrOf result Broken ↔ (is_broken old.now ≡ true) }
    ensures device { BreaksOrStays {T = Unit {0}} (Err Device) old.now new.now
        → (is_broken new.now ≡ true) × CountsBook {T = Unit {0}} (Err Device)
        (D.failures (disk_of old.now)) (D.failures (disk_of new.now)) }
    ensures others { (fault : BookFault) → BreaksOrStays {T = Unit {0}} (Err fault) old.now new.now
        → ¬ (fault ≡ Device) → IsUnchanged old.now new.now }
{
    let _ = old;
    let _ = new;
}

//! Laws of the definitions that say how many calls to its disk a keep makes, what it writes and when it is refused.

ghost use Rattle.std.specs.Prelude.{◌≡◌, ◌↔◌, ◌<◌, ◌≤◌, ◌+◌, ◌-◌, ◌*◌, ◌/◌, ◌^◌, ℕ, List, Result, Ok, Err, IsErrOf, length, true, false};
ghost use Rattle.ic_disk.specs.Content.{laid};
ghost use Rattle.ic_frames.specs.declared.faults.KeepFault.{KeepFault};
ghost use Rattle.ic_frames.specs.declared.faults.KeepFault.TheVariants.{Device, Worn};
ghost use Rattle.ic_frames.specs.Frames.{content_of, is_broken, is_closed, number_of, target_of, KeepsModel, disk_of as disk_under};
ghost use Rattle.ic_frames.specs.Keeping.{FaultLeaves, WritesSlot};
ghost use Rattle.ic_frames.specs.Layout.{slot_bytes};
ghost use Rattle.ic_frames.specs.Places.{place};
ghost use Rattle.ic_book.specs.declared.fault.BookFault.{BookFault};
ghost use Rattle.ic_book.specs.Book.{disk_of, kept_of, log_of, table_of};
ghost use Rattle.ic_book.specs.Calls.{KeepsAll};
ghost use Rattle.ic_book.specs.Weight.{weigh, weight_of};
ghost use Rattle.ic_commands.specs.declared.line.Line.TheVariants.{Run};
ghost use Rattle.ic_commands.specs.LineText.{ReadsLine};
ghost use Rattle.ic_lines.specs.Answers.{Reading, events};
ghost use Rattle.ic_serving.specs.Answered.{CallsFewFor};

use ic_book::Book;
use ic_disk::Disk;
use ic_frames::Frames;

/// A keep makes at most six calls to the disk. Where all was kept before it makes none: the disk is
/// left as it was.
pub fn a_keep_makes_few_calls<D: Disk>(old: &Book<D>, new: &Book<D>)
    ensures six { (result : Result (Unit {0}) BookFault) → KeepsAll result old.now new.now
        → D.clock (disk_of new.now) ≤ D.clock (disk_of old.now) + 6 }
    ensures none { (result : Result (Unit {0}) BookFault) → KeepsAll result old.now new.now
        → kept_of old.now ≡ length (log_of old.now)
        → D.clock (disk_of new.now) ≡ D.clock (disk_of old.now) }
    ensures untouched { (result : Result (Unit {0}) BookFault) → KeepsAll result old.now new.now
        → kept_of old.now ≡ length (log_of old.now) → disk_of new.now ≡ disk_of old.now }
{
    let _ = old;
    let _ = new;
}

/// Where the page has room for K rounds and one more, a `run` of K rounds makes at most six calls to
/// the disk for each `every` of them, and six at the end.
pub fn a_run_makes_few_calls<D: Disk>(before: &Book<D>, after: &Book<D>)
    ensures { (limit : ℕ) (line : List ℕ) (k every : ℕ) → 1 ≤ every → ReadsLine line (Ok (Run k))
        → CallsFewFor limit line every before.now after.now
        → weight_of (log_of before.now) + k < limit
        → D.clock (disk_of after.now) ≤ D.clock (disk_of before.now) + 6 * (k / every + 1) }
{
    ic_commands::laws::one_line_reading();
    ic_lines::laws::runs_are_rounds_in_turn();
    let _ = before;
    let _ = after;
}

/// Where the page has room for all that a line asks for and for one entry more, answering the line makes
/// at most six calls to the disk for each `every` of its rounds, halts or commands, and six at the end.
pub fn a_line_makes_few_calls<D: Disk>(before: &Book<D>, after: &Book<D>)
    ensures { (limit : ℕ) (line : List ℕ) (a : Reading) (every : ℕ) → ReadsLine line a
        → CallsFewFor limit line every before.now after.now
        → weight_of (log_of before.now) + weigh (events (table_of before.now) a) < limit
        → D.clock (disk_of after.now) ≤ D.clock (disk_of before.now)
        + 6 * (length (events (table_of before.now) a) / every + 1) }
{
    ic_commands::laws::one_line_reading();
    let _ = before;
    let _ = after;
}

/// A keep of frames makes at most six calls to the disk, and over a closed slot at most four.
pub fn a_keep_over_a_closed_slot_makes_four_calls<D: Disk>(old: &Frames<D>, new: &Frames<D>)
    ensures six { (body : List ℕ) (result : Result (Unit {0}) KeepFault)
        → WritesSlot body result old.now new.now
        → D.clock (disk_under new.now) ≤ D.clock (disk_under old.now) + 6 }
    ensures four { (body : List ℕ) (result : Result (Unit {0}) KeepFault)
        → WritesSlot body result old.now new.now → is_closed old.now ≡ true
        → D.clock (disk_under new.now) ≤ D.clock (disk_under old.now) + 4 }
{
    let _ = old;
    let _ = new;
}

/// A keep of frames that succeeds has written the slot whose turn it was: the next number, the length of
/// the body, and the body. It is told to be worn where the frames aren't broken and have the last number.
/// Where the disk fails at it, they are broken then.
pub fn a_keep_of_frames_writes_its_slot<D: Disk>(old: &Frames<D>, new: &Frames<D>)
    ensures written { (body : List ℕ) (done : Unit {0})
        → WritesSlot body (Ok done) old.now new.now → KeepsModel old.now
        → content_of new.now ≡ laid (place (target_of old.now))
        (slot_bytes (number_of old.now + 1) body) (content_of old.now) }
    ensures worn { (result : Result (Unit {0}) KeepFault) → FaultLeaves result old.now new.now
        → IsErrOf result Worn
        ↔ ((is_broken old.now ≡ false) × (number_of old.now ≡ 2 ^ 64 - 1)) }
    ensures breaks { FaultLeaves {T = Unit {0}} (Err Device) old.now new.now
        → is_broken new.now ≡ true }
{
    let _ = old;
    let _ = new;
}

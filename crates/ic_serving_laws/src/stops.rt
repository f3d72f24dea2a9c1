//! Laws of the definitions that say what a stop in a serving leaves.

ghost use Rattle.std.specs.Prelude.{◌≡◌, ◌≢◌, ◌↔◌, ◌<◌, ◌≤◌, ℕ, List, [], ◌∷◌, ◌++◌, Ok, Err, IsTrue, length};
ghost use Rattle.ic_disk.specs.Images.{Within};
ghost use Rattle.ic_disk.specs.Time.{OneMore};
ghost use Rattle.ic_frames.specs.declared.faults.OpenCause.{OpenCause};
ghost use Rattle.ic_frames.specs.declared.faults.OpenCause.TheVariants.{Device};
ghost use Rattle.ic_frames.specs.declared.faults.OpenFault.{OpenFault};
ghost use Rattle.ic_jobs.specs.Job.{JobParts};
ghost use Rattle.ic_frames.specs.Fields.{IsMade};
ghost use Rattle.ic_slots.specs.Held.{IsHeld, the_table};
ghost use Rattle.ic_book.specs.Moves.{Move, opens, refuses, stops};
ghost use Rattle.ic_book.specs.Server.{IsFound, Refuses, Server, Step, StepsByOpening, disk_in, down, up};
ghost use Rattle.ic_lines.specs.Serving.{IsServed};
ghost use Rattle.ic_serving.specs.Parts.{IsInLine};
ghost use Rattle.ic_serving.specs.Served.{MayBeServed};
ghost use Rattle.ic_serving.specs.Stopped.{HoldsOne, IsReached, MayStand};

use ic_book::Book;
use ic_disk::Disk;

/// A stop in the midst of any move that isn't one itself is a step: of an opening, also one that is
/// refused, of a closing, and of a server that is down. A disk that may have been left at a moment since
/// the move began is found then.
pub fn stops_are_steps<D: Disk>(found: &D)
    ensures steps { (move : Move) (before after : Server D.Disk)
        → ((other : Move) → move ≢ stops other) → Step move before after
        → IsFound D.Disk (disk_in before) (disk_in after) found.now
        → Step {ghosts = D.Disk} (stops move) before (down found.now) }
    ensures found { (before after : D) (moment : ℕ) → IsTrue (D.keeps found.now)
        → D.clock before ≤ moment → Within (D.image found.now) (D.left after moment)
        → IsFound D.Disk before after found.now }
{
    let _ = found;
}

/// By its answer an opening is a step: to the book, or, where it is refused, to the disk that comes back.
pub fn an_opening_is_a_step_by_its_answer<D: Disk>(disk: &D, book: &Book<D>)
    ensures opened { StepsByOpening D.Disk disk.now (Ok book.now)
        → Step opens (down disk.now) (up book.now) }
    ensures refused { (fault : OpenFault D) → StepsByOpening D.Disk disk.now (Err fault)
        → Step {ghosts = D.Disk} (refuses fault.cause) (down disk.now) (down fault.disk) }
{
    let _ = disk;
    let _ = book;
}

/// An opening that is refused counts a failure of the disk exactly where it tells of one.
pub fn a_refused_opening_counts_its_failure<D: Disk>(old: &D, new: &D)
    ensures device { Refuses D.Disk Device old.now new.now
        → OneMore (D.failures old.now) (D.failures new.now) }
    ensures others { (cause : OpenCause) → cause ≢ Device → Refuses D.Disk cause old.now new.now
        → D.failures new.now ≡ D.failures old.now }
{
    let _ = old;
    let _ = new;
}

/// Lines reach the table before them, those within the first line, and the one that all of them
/// leave; more lines reach no less. No lines reach nothing else, one line only the tables within
/// it, and a line that is too long reaches nothing after it.
pub fn lines_reach_tables()
    ensures before { (t : List JobParts) (ls : List (List ℕ)) → IsReached t ls t }
    ensures none { (t u : List JobParts) → IsReached t [] u ↔ (u ≡ t) }
    ensures one { (t u : List JobParts) (line : List ℕ)
        → IsReached t (line ∷ []) u ↔ IsInLine t line u }
    ensures all { (t u : List JobParts) (ls : List (List ℕ)) (answers : List ℕ)
        → MayBeServed ls → IsServed t ls answers u → IsReached t ls u }
    ensures longer { (t u : List JobParts) (ls more : List (List ℕ))
        → IsReached t ls u → IsReached t (ls ++ more) u }
    ensures too_long { (t u : List JobParts) (line : List ℕ) (more : List (List ℕ))
        → 262144 < length line → IsReached t (line ∷ more) u → IsInLine t line u }
{
    ic_commands::laws::one_line_reading();
}

/// What a stop leaves is made, and whoever opens it begins with a table that may stand.
pub fn a_stop_is_opened()
    ensures made { (m n : ℕ) (kept t : List JobParts) (ls : List (List ℕ)) (file : List ℕ)
        → HoldsOne (MayStand (m ≡ n) kept t ls) file → IsMade file }
    ensures opened { (m n : ℕ) (kept t next : List JobParts) (ls : List (List ℕ)) (file : List ℕ)
        → HoldsOne (MayStand (m ≡ n) kept t ls) file → IsHeld (the_table next) file
        → MayStand (m ≡ n) kept t ls next }
{
    ic_slots::laws::one_is_held();
}

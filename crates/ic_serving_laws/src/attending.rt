//! Laws of an attendance: what its ends, its faults and its disk come to.

ghost use Rattle.std.specs.Prelude.{◌≡◌, ◌≢◌, ◌⊎◌, ◌<◌, ◌≤◌, ◌-◌, ◌^◌, ℕ, List, [], Option, Some, None, Result, Ok, Err, IsTrue, OnOk, true, false, Contains, length, slice_get};
ghost use Rattle.std.specs.List.{All, AllZip, count_by};
ghost use Rattle.std.specs.Io.KnownBytes.{Appends};
ghost use Rattle.ic_disk.specs.Images.{Within};
ghost use Rattle.ic_disk.specs.Time.{LeavesOnly};
ghost use Rattle.ic_frames.specs.declared.faults.OpenCause.{OpenCause};
ghost use Rattle.ic_frames.specs.declared.faults.OpenFault.{OpenFault};
ghost use Rattle.ic_frames.specs.Faults.{CountsOpen};
ghost use Rattle.ic_jobs.specs.declared.command.Command.{Command};
ghost use Rattle.ic_jobs.specs.declared.event.Entry.{Entry};
ghost use Rattle.ic_jobs.specs.History.{replay};
ghost use Rattle.ic_jobs.specs.Landing.{due};
ghost use Rattle.ic_slots.specs.Held.{IsHeld, the_table};
ghost use Rattle.ic_slots.specs.Opening.{Says};
ghost use Rattle.ic_book.specs.declared.fault.BookFault.{BookFault};
ghost use Rattle.ic_book.specs.declared.fault.BookFault.TheVariants.{Broken, LogFull, Worn, Device};
ghost use Rattle.ic_book.specs.declared.fault.BookFault.TheVariants as of_book;
ghost use Rattle.ic_book.specs.declared.limits.TheConstants.{MAX_ENTRIES};
ghost use Rattle.ic_book.specs.Book.{disk_of, start_of, log_of, table_of, kept_of, is_broken, number_of};
ghost use Rattle.ic_book.specs.ByCalls.{IsOnMadeDisk};
ghost use Rattle.ic_book.specs.Entries.{is_round};
ghost use Rattle.ic_book.specs.Moves.{keep_move, stops};
ghost use Rattle.ic_book.specs.Server.{IsFound, Step, down, up};
ghost use Rattle.ic_attend.specs.declared.attended.ClientRun.{ClientRun};
ghost use Rattle.ic_attend.specs.declared.attended.RunnerEnd.TheVariants.{Idle, Turns, Book as by_book};
ghost use Rattle.ic_attend.specs.Clients.{Follows, KeepsTo};
ghost use Rattle.ic_attend.specs.Ends.{EndMayBe, EndsTell};
ghost use Rattle.ic_attend.specs.Faults.{IsAsOpened, IsStopped, IsTorn, IsUnopened};
ghost use Rattle.ic_attend.specs.OneHistory.{IsOneHistory};
ghost use Rattle.ic_scripts.specs.declared.fault.ScriptsFault.{ScriptsFault};
ghost use Rattle.ic_scripts.specs.declared.fault.ScriptsFault.TheVariants.{Memory, NoThread, Open, Read, Torn, Write};
ghost use Rattle.ic_scripts.specs.Attending.{HasHistory, IsAttended, IsTold, IsToldFault, IsToldPart, KeepTells, SaysWhy};
ghost use Rattle.ic_scripts.specs.Telling.{faults_of, told};
ghost use Rattle.ic_output.specs.Output.{AppendsFront};
ghost use Rattle.ic_serving_laws.specs.Attending.{AttendedOver, HoldsFrontOf};
ghost use Rattle.ic_serving_laws.specs.Served.{BookOver};

use ic_attend::Attended;
use ic_book::Book;
use ic_disk::Disk;

/// Where a runner ended idle, nothing is due any more. One that has used up its turns took just so many
/// rounds, and the history has at least these.
pub fn runners_end_where_nothing_is_due<D: Disk>(attended: &Attended<D>)
    ensures idle { (scripts : List (List Command)) (runners turns k after : ℕ)
        → IsOneHistory scripts runners turns attended.now
        → slice_get attended.now.ends.items k ≡ Some Idle
        → due (table_of attended.now.book) after ≡ None }
    ensures turns { (scripts : List (List Command)) (runners turns k taken : ℕ)
        → IsOneHistory scripts runners turns attended.now
        → slice_get attended.now.ends.items k ≡ Some (Turns taken)
        → (taken ≡ turns) × (taken ≤ count_by (λ e. is_round e.event) (log_of attended.now.book)) }
{
    let _ = attended;
    ic_jobs::laws::due_is_the_next_running_job();
}

/// A refusal by which a client or a runner ended is borne out by the book that is left: a call to
/// the disk has failed, the history is full, or the numbers of the slots are used up.
pub fn each_refusal_is_borne_out<D: Disk>(attended: &Attended<D>)
    ensures broken { (workers who : ℕ) (run : ClientRun) → EndsTell workers attended.now
        → slice_get attended.now.answers.items who ≡ Some run → run.end ≡ Some Broken
        → is_broken attended.now.book ≡ true }
    ensures device { (workers who : ℕ) (run : ClientRun) → EndsTell workers attended.now
        → slice_get attended.now.answers.items who ≡ Some run → run.end ≡ Some Device
        → is_broken attended.now.book ≡ true }
    ensures full { (workers who : ℕ) (run : ClientRun) → EndsTell workers attended.now
        → slice_get attended.now.answers.items who ≡ Some run → run.end ≡ Some LogFull
        → length (log_of attended.now.book) ≡ MAX_ENTRIES }
    ensures worn { (workers who : ℕ) (run : ClientRun) → EndsTell workers attended.now
        → slice_get attended.now.answers.items who ≡ Some run → run.end ≡ Some Worn
        → number_of attended.now.book ≡ 2 ^ 64 - 1 }
    ensures runner_broken { (workers k : ℕ) → EndsTell workers attended.now
        → slice_get attended.now.ends.items k ≡ Some (by_book Broken)
        → is_broken attended.now.book ≡ true }
    ensures runner_full { (workers k : ℕ) → EndsTell workers attended.now
        → slice_get attended.now.ends.items k ≡ Some (by_book LogFull)
        → length (log_of attended.now.book) ≡ MAX_ENTRIES }
{
    let _ = attended;
}

/// What is torn lacks one of the facts that `attend` says at `Ok`: where the book began with the
/// table that the disk holds, and its log is one history of the scripts, some refusal isn't borne
/// out.
pub fn what_is_torn_is_not_borne_out<D: Disk>(disk: &D, attended: &Attended<D>)
    ensures { (scripts : List (List Command)) (runners turns workers : ℕ)
        → IsTorn D.Disk disk.now scripts runners turns workers attended.now
        → IsTrue (D.keeps disk.now)
        → IsHeld (the_table (start_of attended.now.book)) (D.content disk.now)
        → IsOneHistory scripts runners turns attended.now → ¬ EndsTell workers attended.now }
{
    let _ = disk;
    let _ = attended;
    ic_slots::laws::one_is_held();
}

/// Where memory was refused before any thread was started, the book has the table that the disk
/// holds, and nothing has come to it: nobody was answered, and no round was made.
pub fn want_of_memory_leaves_an_opened_book<D: Disk>(disk: &D, book: &Book<D>)
    ensures table { IsAsOpened disk.now book.now → IsTrue (D.keeps disk.now)
        → IsHeld (the_table (table_of book.now)) (D.content disk.now) }
    ensures log { (e : Entry) → IsAsOpened disk.now book.now → ¬ Contains (log_of book.now) e }
{
    let _ = disk;
    let _ = book;
}

/// At `Ok` scripts leave one legal history, which goes on from the table that the disk held. Reads
/// of the disk that is handed back give the table after all its entries, also after a crash.
pub fn scripts_leave_their_history_on_the_disk<D: Disk>(disk: &D, left: &D)
    ensures { (done : Unit {0}) (scripts : List (List Command)) (runners turns workers : ℕ)
        (old new : Option (List ℕ))
        → IsAttended D.Disk disk.now scripts runners turns workers left.now (Ok done) old new
        → IsTrue (D.keeps left.now)
        → (a : AttendedOver D.Disk) × IsOneHistory scripts runners turns a
        × (IsTrue (D.keeps disk.now)
        → IsHeld (the_table (start_of a.book)) (D.content disk.now))
        × IsHeld (the_table (replay (start_of a.book) (log_of a.book))) (D.content left.now)
        × Within (D.image left.now)
        (IsHeld (the_table (replay (start_of a.book) (log_of a.book)))) }
{
    let _ = disk;
    let _ = left;
}

/// Where a disk isn't opened, the refusal says what reads give. The disk that is handed back is the one
/// that was given, also after a crash, and one more failure is counted exactly where the disk failed.
/// Where a thread can't be started, and where what is left is torn, each client has followed its script
/// as far as it came, and each runner has an end that may be a runner's. In the first case the book began
/// with the table that the disk holds. Where it did in the second, each client keeps to its script.
pub fn what_is_not_attended_is_said<D: Disk>(disk: &D, attended: &Attended<D>)
    ensures unopened { (fault : OpenFault D) → IsUnopened D.Disk disk.now fault
        → IsTrue (D.keeps disk.now)
        → Says fault.cause (D.content disk.now) × (D.content fault.disk ≡ D.content disk.now) }
    ensures crash { (fault : OpenFault D) → IsUnopened D.Disk disk.now fault
        → IsTrue (D.keeps disk.now)
        → LeavesOnly D.clock D.left disk.now fault.disk (D.image disk.now) }
    ensures counted { (fault : OpenFault D) → IsUnopened D.Disk disk.now fault
        → CountsOpen {T = Unit {0}} (Err fault.cause)
        (D.failures disk.now) (D.failures fault.disk) }
    ensures stopped { (scripts : List (List Command)) (runners turns workers : ℕ)
        → IsStopped D.Disk disk.now scripts runners turns workers attended.now
        → AllZip Follows scripts attended.now.answers.items
        × (length attended.now.ends.items ≡ runners)
        × All (EndMayBe turns workers) attended.now.ends.items }
    ensures began { (scripts : List (List Command)) (runners turns workers : ℕ)
        → IsStopped D.Disk disk.now scripts runners turns workers attended.now
        → IsTrue (D.keeps disk.now)
        → IsHeld (the_table (start_of attended.now.book)) (D.content disk.now) }
    ensures torn { (scripts : List (List Command)) (runners turns workers : ℕ)
        → IsTorn D.Disk disk.now scripts runners turns workers attended.now
        → AllZip Follows scripts attended.now.answers.items
        × (length attended.now.ends.items ≡ runners)
        × All (EndMayBe turns workers) attended.now.ends.items }
    ensures kept_to { (scripts : List (List Command)) (runners turns workers : ℕ)
        → IsTorn D.Disk disk.now scripts runners turns workers attended.now
        → IsTrue (D.keeps disk.now)
        → IsHeld (the_table (start_of attended.now.book)) (D.content disk.now)
        → AllZip KeepsTo scripts attended.now.answers.items }
{
    let _ = disk;
    let _ = attended;
    ic_slots::laws::one_is_held();
}

/// At `Ok` no client and no runner had a fault, and just the answers to all clients are written. The
/// book that they left isn't broken, and at the keep after them no call to the disk failed. A fault of
/// theirs is told before one of writing; then a front of the answers is written. Each refusal is borne
/// out by the book that is left. However it ends, the disk has the table of this book, unless the keep
/// was refused.
pub fn scripts_are_told_so<D: Disk>(left: &D)
    ensures well { (done : Unit {0}) (a : AttendedOver D.Disk) (old new : Option (List ℕ))
        (is : IsTold a left.now (Ok done) old new)
        → (faults_of a.answers.items a.ends.items is.kept ≡ [])
        × Appends old new (told a.answers.items) }
    ensures kept { (done : Unit {0}) (a : AttendedOver D.Disk) (old new : Option (List ℕ))
        → IsTold a left.now (Ok done) old new → (is_broken a.book ≡ false)
        × (D.failures left.now ≡ D.failures (disk_of a.book)) }
    ensures holds { (result : Result (Unit {0}) ScriptsFault) (a : AttendedOver D.Disk)
        (old new : Option (List ℕ)) (is : IsTold a left.now result old new)
        → KeepTells a.book is.kept × OnOk is.kept (IsTrue (D.keeps left.now)
        → IsHeld (the_table (table_of a.book)) (D.content left.now)
        × Within (D.image left.now) (IsHeld (the_table (table_of a.book)))) }
    ensures first { (runs : List ClientRun) (faults : List ScriptsFault) (fault : ScriptsFault)
        (old new : Option (List ℕ)) → IsToldFault runs faults fault old new
        → (slice_get faults 0 ≡ Some fault) × AppendsFront old new [] (told runs) }
    ensures part { (runs : List ClientRun) (faults : List ScriptsFault) (fault : ScriptsFault)
        (old new : Option (List ℕ)) → IsToldPart runs faults fault old new
        → (faults ≡ []) × ((fault ≡ Write) ⊎ (fault ≡ Memory)) × AppendsFront old new [] (told runs) }
    ensures history { (disk : D) (scripts : List (List Command)) (runners turns workers : ℕ)
        (a : AttendedOver D.Disk) → HasHistory disk scripts runners turns workers a
        → IsOneHistory scripts runners turns a × EndsTell workers a }
{
    let _ = left;
}

/// Where scripts have no history, the fault says why, as `attend` does: the disk wasn't opened, a thread
/// couldn't be started, what is left is torn, or memory ran out over a book that was just opened. No
/// fault of a reader or a writer is told then. The disk that is left is that of the book, or the one that
/// wasn't opened: where memory ran out, and where it wasn't opened, it has what it had.
pub fn scripts_without_a_history_say_why<D: Disk>(disk: &D, left: &D)
    ensures unopened { (scripts : List (List Command)) (runners turns workers : ℕ)
        (cause : OpenCause)
        → SaysWhy D.Disk disk.now scripts runners turns workers left.now (Open cause)
        → (fault : OpenFault D) × (fault.cause ≡ cause) × IsUnopened D.Disk disk.now fault
        × (left.now ≡ fault.disk) }
    ensures stopped { (scripts : List (List Command)) (runners turns workers : ℕ)
        → SaysWhy D.Disk disk.now scripts runners turns workers left.now NoThread
        → (a : AttendedOver D.Disk) × IsStopped D.Disk disk.now scripts runners turns workers a
        × (left.now ≡ disk_of a.book) }
    ensures torn { (scripts : List (List Command)) (runners turns workers : ℕ)
        → SaysWhy D.Disk disk.now scripts runners turns workers left.now Torn
        → (a : AttendedOver D.Disk) × IsTorn D.Disk disk.now scripts runners turns workers a
        × (left.now ≡ disk_of a.book) }
    ensures wanting { (scripts : List (List Command)) (runners turns workers : ℕ)
        → SaysWhy D.Disk disk.now scripts runners turns workers left.now Memory
        → (book : BookOver D.Disk) × IsAsOpened disk.now book × (left.now ≡ disk_of book) }
    ensures stays { (scripts : List (List Command)) (runners turns workers : ℕ)
        → SaysWhy D.Disk disk.now scripts runners turns workers left.now Memory
        → IsTrue (D.keeps disk.now) → D.content left.now ≡ D.content disk.now }
    ensures as_found { (scripts : List (List Command)) (runners turns workers : ℕ)
        (cause : OpenCause)
        → SaysWhy D.Disk disk.now scripts runners turns workers left.now (Open cause)
        → IsTrue (D.keeps disk.now) → D.content left.now ≡ D.content disk.now }
    ensures never { (scripts : List (List Command)) (runners turns workers : ℕ)
        → ¬ SaysWhy D.Disk disk.now scripts runners turns workers left.now Read
        × ¬ SaysWhy D.Disk disk.now scripts runners turns workers left.now Write }
{
    let _ = disk;
    let _ = left;
}

/// The keep after a history is refused by a broken book. Else something was to be kept, and the numbers
/// of the slots were used up, or a call to the disk failed. It is never refused for a full history or
/// for want of memory.
pub fn the_keep_after_scripts_is_refused_so<D: Disk>(book: &Book<D>)
    ensures broken { KeepTells {T = Unit {0}} book.now (Err Broken) → is_broken book.now ≡ true }
    ensures worn { KeepTells {T = Unit {0}} book.now (Err Worn) → (is_broken book.now ≡ false)
        × (kept_of book.now < length (log_of book.now)) × (number_of book.now ≡ 2 ^ 64 - 1) }
    ensures device { KeepTells {T = Unit {0}} book.now (Err Device) → (is_broken book.now ≡ false)
        × (kept_of book.now < length (log_of book.now)) × (number_of book.now ≢ 2 ^ 64 - 1) }
    ensures never { ¬ KeepTells {T = Unit {0}} book.now (Err LogFull)
        × ¬ KeepTells {T = Unit {0}} book.now (Err of_book.Memory) }
{
    let _ = book;
}

/// A stop at any moment of the keep after scripts leaves a made disk with the table after a front of
/// their history that has all that was kept before it. So does a keep that fails, and reads of the disk
/// that is handed back give this table. Such a stop is a step of a server. A keep that is refused
/// without a call leaves the disk as it was. A book that is closed with no keep leaves such a table too.
pub fn the_keep_after_scripts_leaves_a_front<D: Disk>(attended: &Attended<D>, left: &D)
    ensures crash { (result : Result (Unit {0}) ScriptsFault) (old new : Option (List ℕ))
        → IsTold attended.now left.now result old new → IsOnMadeDisk attended.now.book
        → LeavesOnly D.clock D.left (disk_of attended.now.book) left.now
        (HoldsFrontOf attended.now.book) }
    ensures reads { (result : Result (Unit {0}) ScriptsFault) (old new : Option (List ℕ))
        → IsTold attended.now left.now result old new → IsOnMadeDisk attended.now.book
        → HoldsFrontOf attended.now.book (D.content left.now) }
    ensures stopped { (result : Result (Unit {0}) ScriptsFault) (old new : Option (List ℕ))
        (found : D) (is : IsTold attended.now left.now result old new)
        → IsFound D.Disk (disk_of attended.now.book) left.now found
        → Step {ghosts = D.Disk} (stops (keep_move is.kept)) (up attended.now.book) (down found) }
    ensures untouched { (result : Result (Unit {0}) ScriptsFault) (old new : Option (List ℕ))
        (fault : BookFault) (is : IsTold attended.now left.now result old new)
        → is.kept ≡ Err fault → fault ≢ Device → left.now ≡ disk_of attended.now.book }
    ensures unkept { left.now ≡ disk_of attended.now.book → IsOnMadeDisk attended.now.book
        → Within (D.image left.now) (HoldsFrontOf attended.now.book) }
{
    let _ = left;
    attended.book.facts();
}

//! The lives of a book, from stop to stop, as pages: what their histories tell of its jobs.

ghost use Rattle.std.specs.Prelude.{◌≡◌, ◌↔◌, ◌≤◌, ℕ, List, [], ◌∷◌, ◌++◌, Bool, Some, IsSome, IsTrue, length, take, drop};
ghost use Rattle.std.specs.List.{sum_by};
ghost use Rattle.ic_disk.specs.Images.{Within};
ghost use Rattle.ic_disk.specs.Time.{LeftSince};
ghost use Rattle.ic_round.specs.Rounds.{iterate};
ghost use Rattle.ic_jobs.specs.declared.event.Entry.{Entry};
ghost use Rattle.ic_jobs.specs.Job.{JobParts};
ghost use Rattle.ic_jobs.specs.Table.{job_named};
ghost use Rattle.ic_jobs.specs.History.{replay, IsLegal};
ghost use Rattle.ic_jobs.specs.Life.{Life, life, IsAsLived};
ghost use Rattle.ic_frames.specs.Fields.{IsMade};
ghost use Rattle.ic_slots.specs.Held.{HoldsTable, IsHeld, the_table};
ghost use Rattle.ic_book.specs.Kept.{IsHistory};
ghost use Rattle.ic_book.specs.Crashes.{LeavesKeptOrAll};
ghost use Rattle.ic_book.specs.Left.{HoldsKeptOrAll};
ghost use Rattle.ic_book.specs.Book.{start_of, kept_of, disk_of};
ghost use Rattle.ic_book.specs.Lives.{Page, IsPage, AreLives, left_by, lived};

use ic_book::Book;
use ic_disk::Disk;

/// A page is a log that is legal from its table, with as many entries kept as the stop left or
/// fewer. A stop of a book leaves one: where a crash leaves a file that holds the table of the kept
/// entries or of all, it holds the table that the page leaves.
pub fn a_stop_leaves_a_page()
    ensures page { (p : Page) → IsPage p
        ↔ (IsLegal p.start p.log × (p.kept ≤ p.stop) × (p.stop ≤ length p.log)) }
    ensures left { (p : Page) → left_by p ≡ take p.stop p.log }
    ensures stop { (start : List JobParts) (log : List Entry) (table : List JobParts)
        (kept now : ℕ) (broken : Bool) (file : List ℕ)
        → IsHistory start log table now broken → kept ≤ now
        → HoldsKeptOrAll start log kept file
        → (k : ℕ) × IsPage (record { start = start; log = log; kept = kept; stop = k })
        × HoldsTable (replay start (take k log)) file }
{}

/// A crash in a call on a made disk leaves the table after some front of the entries that the call
/// would have in its log, with all that were kept when it began. The disk stays made.
pub fn a_crash_in_a_call_leaves_a_front<D: Disk>(old: &Book<D>, new: &Book<D>)
    ensures front { (log : List Entry) (file : List ℕ) → LeavesKeptOrAll log old.now new.now
        → IsTrue (D.keeps (disk_of old.now)) → Within (D.image (disk_of old.now)) IsMade
        → LeftSince (D.left (disk_of new.now)) (D.clock (disk_of old.now)) file
        → kept_of old.now ≤ length log
        → (k : ℕ) × (kept_of old.now ≤ k) × (k ≤ length log)
        × HoldsTable (replay (start_of old.now) (take k log)) file }
    ensures stays { (log : List Entry) → LeavesKeptOrAll log old.now new.now
        → IsTrue (D.keeps (disk_of old.now)) → Within (D.image (disk_of old.now)) IsMade
        → IsTrue (D.keeps (disk_of new.now)) × Within (D.image (disk_of new.now)) IsMade }
{
    let _ = old;
    let _ = new;
}

/// Over any number of lives, what the stops left of all logs but the last, joined in order, is one
/// history. It is legal from the empty table, and the last life opened with the table that it
/// leaves.
pub fn lives_law()
    ensures legal { (before : List Page) (last : Page) → AreLives [] (before ++ last ∷ [])
        → IsLegal [] (lived before) }
    ensures opens { (before : List Page) (last : Page) → AreLives [] (before ++ last ∷ [])
        → last.start ≡ replay [] (lived before) }
{
    ic_jobs::laws::histories_split_and_join();
}

/// After any number of stops, at each moment of the last life, when its log had n entries: the
/// history of all lives up to then is legal from the empty table and leaves the table of that
/// moment. In this table there are the jobs that have a life in this history, each as its life
/// says.
pub fn each_job_is_as_it_lived()
    ensures legal { (before : List Page) (last : Page) (n : ℕ)
        → AreLives [] (before ++ last ∷ [])
        → IsLegal [] (lived before ++ take n last.log) }
    ensures table { (before : List Page) (last : Page) (n : ℕ)
        → AreLives [] (before ++ last ∷ [])
        → replay last.start (take n last.log) ≡ replay [] (lived before ++ take n last.log) }
    ensures jobs { (before : List Page) (last : Page) (n : ℕ) (name : List ℕ)
        → AreLives [] (before ++ last ∷ [])
        → IsAsLived (job_named name (replay last.start (take n last.log)))
        (life name (lived before ++ take n last.log)) }
{
    ic_jobs::laws::histories_split_and_join();
    ic_jobs::laws::life_law();
}

/// After any number of stops, at each moment of the last life: each job began with some rules and a
/// configuration. Its configuration after its r-th round is the r-th iterate of the sequential
/// round on the configuration that it began with.
pub fn each_round_is_the_next_iterate()
    ensures began { (before : List Page) (last : Page) (n : ℕ) (name : List ℕ) (j : JobParts)
        → AreLives [] (before ++ last ∷ [])
        → job_named name (replay last.start (take n last.log)) ≡ Some j
        → IsSome (life name (lived before ++ take n last.log)) }
    ensures rules { (before : List Page) (last : Page) (n : ℕ) (name : List ℕ) (j : JobParts)
        (l : Life) → AreLives [] (before ++ last ∷ [])
        → job_named name (replay last.start (take n last.log)) ≡ Some j
        → life name (lived before ++ take n last.log) ≡ Some l
        → j.rules ≡ l.rules }
    ensures rounds { (before : List Page) (last : Page) (n : ℕ) (name : List ℕ) (j : JobParts)
        (l : Life) → AreLives [] (before ++ last ∷ [])
        → job_named name (replay last.start (take n last.log)) ≡ Some j
        → life name (lived before ++ take n last.log) ≡ Some l
        → j.rounds ≡ l.rounds }
    ensures config { (before : List Page) (last : Page) (n : ℕ) (name : List ℕ) (j : JobParts)
        (l : Life) → AreLives [] (before ++ last ∷ [])
        → job_named name (replay last.start (take n last.log)) ≡ Some j
        → life name (lived before ++ take n last.log) ≡ Some l
        → j.config ≡ iterate j.rules.rules j.rounds l.first }
{
    each_job_is_as_it_lived();
}

/// What was kept in a life is in the history of all of them, after what the lives before it left:
/// no stop takes it away. A stop leaves as many entries as the page says.
pub fn what_was_kept_is_lived()
    ensures kept { (before after : List Page) (p : Page) → IsPage p
        → lived (before ++ p ∷ after) ≡ lived before ++ take p.kept p.log
        ++ drop p.kept (left_by p) ++ lived after }
    ensures counted { (t : List JobParts) (pages : List Page) → AreLives t pages
        → length (lived pages) ≡ sum_by (λ p. p.stop) pages }
{}

/// No life at all is a beginning, and lives go on by any page that opens with the table that they
/// left, and by no other.
pub fn lives_go_on()
    ensures none { (t : List JobParts) → AreLives t [] }
    ensures next { (t : List JobParts) (before : List Page) (last : Page)
        → AreLives t (before ++ last ∷ [])
        ↔ (AreLives t before × IsPage last × (last.start ≡ replay t (lived before))) }
{
    ic_jobs::laws::histories_split_and_join();
}

/// A stop begins the next life: where a file holds the table that the last page's stop left, whoever
/// opens it begins with the table that the history of all lives leaves.
pub fn a_stop_begins_the_next_life()
    ensures { (before : List Page) (last : Page) (file : List ℕ) (next : List JobParts)
        → AreLives [] (before ++ last ∷ [])
        → HoldsTable (replay last.start (left_by last)) file
        → IsHeld (the_table next) file
        → next ≡ replay [] (lived (before ++ last ∷ [])) }
{
    ic_jobs::laws::histories_split_and_join();
    ic_slots::laws::one_is_held();
}

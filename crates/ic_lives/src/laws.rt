//! What a server has after any run, and what an entry leaves of a job and of its life.

ghost use Rattle.std.specs.Prelude.{◌≡◌, ◌⊎◌, ◌≤◌, [], ◌∷◌, ◌++◌, ℕ, List, Option, None, Some, length, take, false};
ghost use Rattle.std.specs.Str.{bytes_eq};
ghost use Rattle.ic_rules.specs.System.{SystemParts};
ghost use Rattle.ic_jobs.specs.declared.command.Command.{Command};
ghost use Rattle.ic_jobs.specs.declared.command.Command.TheVariants.{Submit, CopyJob, Pause, Resume};
ghost use Rattle.ic_jobs.specs.declared.event.Entry.{Entry};
ghost use Rattle.ic_jobs.specs.declared.event.Event.TheVariants.{Command as by_command};
ghost use Rattle.ic_jobs.specs.declared.reply.Reply.{Reply};
ghost use Rattle.ic_jobs.specs.declared.reply.Reply.TheVariants.{Accepted, Shown, Refused, Halted};
ghost use Rattle.ic_jobs.specs.declared.reply.Refusal.{Refusal};
ghost use Rattle.ic_jobs.specs.Job.{JobParts, begun, system_of};
ghost use Rattle.ic_jobs.specs.Table.{job_named};
ghost use Rattle.ic_jobs.specs.Shown.{ShownParts};
ghost use Rattle.ic_jobs.specs.Events.{after_command};
ghost use Rattle.ic_jobs.specs.History.{table_after, replay, IsLegal};
ghost use Rattle.ic_jobs.specs.Life.{life};
ghost use Rattle.ic_frames.specs.declared.faults.OpenCause.{OpenCause};
ghost use Rattle.ic_frames.specs.declared.faults.OpenCause.TheVariants.{Device, Memory};
ghost use Rattle.ic_slots.specs.Held.{HoldsTable};
ghost use Rattle.ic_book.specs.Book.{table_of};
ghost use Rattle.ic_book.specs.Moves.{Move, answers, keeps, opens, refuses};
ghost use Rattle.ic_book.specs.Server.{Server, Reaches, Runs, down, up};
ghost use Rattle.ic_lives.specs.Histories.{IsHistoryOf};
ghost use Rattle.ic_lives.specs.Past.{Past, Next, Leads, IsPast};
ghost use Rattle.ic_lives.specs.Headline.{IsTableAfter, HoldsPrefixAfter};
ghost use Rattle.ic_lives.specs.Looks.{Tells, AreTold};

use ic_book::Book;
use ic_disk::Disk;

/// Stopped at any moment, inside a write or between two, the server opens again with the job table
/// after a prefix of the commands and rounds so far that holds every answered command. And after any
/// number of stops, with any number of workers, each job's configuration after its r-th round is the
/// r-th iterate of the sequential round on the configuration that it began with.
///
/// So it is after every list of moves from a disk on which `create` has answered.
pub fn the_headline<D: Disk>(book: &Book<D>, found: &D)
    // An open book has the table after a past of these moves.
    ensures open { (moves : List Move) → Reaches moves (up book.now)
        → IsTableAfter moves (table_of book.now) }

    // A disk that will be found has the table after a prefix of one, in whatever image is found.
    ensures stopped { (moves : List Move) (file : List ℕ)
        → Reaches {ghosts = D.Disk} moves (down found.now) → D.image found.now file
        → HoldsPrefixAfter moves file }

    // An opening is refused for no other cause than these.
    ensures opens_again { (moves : List Move) (cause : OpenCause)
        → Reaches {ghosts = D.Disk} (refuses cause ∷ moves) (down found.now)
        → (cause ≡ Device) ⊎ (cause ≡ Memory) }
{
    let _ = book;
    let _ = found;
    ic_jobs::laws::histories_split_and_join();
    ic_jobs::laws::life_law();
    ic_slots::laws::one_is_held();
}

/// The headline by histories alone. What an open book has, and whatever file is found of a disk, is
/// the table after a legal history. This history has every answered command with its reply, in
/// order, and nothing but what has come.
pub fn every_answer_stands<D: Disk>(book: &Book<D>, found: &D)
    ensures open { (moves : List Move) → Reaches moves (up book.now)
        → (history : List Entry) × IsHistoryOf moves history
        × (table_of book.now ≡ replay [] history) }
    ensures stopped { (moves : List Move) (file : List ℕ)
        → Reaches {ghosts = D.Disk} moves (down found.now) → D.image found.now file
        → (history : List Entry) × IsHistoryOf moves history
        × HoldsTable (replay [] history) file }
{
    let _ = book;
    let _ = found;
    ic_jobs::laws::histories_split_and_join();
    ic_jobs::laws::life_law();
    ic_slots::laws::one_is_held();
}

/// Several looks at one server are told by one past that goes on: a later look has that of an earlier
/// one, as the moves between them have led it on. Each look has the conclusion of the headline.
pub fn looks_go_on<D: Disk>(disk: &D)
    ensures two { (earlier later : List Move) (mid last : Server D.Disk)
        → Reaches earlier mid → Runs later mid last
        → (then now : Past) × IsPast earlier then × Tells then mid
        × Leads later then now × Tells now last }
    ensures all { (moves : List Move) (server : Server D.Disk) (run : Reaches moves server)
        → (past : Past) × AreTold moves (down run.disk) server run.runs past }
{
    let _ = disk;
    ic_jobs::laws::histories_split_and_join();
    ic_jobs::laws::life_law();
    ic_slots::laws::one_is_held();
}

/// What lasts begins the history for ever after, and lasts.
pub fn what_lasts_stays()
    ensures { (later : List Move) (then now : Past)
        → then.lasting ≤ length then.entries → Leads later then now
        → (take then.lasting now.entries ≡ take then.lasting then.entries)
        × (then.lasting ≤ now.lasting) }
{}

/// What had come when all was kept begins the history for ever after, and so does what an opening
/// has found.
pub fn what_is_kept_stays()
    ensures kept { (later : List Move) (before then now : Past) → Next keeps before then
        → Leads later then now → (then.entries ≡ before.entries)
        × (take (length then.entries) now.entries ≡ then.entries) }
    ensures found { (later : List Move) (before then now : Past) → Next opens before then
        → Leads later then now → take (length then.entries) now.entries ≡ then.entries }
{}

/// What has come up to an answered command, and the command, begins the history for ever after. So
/// it is of the past that was told then, and each past that is told later has such a one.
pub fn an_answer_stays()
    ensures told { (later : List Move) (who : ℕ) (command : Command) (reply : Reply)
        (before then now : Past) → Next (answers who command reply) before then
        → Leads later then now → take (length then.entries) now.entries ≡ then.entries }
    ensures some { (later earlier : List Move) (who : ℕ) (command : Command) (reply : Reply)
        (now : Past) → IsPast (later ++ answers who command reply ∷ earlier) now
        → (then : Past) × IsPast (answers who command reply ∷ earlier) then
        × (take (length then.entries) now.entries ≡ then.entries) }
{}

/// The life of a name goes on as it was at each entry that neither begins, moves nor ends its job.
/// Such entries are a copy of the job to another name, a pause, a resume, a refusal, a job that is
/// shown, and a halt.
///
/// With the clauses of `ic_jobs::laws::lives_go_so` this settles the life of a name at every entry of
/// a legal history.
pub fn a_life_stays()
    ensures copied_from { (name new : List ℕ) (h : List Entry) (e : Entry)
        → e.event ≡ by_command (CopyJob name new) → bytes_eq name new ≡ false
        → life name (h ++ e ∷ []) ≡ life name h }
    ensures paused { (name : List ℕ) (h : List Entry) (e : Entry)
        → e.event ≡ by_command (Pause name) → life name (h ++ e ∷ []) ≡ life name h }
    ensures resumed { (name : List ℕ) (h : List Entry) (e : Entry)
        → e.event ≡ by_command (Resume name) → life name (h ++ e ∷ []) ≡ life name h }
    ensures refused { (name : List ℕ) (h : List Entry) (e : Entry) (r : Refusal)
        → e.reply ≡ Refused r → life name (h ++ e ∷ []) ≡ life name h }
    ensures shown { (name : List ℕ) (h : List Entry) (e : Entry) (s : ShownParts)
        → e.reply ≡ Shown s → life name (h ++ e ∷ []) ≡ life name h }
    ensures halted { (name : List ℕ) (h : List Entry) (e : Entry)
        → e.reply ≡ Halted → life name (h ++ e ∷ []) ≡ life name h }
{}

/// A copy leaves the job that it copies as it is, whatever it is answered.
pub fn a_copied_job_stays()
    ensures { (t : List JobParts) (old new : List ℕ)
        → job_named old (table_after t (by_command (CopyJob old new))) ≡ job_named old t }
{}

/// An accepted submit begins its job with the system and the budget that were submitted. The new job
/// goes last, after all jobs as they were.
pub fn submits_begin_so()
    ensures { (t : List JobParts) (name : List ℕ) (s : SystemParts) (budget : Option ℕ)
        → (after_command t (Submit name s budget)).reply ≡ Accepted
        → (after_command t (Submit name s budget)).table ≡ t ++ begun name s budget ∷ [] }
{}

/// A job that was begun is read back as it was begun. After an accepted submit the job of its name
/// has the system and the budget that were submitted. After an accepted copy it has what the copied
/// job had, which was there, and no budget.
pub fn a_begun_job_is_there()
    ensures submitted { (start : List JobParts) (front : List Entry) (e : Entry)
        (name : List ℕ) (s : SystemParts) (budget : Option ℕ)
        → e.event ≡ by_command (Submit name s budget) → e.reply ≡ Accepted
        → IsLegal start (front ++ e ∷ [])
        → job_named name (replay start (front ++ e ∷ [])) ≡ Some (begun name s budget) }
    ensures copied { (start : List JobParts) (front : List Entry) (e : Entry)
        (old new : List ℕ) → e.event ≡ by_command (CopyJob old new) → e.reply ≡ Accepted
        → IsLegal start (front ++ e ∷ [])
        → (j : JobParts) × (job_named old (replay start front) ≡ Some j)
        × (job_named new (replay start (front ++ e ∷ []))
        ≡ Some (begun new (system_of j) None)) }
{}

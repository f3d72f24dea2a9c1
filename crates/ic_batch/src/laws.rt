//! Laws of the definitions that the contracts of this crate cite.

ghost use Rattle.std.specs.Prelude.{◌≡◌, ◌≢◌, ◌↔◌, ◌<◌, ◌≤◌, ◌++◌, ◌+◌, ◌-◌, ◌*◌, ◌/◌, ◌^◌, ◌⊎◌, ℕ, List, [], ◌∷◌, IfSome, Option, Result, Some, Ok, Err, false, true, drop, length, map, min, slice_get, take};
ghost use Rattle.std.specs.List.{AllByRecursion, AllZip, IsDistinct, filter_map, flat_map};
ghost use Rattle.std.specs.Io.KnownBytes.{Appends, Keeps};
ghost use Rattle.std.specs.Str.{bytes_eq};
ghost use Rattle.ic_text.specs.declared.fault.TextFault.{TextFault};
ghost use Rattle.ic_text.specs.declared.fault.TextFault.TheVariants.{Syntax};
ghost use Rattle.ic_round.specs.Rounds.{iterate};
ghost use Rattle.ic_jobs.specs.declared.command.Command.{Command};
ghost use Rattle.ic_jobs.specs.declared.reply.Refusal.{Refusal};
ghost use Rattle.ic_jobs.specs.declared.reply.Reply.TheVariants as reply;
ghost use Rattle.ic_jobs.specs.declared.limits.TheConstants.{MAX_JOBS};
ghost use Rattle.ic_jobs.specs.State.{is_running};
ghost use Rattle.ic_jobs.specs.Events.{after_command};
ghost use Rattle.ic_jobs.specs.Job.{JobParts, can_move};
ghost use Rattle.ic_jobs.specs.Memory.{is_submit};
ghost use Rattle.ic_jobs.specs.Table.{job_named, job_names};
ghost use Rattle.ic_lines.specs.Answers.{out};
ghost use Rattle.ic_lines.specs.Lines.{lines};
ghost use Rattle.ic_lines.specs.Script.{AreAsked, ReadsScript};
ghost use Rattle.ic_lines.specs.Serving.{IsServed};
ghost use Rattle.ic_output.specs.Output.{AppendsFront};
ghost use Rattle.ic_book.specs.declared.fault.BookFault.TheVariants as of_book;
ghost use Rattle.ic_book.specs.Book.{disk_of, is_broken, log_of, number_of, table_of, IsUnchanged};
ghost use Rattle.ic_book.specs.Weight.{weight_of};
ghost use Rattle.ic_disk.specs.Time.{OneMore};
ghost use Rattle.ic_pool.specs.declared.fault.PoolFault.{PoolFault};
ghost use Rattle.ic_pool.specs.declared.fault.PoolFault.TheVariants as of_pool;
ghost use Rattle.ic_serving.specs.declared.fault.ServeFault.{ServeFault};
ghost use Rattle.ic_serving.specs.declared.fault.ServeFault.TheVariants.{Book as by_book, LongLine, Memory as NoMemory, Pool, Read, TooManyLines, Write};
ghost use Rattle.ic_serving.specs.Booked.{last_kept, IsAllKept};
ghost use Rattle.ic_serving.specs.Faults.{ComesInLine};
ghost use Rattle.ic_serving.specs.Moments.{Leaves};
ghost use Rattle.ic_batch.specs.declared.fault.BatchFault.{BatchFault};
ghost use Rattle.ic_batch.specs.declared.fault.BatchFault.TheVariants.{Full, Serve, Taken};
ghost use Rattle.ic_batch.specs.Batch.{Brings, IsBatch, IsOnWay as IsBookOnWay};
ghost use Rattle.ic_batch.specs.Calls.{events_in, events_of, CallsFew};
ghost use Rattle.ic_batch.specs.declared.fault.Difference.{Difference};
ghost use Rattle.ic_batch.specs.declared.fault.Difference.TheVariants.{Budget, Rules, Start};
ghost use Rattle.ic_batch.specs.declared.fault.JobsCause.{JobsCause};
ghost use Rattle.ic_batch.specs.declared.fault.JobsCause.TheVariants.{Refused, Text};
ghost use Rattle.ic_batch.specs.declared.fault.JobsFault.TheVariants.{Line, Read as Unreadable};
ghost use Rattle.ic_batch.specs.declared.jobs.NewJob.{NewJob};
ghost use Rattle.ic_batch.specs.Faults.{all_batch_faults, all_jobs_faults, batch_fault_number, jobs_fault_number, AreSame, Differs, Fails, HasAnother, HasNoRoom, IsLineAfter, IsRefused, Says, SaysOfLines, StopsAt, Succeeds};
ghost use Rattle.ic_batch.specs.Jobs.{begun_by, names, submit_of, AreJobsOf};
ghost use Rattle.ic_batch.specs.Served.{accepted, fetches, run_together};
ghost use Rattle.ic_batch.specs.Way.{after, all_of, fetched_all, goes_on, missing, AreOnWay, ComesTo, HaveEnded, IsOnWay, IsTextOf, IsUnderWay};

use ic_book::Book;
use ic_disk::Disk;

/// The lasting numbers of the faults.
pub fn numbers_are_lasting()
    ensures numbers { (name : List ℕ) (difference : Difference) (of_serving : ServeFault)
        → map batch_fault_number (all_batch_faults name difference of_serving)
        ≡ 1 ∷ 2 ∷ 3 ∷ [] }
    ensures lines { (line : ℕ) (cause : JobsCause)
        → map jobs_fault_number (all_jobs_faults line cause) ≡ 1 ∷ 2 ∷ 3 ∷ [] }
{}

/// A job that is on the way of a new one has its name, its rules and its budget. Its configuration is the
/// iterate of the round, after its rounds, on the one that the new job begins with. It has made no more
/// rounds than it may.
pub fn jobs_on_their_way_are_iterates()
    ensures iterate { (most : ℕ) (new : NewJob) (job : JobParts)
        → IsOnWay most (begun_by new) job → (job.name ≡ new.name) × (job.rules ≡ new.system.rules)
        × (job.budget ≡ new.budget)
        × (job.config ≡ iterate new.system.rules.rules job.rounds new.system.config) }
    ensures few { (most : ℕ) (new : NewJob) (job : JobParts)
        → IsOnWay most (begun_by new) job → job.rounds ≤ most }
{}

/// A way has one end at most, and jobs have one text at most. So the text depends only on the jobs, and
/// on how many rounds they may make.
pub fn jobs_have_one_text()
    ensures end { (most : ℕ) (from one other : JobParts)
        → ComesTo most from one → ComesTo most from other → one ≡ other }
    ensures text { (most : ℕ) (jobs : List NewJob) (one other : List ℕ)
        → IsTextOf most jobs one → IsTextOf most jobs other → one ≡ other }
{}

/// Lines are refused at one that can't be read, for what reading them says, or at the first command that
/// a table of the jobs before it refuses. `Read` isn't told of lines, and lines of jobs aren't refused.
pub fn lines_are_refused_so()
    ensures text { (text : List ℕ) (line : ℕ) (fault : TextFault)
        → SaysOfLines text (Line line (Text fault))
        → ReadsScript text (Err (record { line = line; fault = fault })) ⊎ StopsAt text line (Text fault) }
    ensures refused { (text : List ℕ) (line : ℕ) (why : Refusal)
        → SaysOfLines text (Line line (Refused why)) → StopsAt text line (Refused why) }
    ensures never { (text : List ℕ) → ¬ SaysOfLines text Unreadable }
    ensures jobs { (text : List ℕ) (jobs : List NewJob) (line : ℕ) (is : JobsCause)
        → AreJobsOf text jobs → ¬ SaysOfLines text (Line line is) }
{
    ic_lines::laws::scripts_are_read_in_one_way();
}

/// No room is wanting to a batch that goes on where none was wanting when it began.
pub fn a_batch_that_goes_on_has_room()
    ensures { (most : ℕ) (jobs : List NewJob) (t u : List JobParts)
        → IsUnderWay most jobs t u → ¬ HasNoRoom jobs t → ¬ HasNoRoom jobs u }
{}

/// While a batch is under way each job of its disk is there under its name, on its way, and in its
/// place. Once it has ended, each has come to its end. So no job is lost, whether a line names it or
/// not. After them stand the first of those that were missing, on their ways, and in the end all of
/// these, each at its end.
pub fn a_batch_loses_no_job()
    ensures way { (most : ℕ) (jobs : List NewJob) (t u : List JobParts) (name : List ℕ)
        (from : JobParts) → IsUnderWay most jobs t u → job_named name t ≡ Some from
        → (j : JobParts) × (job_named name u ≡ Some j) × IsOnWay most from j }
    ensures end { (most : ℕ) (jobs : List NewJob) (t u : List JobParts) (name : List ℕ)
        (from : JobParts) → HaveEnded most jobs t u → job_named name t ≡ Some from
        → (j : JobParts) × (job_named name u ≡ Some j) × ComesTo most from j }
    ensures places { (most : ℕ) (jobs : List NewJob) (t u : List JobParts)
        → IsUnderWay most jobs t u → take (length t) (job_names u) ≡ job_names t }
    ensures come { (most : ℕ) (jobs : List NewJob) (t u : List JobParts)
        → IsUnderWay most jobs t u → (front rest : List NewJob) × (missing t jobs ≡ front ++ rest)
        × AllZip (λ new j. IsOnWay most (begun_by new) j) front (drop (length t) u) }
    ensures all_come { (most : ℕ) (jobs : List NewJob) (t u : List JobParts)
        → HaveEnded most jobs t u
        → AllZip (λ new j. ComesTo most (begun_by new) j) (missing t jobs) (drop (length t) u) }
{}

/// In a table without jobs all jobs are on their way, and in one that has them as they began. They stay
/// so where they may make more rounds.
pub fn new_disks_have_jobs_on_their_way()
    ensures none { (most : ℕ) (jobs : List NewJob) → AreOnWay most jobs [] }
    ensures begun { (most : ℕ) (jobs : List NewJob) (t : List JobParts)
        → AllByRecursion (λ new. IfSome (job_named new.name t) (λ j. j ≡ begun_by new)) jobs
        → AreOnWay most jobs t }
    ensures more { (most more : ℕ) (jobs : List NewJob) (t : List JobParts) → most ≤ more
        → AreOnWay most jobs t → AreOnWay more jobs t }
{}

/// Where all of a book is kept, as of one that was just opened, its jobs are on their way if they are
/// so in its table.
pub fn books_that_keep_all_have_jobs_on_their_way<D: Disk>(book: &Book<D>)
    ensures { (most : ℕ) (jobs : List NewJob) → IsAllKept book.now
        → AreOnWay most jobs (table_of book.now) → IsBookOnWay most jobs book.now }
{
    let _ = book;
}

/// Where jobs are on their way, no other job has the name of one of them. And where each job of such a
/// name is the same, the table has no other job of the name.
pub fn jobs_on_their_way_are_not_taken()
    ensures same { (most : ℕ) (jobs : List NewJob) (t : List JobParts)
        → AreOnWay most jobs t → AreSame jobs t }
    ensures none { (jobs : List NewJob) (t : List JobParts) (name : List ℕ)
        (is : Difference) → AreSame jobs t → ¬ HasAnother jobs t name is }
{}

/// Refusals are meant as they are told. A command is told as `Syntax` that submits no job, and any
/// other as a table of the jobs before it refuses it. A job differs by its rules, else by its budget,
/// else, before its first round, by its configuration. The first that differs is told, and jobs that are
/// the same don't differ. There is no room if a table would have more than 32 jobs.
pub fn refusals_are_meant_as_they_are_told()
    ensures syntax { (jobs : List NewJob) (command : Command) (fault : TextFault)
        → IsRefused jobs command (Text fault) → (fault ≡ Syntax) × (is_submit command ≡ false) }
    ensures why { (jobs : List NewJob) (command : Command) (why : Refusal)
        → IsRefused jobs command (Refused why)
        → (after_command (map begun_by jobs) command).reply ≡ reply.Refused why }
    ensures rules { (new : NewJob) (j : JobParts)
        → Differs new j Rules ↔ (j.rules ≢ new.system.rules) }
    ensures budget { (new : NewJob) (j : JobParts) → Differs new j Budget
        ↔ ((j.rules ≡ new.system.rules) × (j.budget ≢ new.budget)) }
    ensures start { (new : NewJob) (j : JobParts) → Differs new j Start
        ↔ ((j.rules ≡ new.system.rules) × (j.budget ≡ new.budget) × (j.rounds ≡ 0)
        × (j.config ≢ new.system.config)) }
    ensures same { (before after : List NewJob) (new : NewJob) (t : List JobParts)
        (job : JobParts) (is : Difference) → AreSame (before ++ new ∷ after) t
        → job_named new.name t ≡ Some job → ¬ Differs new job is }
    ensures another { (before after : List NewJob) (new : NewJob) (t : List JobParts)
        (job : JobParts) (is : Difference) → AreSame before t → job_named new.name t ≡ Some job
        → Differs new job is → HasAnother (before ++ new ∷ after) t new.name is }
    ensures room { (jobs : List NewJob) (t : List JobParts) → HasNoRoom jobs t
        ↔ (32 < length t + length (missing t jobs)) }
{}

/// Lines are the lines of jobs where each submits one or is blank, no two have one name, and they are no
/// more than a table has.
///
/// A server without jobs accepts each of them, and so does a batch, which has room for all. The server
/// may make rounds of them in any runs. Once none of its jobs runs, and each has made fewer rounds than
/// it may, what it answers to their fetches is the text that a batch writes.
pub fn batch_lines_are_taken()
    ensures jobs { (text : List ℕ) (jobs : List NewJob) (asked : List (Option Command))
        → AreAsked (lines text) asked → filter_map (λ c. c) asked ≡ map submit_of jobs
        → IsDistinct bytes_eq (names jobs) → length jobs ≤ MAX_JOBS → AreJobsOf text jobs }
    ensures accepted { (text : List ℕ) (jobs : List NewJob) → AreJobsOf text jobs
        → IsServed [] (lines text) (flat_map accepted jobs) (map begun_by jobs) }
    ensures room { (text : List ℕ) (jobs : List NewJob) → AreJobsOf text jobs
        → ¬ HasNoRoom jobs [] }
    ensures answers { (most : ℕ) (text : List ℕ) (jobs : List NewJob) (runs : List ℕ)
        → AreJobsOf text jobs → AllByRecursion
        (λ j. (is_running j.state ≡ false) × (j.rounds < most)) (run_together jobs runs)
        → IsTextOf most jobs (out (run_together jobs runs) (map fetches jobs)) }
{
    ic_lines::laws::scripts_hold_the_commands_of_their_lines();
}

/// A batch that ends has brought its jobs to their ends, all is kept, and just the answers to fetches
/// of them are written. Where the jobs that were there were on their way, these answers are the text of
/// the jobs. However it ends, all are on their way after it, and in each table that a crash leaves. The
/// table is under way from the one before, as is the one that was kept last and each that a crash
/// leaves, but for the one that was kept before.
pub fn a_batch_brings_its_jobs_to_their_ends<D: Disk>(old: &Book<D>, new: &Book<D>)
    ensures ended { (done : Unit {0}) (most : ℕ) (jobs : List NewJob) (before after : Option (List ℕ))
        → Brings (Ok done) most jobs old.now new.now before after
        → HaveEnded most jobs (table_of old.now) (table_of new.now) × IsAllKept new.now
        × Appends before after (fetched_all jobs (table_of new.now)) }
    ensures text { (done : Unit {0}) (most : ℕ) (jobs : List NewJob)
        → IsBatch (Ok done) most jobs old.now new.now
        → IsTextOf most jobs (fetched_all jobs (table_of new.now)) }
    ensures on_way { (result : Result (Unit {0}) BatchFault) (most : ℕ) (jobs : List NewJob)
        → IsBatch result most jobs old.now new.now → AreOnWay most jobs (table_of new.now)
        × AreOnWay most jobs (last_kept new.now) × Leaves old.now new.now (AreOnWay most jobs) }
    ensures meanwhile { (result : Result (Unit {0}) BatchFault) (most : ℕ) (jobs : List NewJob)
        (before after : Option (List ℕ)) → Brings result most jobs old.now new.now before after
        → IsUnderWay most jobs (table_of old.now) (table_of new.now)
        × ((last_kept new.now ≡ last_kept old.now)
        ⊎ IsUnderWay most jobs (table_of old.now) (last_kept new.now))
        × Leaves old.now new.now (λ u. (u ≡ last_kept old.now)
        ⊎ IsUnderWay most jobs (table_of old.now) u) }
{
    let _ = old;
    let _ = new;
}

/// A failing writer takes nothing back: the jobs have come to their ends, all is kept, and a front of
/// the answers is written. At any other fault nothing is written.
pub fn a_failing_writer_ends_a_batch<D: Disk>(old: &Book<D>, new: &Book<D>)
    ensures done { (most : ℕ) (jobs : List NewJob) (before after : Option (List ℕ))
        → Brings {T = Unit {0}} (Err (Serve Write)) most jobs old.now new.now before after
        → HaveEnded most jobs (table_of old.now) (table_of new.now) × IsAllKept new.now
        × AppendsFront before after [] (fetched_all jobs (table_of new.now)) }
    ensures text { (most : ℕ) (jobs : List NewJob)
        → IsBatch {T = Unit {0}} (Err (Serve Write)) most jobs old.now new.now
        → IsTextOf most jobs (fetched_all jobs (table_of new.now)) }
    ensures silent { (most : ℕ) (jobs : List NewJob) (before after : Option (List ℕ))
        (fault : BatchFault) → fault ≢ Serve Write
        → Brings {T = Unit {0}} (Err fault) most jobs old.now new.now before after
        → Keeps before after }
{
    let _ = old;
    let _ = new;
}

/// Of a way its rounds are counted, and its halt: n of them after n events, if the job went on before
/// each of these. Of jobs these numbers are added up, in pairs.
///
/// The page, whose entries weigh 65,536 in all, has to have room for all submits, of 512 each, for all
/// rounds and halts of the batch, and for one entry more. Then the batch calls the disk at most six times
/// for all submits, six for each `every` rounds and halts, and six at its end.
pub fn a_batch_calls_the_disk_so<D: Disk>(old: &Book<D>, new: &Book<D>)
    ensures way { (most n : ℕ) (from : JobParts)
        → ((m : ℕ) → m < n → goes_on most (after most m from) ≡ true)
        → events_of from (after most n from) ≡ n }
    ensures each { (from j : JobParts) (before t : List JobParts)
        → events_in (from ∷ before) (j ∷ t) ≡ events_of from j + events_in before t }
    ensures none { (t : List JobParts) → events_in [] t ≡ 0 }
    ensures short { (from : List JobParts) → events_in from [] ≡ 0 }
    ensures calls { (jobs : List NewJob) (every submits events : ℕ)
        → CallsFew jobs every old.now new.now
        → length (table_of new.now) ≡ length (table_of old.now) + submits
        → events_in (all_of jobs (table_of old.now)) (table_of new.now) ≡ events
        → weight_of (log_of old.now) + (512 * submits + events) < 65536
        → D.clock (disk_of new.now) ≤ D.clock (disk_of old.now)
        + 6 * (min submits 1 + events / every + 1) }
{
    let _ = old;
    let _ = new;
}

/// What a batch is refused for, and what its faults leave. Nothing is done where another job has a name
/// of one of its jobs, those before it being the same, or where there is no room for its jobs; no other
/// fault comes then. Of lines the first command is told that a table of the jobs before it refuses.
///
/// A batch never fails by reading, by a line, or by a full history. Any fault but its writer's is one
/// that comes while a server answers a line. By the pool it fails only where it leaves a job that runs
/// and has made fewer rounds than it may. Where no such job can make its next round, it fails so only
/// since memory ran out.
///
/// Over a broken book it never ends well: where it has begun it tells that the book is broken, or that
/// memory ran out. At a failure of the disk the book is broken then, and one more failure is counted.
/// Any other fault breaks no book. Where it is told, or none is, no failure is counted.
pub fn a_batch_fails_so<D: Disk>(old: &Book<D>, new: &Book<D>)
    ensures nothing { (most : ℕ) (jobs : List NewJob) (name : List ℕ) (is : Difference)
        → Says most jobs old.now new.now (Taken name is)
        → HasAnother jobs (table_of old.now) name is × IsUnchanged old.now new.now }
    ensures full { (most : ℕ) (jobs : List NewJob) → Says most jobs old.now new.now Full
        → AreSame jobs (table_of old.now) × HasNoRoom jobs (table_of old.now)
        × IsUnchanged old.now new.now }
    ensures fails { (most : ℕ) (jobs : List NewJob) (fault : ServeFault)
        → Says most jobs old.now new.now (Serve fault) → AreSame jobs (table_of old.now)
        × ¬ HasNoRoom jobs (table_of old.now) × Fails most fault old.now new.now }
    ensures taken { (jobs : List NewJob) (t : List JobParts) (name : List ℕ) (is : Difference)
        → HasAnother jobs t name is
        → (before : List NewJob) × (new : NewJob) × (after : List NewJob) × (job : JobParts)
        × (jobs ≡ before ++ new ∷ after) × AreSame before t × (new.name ≡ name)
        × (job_named name t ≡ Some job) × Differs new job is }
    ensures line { (text : List ℕ) (number : ℕ) (is : JobsCause) → StopsAt text number is
        → (jobs : List NewJob) × (command : Command) × (after : List Command)
        × ReadsScript text (Ok (map submit_of jobs ++ command ∷ after))
        × IsDistinct bytes_eq (names jobs) × (length jobs ≤ MAX_JOBS) × IsRefused jobs command is
        × IsLineAfter text (length jobs) number }
    ensures number { (text : List ℕ) (many one other : ℕ) → IsLineAfter text many one
        → IsLineAfter text many other → one ≡ other }
    ensures never { (most : ℕ) → ¬ Fails most Read old.now new.now
        × ¬ Fails most LongLine old.now new.now × ¬ Fails most TooManyLines old.now new.now
        × ¬ Fails most (by_book of_book.LogFull) old.now new.now }
    ensures in_line { (most : ℕ) (fault : ServeFault) → Fails most fault old.now new.now
        → (fault ≡ Write) ⊎ ComesInLine fault }
    ensures pool { (most : ℕ) (fault : PoolFault) → Fails most (Pool fault) old.now new.now
        → (place : ℕ) × (job : JobParts) × (slice_get (table_of new.now) place ≡ Some job)
        × (is_running job.state ≡ true) × (job.rounds < most) }
    ensures rounds { (most : ℕ) (fault : PoolFault) → Fails most (Pool fault) old.now new.now
        → fault ≢ of_pool.Memory
        → (place : ℕ) × (job : JobParts) × (slice_get (table_of new.now) place ≡ Some job)
        × (is_running job.state ≡ true) × (job.rounds < most) × (can_move job ≡ true) }
    ensures broken { (most : ℕ) (fault : ServeFault) → Fails most fault old.now new.now
        → is_broken old.now ≡ true → (fault ≡ by_book of_book.Broken) ⊎ (fault ≡ NoMemory) }
    ensures device { (most : ℕ) → Fails most (by_book of_book.Device) old.now new.now
        → is_broken old.now ≡ false → (is_broken new.now ≡ true)
        × OneMore (D.failures (disk_of old.now)) (D.failures (disk_of new.now)) }
    ensures worn { (most : ℕ) → Fails most (by_book of_book.Worn) old.now new.now
        → is_broken old.now ≡ false
        → (is_broken new.now ≡ false) × (number_of new.now ≡ 2 ^ 64 - 1) }
    ensures others { (most : ℕ) (fault : ServeFault) → fault ≢ by_book of_book.Device
        → Fails most fault old.now new.now
        → (D.failures (disk_of new.now) ≡ D.failures (disk_of old.now))
        × (is_broken old.now ≡ false → is_broken new.now ≡ false) }
    ensures none { (jobs : List NewJob) → Succeeds jobs old.now new.now
        → AreSame jobs (table_of old.now)
        × (D.failures (disk_of new.now) ≡ D.failures (disk_of old.now))
        × (is_broken old.now ≡ false) × (is_broken new.now ≡ false) }
{
    let _ = old;
    let _ = new;
}

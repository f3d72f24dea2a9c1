//! Laws of the definitions that the contracts of this crate cite.

ghost use Rattle.std.specs.Prelude.{◌≡◌, ◌≢◌, ◌↔◌, ◌≤◌, ℕ, List, [], ◌∷◌, ◌++◌, None, Option, Some, Result, IsTrue, false, length, take, slice_get};
ghost use Rattle.std.specs.List.{AllByRecursion};
ghost use Rattle.ic_term.specs.Configuration.{Configuration};
ghost use Rattle.ic_rules.specs.RuleSet.{Rules};
ghost use Rattle.ic_rules.specs.System.{SystemParts};
ghost use Rattle.ic_pool.specs.PoolFault.{is_of_flight};
ghost use Rattle.ic_pool.specs.declared.fault.PoolFault.{PoolFault};
ghost use Rattle.ic_pool.specs.declared.fault.PoolFault.TheVariants.{NoWorkers};
ghost use Rattle.ic_jobs.specs.declared.command.Command.{Command};
ghost use Rattle.ic_jobs.specs.declared.command.Command.TheVariants.{Fetch, Submit};
ghost use Rattle.ic_jobs.specs.declared.event.Entry.{Entry};
ghost use Rattle.ic_jobs.specs.declared.event.Event.TheVariants.{Command as by_command};
ghost use Rattle.ic_jobs.specs.declared.landed.Landed.{Landed};
ghost use Rattle.ic_jobs.specs.declared.reply.Reply.{Reply};
ghost use Rattle.ic_jobs.specs.declared.reply.Reply.TheVariants.{Accepted};
ghost use Rattle.ic_jobs.specs.Events.{IsAnswered};
ghost use Rattle.ic_jobs.specs.History.{replay, IsLegal};
ghost use Rattle.ic_jobs.specs.Job.{JobParts, begun};
ghost use Rattle.ic_jobs.specs.Names.{mentions};
ghost use Rattle.ic_jobs.specs.Table.{job_named};
ghost use Rattle.ic_jobs.specs.Transitions.{fetch_reply};
ghost use Rattle.ic_book.specs.declared.fault.BookFault.{BookFault};
ghost use Rattle.ic_book.specs.declared.fault.BookFault.TheVariants.{Worn, Device};
ghost use Rattle.ic_book.specs.Book.{start_of, log_of, table_of};
ghost use Rattle.ic_book.specs.Entries.{command_entry, round_entry};
ghost use Rattle.ic_book.specs.Lives.{IsPage};
ghost use Rattle.ic_attend.specs.declared.attended.ClientRun.{ClientRun as Run};
ghost use Rattle.ic_attend.specs.declared.attended.RunnerEnd.{RunnerEnd};
ghost use Rattle.ic_attend.specs.declared.attended.RunnerEnd.TheVariants.{Turns as used_up, Book as by_book, Pool as by_pool};
ghost use Rattle.ic_attend.specs.Desk.{AddsOneAtMost, IsCommanded, IsLanded};
ghost use Rattle.ic_attend.specs.Ends.{EndMayBe, EndTells};
ghost use Rattle.ic_attend.specs.OneHistory.{IsOneHistory, kept_log};
ghost use Rattle.ic_attend.specs.Parts.{answer_to, commands_in, part};

use crate::attended::Attended;
use crate::desk::Desk;
use ic_disk::Disk;

/// A client's part of a history grows by its own commands alone, each with its reply, in the order of
/// the history. Rounds and the commands of others leave it as it is.
pub fn a_part_is_a_clients_own()
    ensures empty { (who : ℕ) → part who [] ≡ [] }
    ensures own { (who : ℕ) (h : List Entry) (c : Command) (r : Reply)
        → part who (h ++ command_entry who c r ∷ []) ≡ part who h ++ (c, r) ∷ [] }
    ensures others { (who other : ℕ) (h : List Entry) (c : Command) (r : Reply) → other ≢ who
        → part who (h ++ command_entry other c r ∷ []) ≡ part who h }
    ensures rounds { (who : ℕ) (h : List Entry) (name : List ℕ) (r : Reply)
        → part who (h ++ round_entry name r ∷ []) ≡ part who h }
    ensures joined { (who : ℕ) (h k : List Entry) → part who (h ++ k) ≡ part who h ++ part who k }
{}

/// Each answer of a client is at one place of the history: the client's earlier answers are before
/// it, and the later ones after it.
pub fn each_answer_has_its_place()
    ensures { (who : ℕ) (h : List Entry) (before after : List (Command × Reply)) (c : Command)
        (r : Reply) → part who h ≡ before ++ (c, r) ∷ after
        → (front : List Entry) × (back : List Entry)
        × (h ≡ front ++ command_entry who c r ∷ back)
        × (part who front ≡ before) × (part who back ≡ after) }
{}

/// What answers one client answers no other.
pub fn two_clients_never_mix()
    ensures { (who other : ℕ) (e : Entry) (a : Command × Reply) → answer_to who e ≡ Some a
        → other ≢ who → answer_to other e ≡ None }
{}

/// Each entry of a legal history is answered over the table that all entries before it leave, those
/// of its own client among them. So a fetch shows the job as they left it.
pub fn a_client_reads_what_came_before()
    ensures answered { (start : List JobParts) (front back : List Entry) (e : Entry)
        → IsLegal start (front ++ e ∷ back) → IsAnswered (replay start front) e.event e.reply }
    ensures fetched { (start : List JobParts) (front back : List Entry) (who : ℕ)
        (name : List ℕ) (r : Reply)
        → IsLegal start (front ++ command_entry who (Fetch name) r ∷ back)
        → r ≡ fetch_reply (job_named name (replay start front)) }
{
    ic_jobs::laws::histories_split_and_join();
    ic_jobs::laws::one_entry_is_legal_where_it_is_answered();
}

/// A legal history that a stop cuts after what was kept is a page of a server's lives. What the
/// stop leaves of it begins, for each client, with all that the client was answered.
pub fn a_stop_leaves_each_answer()
    ensures page { (start : List JobParts) (log : List Entry) (kept stop : ℕ)
        → IsLegal start log → kept ≤ stop → stop ≤ length log
        → IsPage (record { start = start; log = log; kept = kept; stop = stop }) }
    ensures answers { (who : ℕ) (log : List Entry) (kept stop : ℕ) → kept ≤ stop
        → (rest : List (Command × Reply))
        × (part who (take stop log) ≡ part who (take kept log) ++ rest) }
{}

/// A client reads back what it left: where no entry since is about the job, a fetch tells of it as
/// it was then. So a fetch shows the job that was submitted, if nothing has come to it since.
pub fn a_client_reads_back_its_own()
    ensures left { (start : List JobParts) (front mid back : List Entry) (who : ℕ)
        (name : List ℕ) (r : Reply)
        → IsLegal start (front ++ mid ++ command_entry who (Fetch name) r ∷ back)
        → AllByRecursion (λ e. mentions name e.event ≡ false) mid
        → r ≡ fetch_reply (job_named name (replay start front)) }
    ensures submitted { (start : List JobParts) (front : List Entry) (who : ℕ)
        (name : List ℕ) (system : SystemParts) (budget : Option ℕ)
        → IsLegal start (front ++ command_entry who (Submit name system budget) Accepted ∷ [])
        → job_named name (replay start
        (front ++ command_entry who (Submit name system budget) Accepted ∷ []))
        ≡ Some (begun name system budget) }
{
    a_client_reads_what_came_before();
    ic_jobs::laws::histories_split_and_join();
    ic_jobs::laws::one_entry_is_legal_where_it_is_answered();
    ic_jobs::laws::other_jobs_stay();
}

/// In one history each answer of a client is what the table says at its place: after all entries
/// before it, the client's own earlier ones among them.
pub fn each_answer_is_the_tables<D: Disk>(attended: &Attended<D>)
    ensures { (scripts : List (List Command)) (runners turns who : ℕ) (run : Run)
        (before after : List (Command × Reply)) (c : Command) (r : Reply)
        → IsOneHistory scripts runners turns attended.now
        → slice_get attended.now.answers.items who ≡ Some run
        → run.answers.items ≡ before ++ (c, r) ∷ after
        → (front : List Entry) × (back : List Entry)
        × (log_of attended.now.book ≡ front ++ command_entry who c r ∷ back)
        × (part who front ≡ before)
        × IsAnswered (replay (start_of attended.now.book) front) (by_command c) r }
{
    let _ = attended;
    a_client_reads_what_came_before();
}

/// Each command that is kept was answered to the client that gave it, after the answers to the
/// client's earlier commands, and before those to its later ones. So nobody else was answered it.
pub fn each_kept_command_was_answered<D: Disk>(attended: &Attended<D>)
    ensures { (scripts : List (List Command)) (runners turns who : ℕ) (front back : List Entry)
        (c : Command) (r : Reply) → IsOneHistory scripts runners turns attended.now
        → kept_log attended.now ≡ front ++ command_entry who c r ∷ back
        → (run : Run) × (slice_get attended.now.answers.items who ≡ Some run)
        × (run.answers.items ≡ part who front ++ (c, r) ∷ part who back) }
{
    let _ = attended;
}

/// The commands of a client begin its script, also where the last of them wasn't answered. Those that
/// are kept are all of it exactly where the client has no end. Where it has one, the command after
/// them was refused. There is an end for each runner.
pub fn each_script_is_given_in_order<D: Disk>(attended: &Attended<D>)
    ensures given { (scripts : List (List Command)) (runners turns who : ℕ)
        (script : List Command) → IsOneHistory scripts runners turns attended.now
        → slice_get scripts who ≡ Some script → (rest : List Command)
        × (script ≡ commands_in who (log_of attended.now.book) ++ rest) }
    ensures script { (scripts : List (List Command)) (runners turns who : ℕ)
        (script : List Command) → IsOneHistory scripts runners turns attended.now
        → slice_get scripts who ≡ Some script
        → (run : Run) × (slice_get attended.now.answers.items who ≡ Some run)
        × ((rest : List Command) × (script ≡ commands_in who (kept_log attended.now) ++ rest))
        × (run.end ≡ None ↔ commands_in who (kept_log attended.now) ≡ script) }
    ensures refused { (scripts : List (List Command)) (runners turns who : ℕ)
        (script : List Command) (run : Run) (fault : BookFault)
        → IsOneHistory scripts runners turns attended.now → slice_get scripts who ≡ Some script
        → slice_get attended.now.answers.items who ≡ Some run → run.end ≡ Some fault
        → (c : Command) × (rest : List Command) × (run.refused ≡ Some c)
        × (script ≡ commands_in who (kept_log attended.now) ++ c ∷ rest) }
    ensures runners { (scripts : List (List Command)) (runners turns : ℕ)
        → IsOneHistory scripts runners turns attended.now
        → length attended.now.ends.items ≡ runners }
{
    let _ = attended;
}

/// A call at a desk adds one entry at most to the book that it found: none at a refusal, except for
/// the command at which the disk failed, and none at a round that is stale.
pub fn a_call_adds_one_entry_at_most<D: Disk>(desk: &Desk<D>)
    ensures commanded { (who : ℕ) (command : Command) (result : Result Reply BookFault)
        (call : IsCommanded D.Disk who command result)
        → AddsOneAtMost (log_of call.old) (log_of call.new) }
    ensures landed { (name : List ℕ) (rules : Rules) (config : Configuration) (rounds : ℕ)
        (reply : Reply) (result : Result Landed BookFault)
        (call : IsLanded D.Disk name rules config rounds reply result)
        → AddsOneAtMost (log_of call.old) (log_of call.new) }
{
    let _ = desk;
}

/// Only one client is told of a failing disk: the one whose command stands last, unanswered.
pub fn one_client_is_told_of_a_failure<D: Disk>(attended: &Attended<D>)
    ensures alone { (scripts : List (List Command)) (runners turns who other : ℕ) (run twin : Run)
        → IsOneHistory scripts runners turns attended.now
        → slice_get attended.now.answers.items who ≡ Some run → run.end ≡ Some Device
        → slice_get attended.now.answers.items other ≡ Some twin → twin.end ≡ Some Device
        → who ≡ other }
    ensures last { (scripts : List (List Command)) (runners turns who : ℕ) (run : Run)
        → IsOneHistory scripts runners turns attended.now
        → slice_get attended.now.answers.items who ≡ Some run → run.end ≡ Some Device
        → (front : List Entry) × (c : Command) × (r : Reply) × (run.refused ≡ Some c)
        × (log_of attended.now.book ≡ front ++ command_entry who c r ∷ []) }
{
    let _ = attended;
}

/// A runner keeps nothing, and halts a job that can't make a round. So it never ends by worn numbers,
/// a failing disk or such a job, and for want of workers only where there are none. One that used up
/// its turns took just so many rounds. A refusal that the book and the workers bear out may be its end.
pub fn runners_end_so<D: Disk>(attended: &Attended<D>)
    ensures book { (turns workers : ℕ) → ¬ EndMayBe turns workers (by_book Worn)
        × ¬ EndMayBe turns workers (by_book Device) }
    ensures flight { (turns workers : ℕ) (fault : PoolFault) → IsTrue (is_of_flight fault)
        → ¬ EndMayBe turns workers (by_pool fault) }
    ensures workers { (turns workers : ℕ)
        → EndMayBe turns workers (by_pool NoWorkers) → workers ≡ 0 }
    ensures turns { (turns workers taken : ℕ)
        → EndMayBe turns workers (used_up taken) ↔ (taken ≡ turns) }
    ensures told { (turns workers : ℕ) (end : RunnerEnd)
        → ((taken : ℕ) → end ≢ used_up taken)
        → EndTells workers attended.now.book end → EndMayBe turns workers end }
{
    let _ = attended;
}

/// A history leaves the table that its entries leave one by one. Where a further attendance goes on
/// from this table, the two are one legal history, which leaves the table of the second.
pub fn histories_join<D: Disk>(first: &Attended<D>, second: &Attended<D>)
    ensures table { (scripts : List (List Command)) (runners turns : ℕ)
        → IsOneHistory scripts runners turns first.now
        → replay (start_of first.now.book) (log_of first.now.book) ≡ table_of first.now.book }
    ensures joined { (scripts others : List (List Command)) (r s t u : ℕ)
        → IsOneHistory scripts r t first.now → IsOneHistory others s u second.now
        → start_of second.now.book ≡ table_of first.now.book
        → IsLegal (start_of first.now.book) (log_of first.now.book ++ log_of second.now.book)
        × (replay (start_of first.now.book) (log_of first.now.book ++ log_of second.now.book)
        ≡ table_of second.now.book) }
{
    let _ = first;
    let _ = second;
    ic_jobs::laws::histories_split_and_join();
}

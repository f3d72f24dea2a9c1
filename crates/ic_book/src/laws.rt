//! Laws of the definitions that the contracts of this crate cite.

ghost use Rattle.std.specs.Prelude.{◌≡◌, ◌⊎◌, ◌↔◌, ◌+◌, ◌-◌, ◌^◌, ◌≤◌, ℕ, List, [], ◌∷◌, ◌++◌, Bool, true, Option, Some, Result, Err, IsErrOf, Contains, length, map};
ghost use Rattle.ic_rules.specs.System.{SystemParts};
ghost use Rattle.ic_jobs.specs.declared.command.Command.{Command};
ghost use Rattle.ic_jobs.specs.declared.command.Command.TheVariants.{Submit, CopyJob, Pause, Resume, Cancel, Fetch, List as list_jobs};
ghost use Rattle.ic_jobs.specs.declared.event.Entry.{Entry};
ghost use Rattle.ic_jobs.specs.declared.event.Event.TheVariants.{Command as by_command, Round};
ghost use Rattle.ic_jobs.specs.declared.reply.Refusal.{Refusal};
ghost use Rattle.ic_jobs.specs.declared.reply.Reply.{Reply};
ghost use Rattle.ic_jobs.specs.declared.reply.Reply.TheVariants.{Shown, Listed, Refused};
ghost use Rattle.ic_jobs.specs.declared.state.State.{State};
ghost use Rattle.ic_jobs.specs.Events.{apply, outcome};
ghost use Rattle.ic_jobs.specs.Shown.{ShownParts};
ghost use Rattle.ic_jobs.specs.Job.{JobParts};
ghost use Rattle.ic_jobs.specs.History.{replay, IsLegal};
ghost use Rattle.ic_book.specs.declared.limits.TheConstants.{MAX_ENTRIES};
ghost use Rattle.ic_book.specs.declared.fault.BookFault.{BookFault};
ghost use Rattle.ic_book.specs.declared.fault.BookFault.TheVariants.{Device};
ghost use Rattle.ic_book.specs.Entries.{AddsCommand, AddsRound, AreRounds, IsRoundEntry, RoundHasSenderZero, leaves_table};
ghost use Rattle.ic_book.specs.Kept.{IsHistory};
ghost use Rattle.ic_book.specs.Weight.{weight, weight_of};
ghost use Rattle.ic_book.specs.Refusals.{CountsBook, all_book_faults, fault_number};
ghost use Rattle.ic_book.specs.Book.{start_of, log_of, table_of, kept_of, keeper_of, disk_of, IsUnchanged};

use crate::Book;
use ic_disk::Disk;

/// The limit of a history.
pub fn limits_are()
    ensures { MAX_ENTRIES ≡ 65536 }
{}

/// What the entries of a log weigh: a submit and a fetch 512, a list 2, any other command and a round 1,
/// added up. So there are no more entries than they weigh.
pub fn entries_weigh_so()
    ensures submit { (name : List ℕ) (system : SystemParts) (budget : Option ℕ)
        → weight (by_command (Submit name system budget)) ≡ 512 }
    ensures fetch { (name : List ℕ) → weight (by_command (Fetch name)) ≡ 512 }
    ensures list { weight (by_command list_jobs) ≡ 2 }
    ensures copy { (old new : List ℕ) → weight (by_command (CopyJob old new)) ≡ 1 }
    ensures pause { (name : List ℕ) → weight (by_command (Pause name)) ≡ 1 }
    ensures resume { (name : List ℕ) → weight (by_command (Resume name)) ≡ 1 }
    ensures cancel { (name : List ℕ) → weight (by_command (Cancel name)) ≡ 1 }
    ensures round { (name : List ℕ) → weight (Round name) ≡ 1 }
    ensures none { weight_of [] ≡ 0 }
    ensures one_more { (h : List Entry) (e : Entry)
        → weight_of (h ++ e ∷ []) ≡ weight_of h + weight e.event }
    ensures short { (h : List Entry) → length h ≤ weight_of h }
{}

/// Where a book tells that its disk has failed, one more failure is counted, up to the end of the
/// count. Otherwise none is.
pub fn a_failure_is_counted()
    ensures failed { (old new : ℕ) → CountsBook {T = Unit {0}} (Err Device) old new
        → (new ≡ old + 1) ⊎ ((old ≡ 2 ^ 64 - 1) × (new ≡ old)) }
    ensures others { (result : Result (Unit {0}) BookFault) (old new : ℕ)
        → CountsBook result old new → ¬ IsErrOf result Device → new ≡ old }
{}

/// The lasting numbers of the faults.
pub fn numbers_are_lasting()
    ensures all { (fault : BookFault) → Contains all_book_faults fault }
    ensures numbers { map fault_number all_book_faults ≡ 1 ∷ 2 ∷ 3 ∷ 4 ∷ 5 ∷ [] }
{}

/// A reply that shows or lists jobs, or refuses, leaves the table, and no other does so by itself.
pub fn some_replies_leave_the_table()
    ensures stays { (t new : List JobParts) (c : Command) (r : Reply)
        → apply t (by_command c) ≡ Some (outcome new r) → leaves_table r ≡ true → new ≡ t }
    ensures which { (r : Reply) → (leaves_table r ≡ true)
        ↔ (((job : ShownParts) × (r ≡ Shown job))
        ⊎ (((jobs : List (List ℕ × State × ℕ)) × (r ≡ Listed jobs))
        ⊎ ((refusal : Refusal) × (r ≡ Refused refusal)))) }
{}

/// A command or a round adds one entry to a history: that of a command has who sent it and its
/// reply, that of a round was sent by nobody. The history is legal with it, and leaves the new table.
pub fn an_entry_is_added()
    ensures command { (start t : List JobParts) (h k : List Entry) (who : ℕ) (c : Command)
        (r : Reply) → IsLegal start h → AddsCommand who c r h k (replay start h) t
        ↔ ((k ≡ h ++ record { who = who; event = by_command c; reply = r } ∷ [])
        × IsLegal start k × (replay start k ≡ t)) }
    ensures round { (start t : List JobParts) (h k : List Entry) (name : List ℕ) (r : Reply)
        → IsLegal start h → AddsRound name r h k (replay start h) t
        ↔ ((k ≡ h ++ record { who = 0; event = Round name; reply = r } ∷ [])
        × IsLegal start k × (replay start k ≡ t)) }
{}

/// Each entry of a book that is of a round was sent by nobody, and answered by what became of its
/// job.
pub fn rounds_stand_so()
    ensures { (start : List JobParts) (log : List Entry) (table : List JobParts)
        (kept : ℕ) (broken : Bool) (front back : List Entry) (e : Entry) (name : List ℕ)
        → IsHistory start log table kept broken → log ≡ front ++ e ∷ back
        → e.event ≡ Round name → IsRoundEntry e }
{}

/// What the words on entries of rounds come to: each is of a round, and was sent by nobody.
pub fn rounds_are_told_so()
    ensures rounds { (es : List Entry) → AreRounds es
        ↔ ((front back : List Entry) (e : Entry) → es ≡ front ++ e ∷ back
        → (name : List ℕ) × (e.event ≡ Round name)) }
    ensures nobody { (e : Entry) → RoundHasSenderZero e
        ↔ ((name : List ℕ) → e.event ≡ Round name → e.who ≡ 0) }
{}

/// A book in which nothing has changed is the same in each of its parts, its keeper and so its disk
/// with them.
pub fn unchanged_is_all<D: Disk>(old: &Book<D>, new: &Book<D>)
    ensures parts { IsUnchanged old.now new.now
        ↔ ((start_of new.now ≡ start_of old.now) × (log_of new.now ≡ log_of old.now)
        × (table_of new.now ≡ table_of old.now) × (kept_of new.now ≡ kept_of old.now)
        × (keeper_of new.now ≡ keeper_of old.now)) }
    ensures disk { IsUnchanged old.now new.now → disk_of new.now ≡ disk_of old.now }
{
    let _ = old;
    let _ = new;
}

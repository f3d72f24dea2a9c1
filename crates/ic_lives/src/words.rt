//! What the words of the laws come to: standing among others, what has come and was answered,
//! iterates.

ghost use Rattle.std.specs.Prelude.{◌≡◌, ◌↔◌, ◌≤◌, [], ◌∷◌, ◌++◌, ℕ, List, None, Some, length, take};
ghost use Rattle.ic_round.specs.Rounds.{iterate};
ghost use Rattle.ic_jobs.specs.declared.command.Command.{Command};
ghost use Rattle.ic_jobs.specs.declared.event.Entry.{Entry};
ghost use Rattle.ic_jobs.specs.declared.event.Event.TheVariants.{Command as by_command};
ghost use Rattle.ic_jobs.specs.declared.reply.Reply.{Reply};
ghost use Rattle.ic_jobs.specs.Events.{IsAnswered};
ghost use Rattle.ic_jobs.specs.History.{IsLegal, replay};
ghost use Rattle.ic_jobs.specs.Job.{JobParts};
ghost use Rattle.ic_jobs.specs.Life.{Life, life};
ghost use Rattle.ic_jobs.specs.Table.{job_named};
ghost use Rattle.ic_slots.specs.Held.{HoldsTable};
ghost use Rattle.ic_book.specs.Book.{table_of};
ghost use Rattle.ic_book.specs.Entries.{command_entry};
ghost use Rattle.ic_book.specs.Moves.{Move, opens, answers, takes, keeps, brings};
ghost use Rattle.ic_book.specs.Server.{Runs, Server, down, up};
ghost use Rattle.ic_lives.specs.Headline.{AreIterates};
ghost use Rattle.ic_lives.specs.Looks.{AreTold, Tells};
ghost use Rattle.ic_lives.specs.Histories.{IsHistoryOf, StandAmong, answered, come, taken};
ghost use Rattle.ic_lives.specs.Past.{IsPast, Next, Past};

use ic_book::Book;
use ic_disk::Disk;

/// An entry that stands among others is one of them. Those before it stand before that one, and those
/// after it stand after that one.
pub fn each_stands_in_order()
    ensures { (front back others : List Entry) (entry : Entry)
        → StandAmong (front ++ entry ∷ back) others
        → (before after : List Entry) × (others ≡ before ++ entry ∷ after)
        × StandAmong front before × StandAmong back after }
{}

/// An entry of a history of moves was brought by one of them. What stands before it has come by earlier
/// moves, and what follows it by later ones.
pub fn each_entry_was_brought()
    ensures { (moves : List Move) (front back : List Entry) (entry : Entry)
        → IsHistoryOf moves (front ++ entry ∷ back)
        → (later earlier : List Move) × (move : Move) × (moves ≡ later ++ move ∷ earlier)
        × (brings move ≡ entry ∷ []) × StandAmong front (come earlier)
        × StandAmong back (come later) }
{}

/// What moves have answered has each command that one of them answers. In front of it is what the
/// earlier ones have answered and taken, and after it what the later ones have answered.
pub fn each_answer_is_told()
    ensures { (later earlier : List Move) (who : ℕ) (command : Command) (reply : Reply)
        → answered (later ++ answers who command reply ∷ earlier)
        ≡ (answered earlier ++ taken earlier) ++ command_entry who command reply ∷ answered later }
{}

/// A command that is taken isn't answered yet. A keep answers all that was taken, and an opening finds
/// what of it was kept, so none is left then. What moves and those after them have answered stands
/// among what all of them have.
pub fn what_is_taken_is_answered()
    ensures takes { (moves : List Move) (who : ℕ) (command : Command) (reply : Reply)
        → (answered (takes who command reply ∷ moves) ≡ answered moves)
        × (taken (takes who command reply ∷ moves)
        ≡ taken moves ++ command_entry who command reply ∷ []) }
    ensures keeps { (moves : List Move) → (answered (keeps ∷ moves) ≡ answered moves ++ taken moves)
        × (taken (keeps ∷ moves) ≡ []) }
    ensures opens { (moves : List Move) → (answered (opens ∷ moves) ≡ answered moves)
        × (taken (opens ∷ moves) ≡ []) }
    ensures later { (later earlier : List Move)
        → StandAmong (answered earlier ++ answered later) (answered (later ++ earlier)) }
{}

/// A job of such a table lives by the history. Its configuration is the iterate of the round on the
/// one with which its life began, as many times as the history counts.
pub fn each_job_is_an_iterate()
    ensures { (history : List Entry) (table : List JobParts) (name : List ℕ) (job : JobParts)
        → AreIterates history table → job_named name table ≡ Some job
        → (lived : Life) × (life name history ≡ Some lived) × (job.rounds ≡ lived.rounds)
        × (job.config ≡ iterate lived.rules.rules lived.rounds lived.first) }
{}

/// Exactly the names that live by the history have a job in such a table.
pub fn exactly_the_living_have_a_job()
    ensures { (history : List Entry) (table : List JobParts) (name : List ℕ)
        → AreIterates history table
        → (job_named name table ≡ None) ↔ (life name history ≡ None) }
{}

/// Each answered command stands in a history of moves, after what earlier moves have answered and
/// taken and before what later ones have answered. Its reply is the one over the table that all entries before it leave.
pub fn each_answered_command_stands()
    ensures { (later earlier : List Move) (who : ℕ) (command : Command) (reply : Reply)
        (history : List Entry)
        → IsHistoryOf (later ++ answers who command reply ∷ earlier) history
        → (before after : List Entry)
        × (history ≡ before ++ command_entry who command reply ∷ after)
        × StandAmong (answered earlier ++ taken earlier) before × StandAmong (answered later) after
        × IsAnswered (replay [] before) (by_command command) reply }
{
    ic_jobs::laws::histories_split_and_join();
    ic_jobs::laws::one_entry_is_legal_where_it_is_answered();
}

/// What a past tells: the table of an open book is that of its entries, and so are the jobs; a file
/// has the table after so many of them, and no fewer than last. A run is told by a past of its moves,
/// and up to each move by the past before it.
pub fn what_is_told<D: Disk>(book: &Book<D>, found: &D)
    ensures table { (past : Past) → Tells {ghosts = D.Disk} past (up book.now)
        → IsLegal [] past.entries × (past.lasting ≤ length past.entries)
        × (table_of book.now ≡ replay [] past.entries)
        × AreIterates past.entries (table_of book.now) }
    ensures file { (past : Past) (file : List ℕ) → Tells {ghosts = D.Disk} past (down found.now)
        → D.image found.now file → IsLegal [] past.entries
        × ((n : ℕ) × (past.lasting ≤ n) × (n ≤ length past.entries)
        × HoldsTable (replay [] (take n past.entries)) file) }
    ensures run { (moves : List Move) (first last : Server D.Disk) (run : Runs moves first last)
        (past : Past) → AreTold moves first last run past → IsPast moves past × Tells past last }
    ensures earlier { (move : Move) (moves : List Move) (first last : Server D.Disk)
        (run : Runs (move ∷ moves) first last) (past : Past)
        → AreTold (move ∷ moves) first last run past
        → (before : Past) × AreTold moves first run.0 run.1 before × Next move before past }
{
    let _ = book;
    let _ = found;
}

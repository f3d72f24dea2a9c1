//! What a server has after lines were served over its book.

ghost use Rattle.std.specs.Prelude.{◌≡◌, ◌≢◌, ◌⊎◌, ◌≤◌, Err, [], ◌∷◌, ◌++◌, ℕ, List, Ok, Option, Result, length, true, IsTrue, OnOk};
ghost use Rattle.ic_disk.specs.Images.{Within};
ghost use Rattle.ic_jobs.specs.declared.command.Command.{Command};
ghost use Rattle.ic_jobs.specs.declared.event.Entry.{Entry};
ghost use Rattle.ic_jobs.specs.declared.reply.Reply.{Reply};
ghost use Rattle.ic_jobs.specs.Job.{JobParts};
ghost use Rattle.ic_jobs.specs.History.{replay};
ghost use Rattle.ic_frames.specs.declared.faults.OpenCause.{OpenCause};
ghost use Rattle.ic_frames.specs.declared.faults.OpenCause.TheVariants.{Device, Memory};
ghost use Rattle.ic_slots.specs.Held.{HoldsTable};
ghost use Rattle.ic_commands.specs.ReplyText.{reply_text};
ghost use Rattle.ic_commands.specs.declared.line.Line.TheVariants.{Command as Asks, Run};
ghost use Rattle.ic_lines.specs.Lines.{ended};
ghost use Rattle.ic_book.specs.Book.{disk_of, is_broken, kept_of, log_of, table_of};
ghost use Rattle.ic_book.specs.Entries.{command_entry};
ghost use Rattle.ic_book.specs.Moves.{Move, answers, fails, keeps, opens, refuses};
ghost use Rattle.ic_book.specs.Server.{IsFound, Opens, Reaches, Refuses, Server, down, up};
ghost use Rattle.ic_serving.specs.declared.fault.ServeFault.{ServeFault};
ghost use Rattle.ic_serving.specs.Booked.{IsAllKept, last_kept};
ghost use Rattle.ic_book.specs.ByCalls.{IsByCalls};
ghost use Rattle.ic_serving.specs.declared.fault.ServeFault.TheVariants.{Write};
ghost use Rattle.ic_lines.specs.Serving.{IsServed};
ghost use Rattle.ic_serving.specs.Parts.{IsInFew};
ghost use Rattle.ic_serving.specs.Answered.{IsDoneFor, IsGroupAnswered, by_group};
ghost use Rattle.ic_serving.specs.InTurn.{AreAnsweredInTurn, calls_for, moves_at_once, moves_in_turn, replies_at_once, reply_for};
ghost use Rattle.ic_serving.specs.Served.{AreAnswered};
ghost use Rattle.ic_serving.specs.Serving.{IsServing};
ghost use Rattle.ic_serving.specs.Stopped.{MayStand};
ghost use Rattle.ic_lives.specs.Headline.{IsTableAfter};
ghost use Rattle.ic_lives.specs.Histories.{IsHistoryOf, StandAmong, answered, taken};
ghost use Rattle.ic_serving_laws.specs.Served.{BookOver, IsCutShort};
ghost use Rattle.ic_serving_laws.specs.Servings.{AreMovesOf, ArePartsOf, Part, Serving, answered_by};

use ic_book::Book;
use ic_disk::Disk;

/// The headline of a server that serves lines. `serve_lines` and `answer_line` are made of calls of
/// the book alone, as their clauses say (`crash.done`), whatever they answer. So the moves that they
/// made go on from those before; and where they are stopped at any moment, the stop came in the midst
/// of one of them.
pub fn the_served_headline<D: Disk>(old: &Book<D>, new: &Book<D>, found: &D)
    // After a serving the open book is reached, and has the table after a past of all moves.
    ensures ended { (moves : List Move) (done : IsByCalls old.now new.now)
        → Reaches moves (up old.now)
        → Reaches (done.moves ++ moves) (up new.now)
        × IsTableAfter (done.moves ++ moves) (table_of new.now) }

    // A disk that is found after a stop in its midst is reached by the moves that were cut short. So
    // all that is said of runs is said of it, and of what comes after it.
    ensures stopped { (moves : List Move) (done : IsByCalls old.now new.now)
        → Reaches moves (up old.now)
        → IsFound D.Disk (disk_of old.now) (disk_of new.now) found.now
        → (cut : List Move) × IsCutShort done.moves cut
        × Reaches {ghosts = D.Disk} (cut ++ moves) (down found.now) }

    // A command among the moves at which the disk failed has broken the book. Its entry stands on the
    // page, and isn't kept.
    ensures broken { (done : IsByCalls old.now new.now) (later earlier : List Move)
        (who : ℕ) (command : Command) (reply : Reply)
        → done.moves ≡ later ++ fails who command reply ∷ earlier
        → (is_broken new.now ≡ true) × (front after : List Entry)
        × (log_of new.now ≡ front ++ command_entry who command reply ∷ after)
        × (kept_of new.now ≤ length front) }

    // And there is one such command at most.
    ensures once { (done : IsByCalls old.now new.now) (later between earlier : List Move)
        (who other : ℕ) (command second : Command) (reply answer : Reply)
        → ¬ (done.moves ≡ later ++ fails who command reply
        ∷ (between ++ fails other second answer ∷ earlier)) }

    // Of the lines after those that were answered at most one group has come to the table, of at most
    // so many lines.
    ensures group { (limit most : ℕ) (fault : ServeFault) (ls : List (List ℕ))
        (before after : Option (List ℕ))
        (serving : IsServing {T = Unit {0}} limit most (Err fault) ls old.now new.now before after)
        → 1 ≤ most → fault ≢ Write → (answers : List ℕ) × (t : List JobParts)
        × IsServed (table_of old.now) serving.front answers t
        × IsInFew most t serving.rest (table_of new.now) }
{
    let _ = old;
    let _ = new;
    let _ = found;
    ic_commands::laws::one_line_reading();
    ic_jobs::laws::histories_split_and_join();
    ic_jobs::laws::life_law();
    ic_slots::laws::one_is_held();
}

/// What a stopped serving has left is opened again: the next book is reached by the moves that were
/// cut short, and its opening is refused for no other cause than these.
pub fn a_stopped_serving_opens_again<D: Disk>(
    old: &Book<D>,
    new: &Book<D>,
    found: &D,
    next: &Book<D>,
)
    ensures opened { (moves : List Move) (done : IsByCalls old.now new.now)
        → Reaches moves (up old.now)
        → IsFound D.Disk (disk_of old.now) (disk_of new.now) found.now → Opens found.now next.now
        → (cut : List Move) × IsCutShort done.moves cut
        × Reaches (opens ∷ cut ++ moves) (up next.now)
        × IsTableAfter (opens ∷ cut ++ moves) (table_of next.now) }
    ensures refused { (moves : List Move) (done : IsByCalls old.now new.now)
        (after : D) (cause : OpenCause) → Reaches moves (up old.now)
        → IsFound D.Disk (disk_of old.now) (disk_of new.now) found.now
        → Refuses D.Disk cause found.now after
        → (cut : List Move) × IsCutShort done.moves cut
        × Reaches {ghosts = D.Disk} (refuses cause ∷ cut ++ moves) (down after)
        × ((cause ≡ Device) ⊎ (cause ≡ Memory)) }
{
    let _ = old;
    let _ = new;
    let _ = found;
    let _ = next;
    ic_jobs::laws::histories_split_and_join();
    ic_jobs::laws::life_law();
    ic_slots::laws::one_is_held();
}

/// Any number of servings of lines, each stopped at any moment or ended, are a run of a server, with
/// any other moves between them: openings, also those that are refused or stopped, calls of one's own,
/// closings. After them the table is the one after a legal history of these moves. Every command that
/// one of the first lines of a serving was answered stands there, in order, with the reply whose line
/// answers it.
pub fn servings_are_a_run<D: Disk>(first: &D, last: &D, book: &Book<D>)
    ensures run { (parts : List (Part D.Disk)) (server : Server D.Disk)
        → IsTrue (D.keeps first.now) → Within (D.image first.now) (HoldsTable [])
        → ArePartsOf parts (down first.now) server
        → (moves : List Move) × AreMovesOf parts moves × Reaches moves server }

    // An open book has the table after such a history.
    ensures open { (parts : List (Part D.Disk))
        → IsTrue (D.keeps first.now) → Within (D.image first.now) (HoldsTable [])
        → ArePartsOf parts (down first.now) (up book.now)
        → (moves : List Move) × AreMovesOf parts moves
        × (history : List Entry) × IsHistoryOf moves history
        × StandAmong (answered_by parts) history × (table_of book.now ≡ replay [] history) }

    // And so has whatever file is found of a disk.
    ensures stopped { (parts : List (Part D.Disk)) (file : List ℕ)
        → IsTrue (D.keeps first.now) → Within (D.image first.now) (HoldsTable [])
        → ArePartsOf parts (down first.now) (down last.now) → D.image last.now file
        → (moves : List Move) × AreMovesOf parts moves
        × (history : List Entry) × IsHistoryOf moves history
        × StandAmong (answered_by parts) history × HoldsTable (replay [] history) file }
{
    let _ = first;
    let _ = last;
    let _ = book;
    ic_jobs::laws::histories_split_and_join();
    ic_jobs::laws::life_law();
    ic_slots::laws::one_is_held();
}

/// A call of `serve_lines` is a serving by its clauses alone. As many of the groups that it answered as
/// one likes may be its first lines.
pub fn a_call_is_a_serving<D: Disk>(old: &Book<D>, new: &Book<D>)
    ensures { (limit most : ℕ) (result : Result (Unit {0}) ServeFault)
        (ls : List (List ℕ)) (before after : Option (List ℕ))
        (serves : IsServing limit most result ls old.now new.now before after)
        (front more : List (List (List ℕ))) → serves.turns.groups ≡ front ++ more
        → (serving : Serving D.Disk) × (serving.old ≡ old.now) × (serving.new ≡ new.now)
        × (serving.ls ≡ ls) × (serving.result ≡ result) × (serving.front ≡ front) }
{
    let _ = old;
    let _ = new;
}

/// The same in the words of the lines. Where all are answered, the table is both the one that they
/// lead to and the one after a past of all moves. Whatever file is found after a stop holds a table
/// that a front of them reaches, or the one that was kept last where not all was kept before. It is
/// the one after a legal history of the moves that were cut short, which has every answered command.
pub fn lines_are_moves<D: Disk>(old: &Book<D>, new: &Book<D>, found: &D)
    ensures answered { (moves : List Move) (limit most : ℕ) (result : Result (Unit {0}) ServeFault)
        (ls : List (List ℕ)) (before after : Option (List ℕ))
        (serving : IsServing limit most result ls old.now new.now before after)
        → Reaches moves (up old.now)
        → OnOk result (AreAnswered ls (table_of old.now) (table_of new.now) before after)
        × IsTableAfter (serving.crash.done.moves ++ moves) (table_of new.now) }
    ensures stopped { (moves : List Move) (limit most : ℕ) (result : Result (Unit {0}) ServeFault)
        (ls : List (List ℕ)) (before after : Option (List ℕ))
        (serving : IsServing limit most result ls old.now new.now before after)
        → Reaches moves (up old.now)
        → IsFound D.Disk (disk_of old.now) (disk_of new.now) found.now
        → (cut : List Move) × IsCutShort serving.crash.done.moves cut
        × Reaches {ghosts = D.Disk} (cut ++ moves) (down found.now)
        × ((file : List ℕ) → D.image found.now file
        → (t : List JobParts) × HoldsTable t file
        × MayStand (IsAllKept old.now) (last_kept old.now) (table_of old.now) ls t
        × (history : List Entry) × IsHistoryOf (cut ++ moves) history × (t ≡ replay [] history)) }
{
    let _ = old;
    let _ = new;
    let _ = found;
    ic_jobs::laws::histories_split_and_join();
    ic_jobs::laws::life_law();
    ic_slots::laws::one_is_held();
}

/// What a serving has answered stays, also where it ends by a fault. After any number of the first
/// groups that it answered there is a book that their moves reach. The last move of each line by itself
/// is an answer with the reply whose line the bytes are, or a keep after a run, and of other groups their
/// keep. A stop from that book's clock on is one in the midst of a later call: the moves of these lines
/// are all there.
pub fn answered_lines_stay<D: Disk>(old: &Book<D>, new: &Book<D>, found: &D)
    ensures { (moves : List Move) (limit most : ℕ) (result : Result (Unit {0}) ServeFault)
        (ls : List (List ℕ)) (before after : Option (List ℕ))
        (serving : IsServing limit most result ls old.now new.now before after)
        (front more : List (List (List ℕ))) → serving.turns.groups ≡ front ++ more
        → Reaches moves (up old.now)
        → (mid : BookOver D.Disk) × (turns : AreAnsweredInTurn limit front old.now mid)
        × (others : AreAnsweredInTurn limit more mid serving.turns.between)
        × (later : IsByCalls mid new.now)
        × Reaches (moves_in_turn limit front old.now mid turns ++ moves) (up mid)
        × (IsFound D.Disk (disk_of mid) (disk_of new.now) found.now
        → (cut : List Move) × IsCutShort later.moves cut × Reaches {ghosts = D.Disk}
        (cut ++ (moves_in_turn limit front old.now mid turns ++ moves)) (down found.now)) }
{
    let _ = old;
    let _ = new;
    let _ = found;
    ic_jobs::laws::histories_split_and_join();
    ic_slots::laws::one_is_held();
}

/// What is done for a line that is answered: at a command the last of its moves answers it, with the
/// reply whose line the bytes are, which its entry has too. At a run the last one keeps all, and so it is
/// for a group: its commands are taken before its last move, each after those before it.
pub fn answered_lines_are_moves<D: Disk>(old: &Book<D>, new: &Book<D>)
    ensures command { (command : Command) (bytes : List ℕ)
        (done : IsDoneFor (Ok (Asks command)) bytes old.now new.now)
        → (reply : Reply) × (bytes ≡ ended (reply_text reply)) × (earlier : List Move)
        × ((calls_for (Ok (Asks command)) bytes old.now new.now done).moves
        ≡ answers 0 command reply ∷ earlier)
        × (reply_for (Ok (Asks command)) bytes old.now new.now done
        ≡ command_entry 0 command reply ∷ []) }
    ensures run { (count : ℕ) (bytes : List ℕ)
        (done : IsDoneFor (Ok (Run count)) bytes old.now new.now) → (earlier : List Move)
        × ((calls_for (Ok (Run count)) bytes old.now new.now done).moves ≡ keeps ∷ earlier) }
    ensures group { (limit : ℕ) (ls : List (List ℕ)) (bytes : List ℕ)
        (is : IsGroupAnswered limit ls bytes old.now new.now) → (earlier : List Move)
        × (moves_at_once limit ls bytes old.now new.now (by_group is) ≡ keeps ∷ earlier)
        × StandAmong (replies_at_once limit ls bytes old.now new.now (by_group is))
        (answered earlier ++ taken earlier) }
{
    let _ = old;
    let _ = new;
}

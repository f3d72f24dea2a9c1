//! What the words of the laws of `served` come to: what lines and parts tell of commands, cut short.

ghost use Rattle.std.specs.Prelude.{◌≡◌, ◌≤◌, [], ◌∷◌, ◌++◌, ℕ, List, Ok, flat_map, length, take};
ghost use Rattle.ic_jobs.specs.declared.command.Command.{Command};
ghost use Rattle.ic_jobs.specs.declared.event.Entry.{Entry};
ghost use Rattle.ic_jobs.specs.declared.reply.Reply.{Reply};
ghost use Rattle.ic_jobs.specs.History.{IsLegal, replay};
ghost use Rattle.ic_jobs.specs.Job.{JobParts};
ghost use Rattle.ic_slots.specs.Held.{HoldsTable};
ghost use Rattle.ic_commands.specs.declared.line.Line.TheVariants.{Command as Asks};
ghost use Rattle.ic_commands.specs.LineText.{ReadsLine};
ghost use Rattle.ic_commands.specs.ReplyText.{reply_text};
ghost use Rattle.ic_lines.specs.Lines.{ended};
ghost use Rattle.ic_book.specs.Book.{disk_of};
ghost use Rattle.ic_book.specs.Moves.{Move};
ghost use Rattle.ic_book.specs.Server.{IsFound, Runs, Server, down, up};
ghost use Rattle.ic_serving.specs.Answered.{AskFor};
ghost use Rattle.ic_serving.specs.InTurn.{AreAnsweredInTurn, replies_in_turn};
ghost use Rattle.ic_lives.specs.Headline.{AreIterates, HoldsPrefixAfter, IsTableAfter};
ghost use Rattle.ic_lives.specs.Histories.{answered, come};
ghost use Rattle.ic_lives.specs.Past.{IsPast, Past};
ghost use Rattle.ic_serving_laws.specs.Served.{IsCutShort};
ghost use Rattle.ic_serving_laws.specs.Servings.{AreMovesOf, ArePartsOf, IsAnsweredBetween, Part, Serving, answered_by, entries_of, line_moves, ended as ended_part, stopped as stopped_part, other as other_part};

use ic_book::Book;
use ic_disk::Disk;

/// What groups of lines that were answered in turn tell of commands: a group of command lines, and one by
/// itself, its own, with the replies whose lines it was answered, between what those before it and those
/// after it tell. No other line tells any.
pub fn each_command_line_is_told<D: Disk>(first: &Book<D>, last: &Book<D>)
    ensures command { (limit : ℕ) (front back : List (List (List ℕ))) (group : List (List ℕ))
        (commands : List Command)
        (turns : AreAnsweredInTurn limit (front ++ group ∷ back) first.now last.now)
        → AskFor group commands
        → (here : IsAnsweredBetween limit front group back first.now last.now)
        × (replies : List Reply)
        × (here.bytes ≡ flat_map (λ reply. ended (reply_text reply)) replies)
        × (replies_in_turn limit (front ++ group ∷ back) first.now last.now turns
        ≡ replies_in_turn limit front first.now here.before here.in_front
        ++ (entries_of commands replies
        ++ replies_in_turn limit back here.after last.now here.later)) }
    ensures other { (limit : ℕ) (front back : List (List (List ℕ))) (line : List ℕ)
        (turns : AreAnsweredInTurn limit (front ++ (line ∷ []) ∷ back) first.now last.now)
        → ((command : Command) → ¬ ReadsLine line (Ok (Asks command)))
        → (here : IsAnsweredBetween limit front (line ∷ []) back first.now last.now)
        × (replies_in_turn limit (front ++ (line ∷ []) ∷ back) first.now last.now turns
        ≡ replies_in_turn limit front first.now here.before here.in_front
        ++ replies_in_turn limit back here.after last.now here.later) }
    ensures none { (limit : ℕ) (turns : AreAnsweredInTurn limit [] first.now last.now)
        → replies_in_turn limit [] first.now last.now turns ≡ [] }
{
    let _ = first;
    let _ = last;
    ic_commands::laws::one_line_reading();
}

/// What parts have answered, one after the other: a serving the commands of its first lines, also where
/// it was stopped after them, and other moves those that they answer.
pub fn each_part_is_told<D: Disk>(disk: &D)
    ensures joined { (later earlier : List (Part D.Disk))
        → answered_by (later ++ earlier) ≡ answered_by earlier ++ answered_by later }
    ensures ended { (serving : Serving D.Disk) → answered_by (ended_part serving ∷ [])
        ≡ replies_in_turn serving.limit serving.front serving.old serving.answering
        serving.first_lines }
    ensures stopped { (serving : Serving D.Disk) (found : D)
        → answered_by (stopped_part serving found ∷ [])
        ≡ replies_in_turn serving.limit serving.front serving.old serving.answering
        serving.first_lines }
    ensures other { (moves : List Move) (server : Server D.Disk)
        → answered_by (other_part moves server ∷ []) ≡ answered moves }
{
    let _ = disk;
}

/// Parts go on from where the one before led: a serving that has ended leads to its book, one that was
/// stopped to a disk that is found since its first lines, and other moves to where they lead.
pub fn parts_lead_on<D: Disk>(disk: &D)
    ensures none { (server : Server D.Disk) → ArePartsOf [] server server }
    ensures ended { (parts : List (Part D.Disk)) (first : Server D.Disk) (serving : Serving D.Disk)
        → ArePartsOf parts first (up serving.old)
        → ArePartsOf (ended_part serving ∷ parts) first (up serving.new) }
    ensures stopped { (parts : List (Part D.Disk)) (first : Server D.Disk) (serving : Serving D.Disk)
        (found : D) → ArePartsOf parts first (up serving.old)
        → IsFound D.Disk (disk_of serving.answering) (disk_of serving.new) found
        → ArePartsOf (stopped_part serving found ∷ parts) first (down found) }
    ensures other { (parts : List (Part D.Disk)) (first before server : Server D.Disk)
        (moves : List Move) → ArePartsOf parts first before → Runs moves before server
        → ArePartsOf (other_part moves server ∷ parts) first server }
{
    let _ = disk;
}

/// The moves of a serving's first lines lead from its book to the one that answers them. The moves of
/// parts are those of the earlier parts, and after them its own: of a serving those of its first lines,
/// and then calls that lead on to its book, which a stop cuts short.
pub fn the_moves_of_a_part_are_its_calls<D: Disk>(disk: &D)
    ensures lines { (serving : Serving D.Disk)
        → Runs (line_moves serving) (up serving.old) (up serving.answering) }
    ensures none { (moves : List Move) → AreMovesOf {ghosts = D.Disk} [] moves → moves ≡ [] }
    ensures ended { (parts : List (Part D.Disk)) (serving : Serving D.Disk) (moves : List Move)
        → AreMovesOf (ended_part serving ∷ parts) moves
        → (earlier later : List Move) × AreMovesOf parts earlier
        × Runs later (up serving.answering) (up serving.new)
        × (moves ≡ later ++ (line_moves serving ++ earlier)) }
    ensures stopped { (parts : List (Part D.Disk)) (serving : Serving D.Disk) (found : D)
        (moves : List Move) → AreMovesOf (stopped_part serving found ∷ parts) moves
        → (earlier later cut : List Move) × AreMovesOf parts earlier
        × Runs later (up serving.answering) (up serving.new) × IsCutShort later cut
        × (moves ≡ cut ++ (line_moves serving ++ earlier)) }
    ensures other { (parts : List (Part D.Disk)) (more : List Move) (server : Server D.Disk)
        (moves : List Move) → AreMovesOf (other_part more server ∷ parts) moves
        → (earlier : List Move) × AreMovesOf parts earlier × (moves ≡ more ++ earlier) }
{
    let _ = disk;
}

/// What the headline says of a table, and of a file: there is a past of the moves, a legal history. The
/// table is the one after all its entries, and each job is as its life says. The file holds the table
/// after a prefix that has all entries that last.
pub fn the_headline_says()
    ensures table { (moves : List Move) (table : List JobParts) → IsTableAfter moves table
        → (past : Past) × IsPast moves past × IsLegal [] past.entries
        × (past.lasting ≤ length past.entries) × (table ≡ replay [] past.entries)
        × AreIterates past.entries table }
    ensures file { (moves : List Move) (file : List ℕ) → HoldsPrefixAfter moves file
        → (past : Past) × IsPast moves past × IsLegal [] past.entries × (n : ℕ)
        × (past.lasting ≤ n) × (n ≤ length past.entries)
        × HoldsTable (replay [] (take n past.entries)) file }
{}

/// What has come by moves that were cut short begins what comes by all of them.
pub fn cut_short_is_a_front()
    ensures { (moves cut : List Move) → IsCutShort moves cut
        → (after : List Entry) × (come moves ≡ come cut ++ after) }
{}

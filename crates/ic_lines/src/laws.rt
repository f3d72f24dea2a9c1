//! Laws of the definitions that the contracts of this crate and of those above cite.

ghost use Rattle.std.specs.Prelude.{◌≡◌, ◌↔◌, ◌+◌, ◌<◌, ◌≤◌, ℕ, List, [], ◌∷◌, ◌++◌, Option, Result, Ok, Err, None, Some, false, true, length, map, take};
ghost use Rattle.std.specs.List.{flat_map, list_all, AllByRecursion, AllZip};
ghost use Rattle.ic_flights.specs.Flight.{FlightParts};
ghost use Rattle.ic_jobs.specs.declared.command.Command.{Command};
ghost use Rattle.ic_jobs.specs.declared.event.Event.{Event};
ghost use Rattle.ic_jobs.specs.declared.event.Event.TheVariants.{Round};
ghost use Rattle.ic_jobs.specs.declared.event.Entry.{Entry};
ghost use Rattle.ic_jobs.specs.Job.{JobParts};
ghost use Rattle.ic_jobs.specs.Table.{IsTable};
ghost use Rattle.ic_jobs.specs.History.{table_after, replay, IsLegal};
ghost use Rattle.ic_jobs.specs.Landing.{due};
ghost use Rattle.ic_jobs.specs.Turns.{RunsAt};
ghost use Rattle.ic_text.specs.declared.fault.TextFault.{TextFault};
ghost use Rattle.ic_text.specs.declared.limits.TheConstants.{MAX_TEXT};
ghost use Rattle.ic_commands.specs.LineText.{ReadsLine};
ghost use Rattle.ic_text.specs.Token.{is_blank};
ghost use Rattle.ic_lines.specs.Lines.{has_feed, ended, lines};
ghost use Rattle.ic_lines.specs.Turns.{turns, after_events};
ghost use Rattle.ic_lines.specs.Answers.{Reading, after, out};
ghost use Rattle.ic_lines.specs.Serving.{IsLineAnswered, IsServed};
ghost use Rattle.std.specs.List.{filter_map};
ghost use Rattle.ic_text.specs.declared.fault.TextFault.TheVariants.{Limit, Memory};
ghost use Rattle.ic_commands.specs.ScriptSense.{ReadsScriptLine};
ghost use Rattle.ic_lines.specs.declared.script.ScriptFault.{ScriptFault};
ghost use Rattle.ic_lines.specs.declared.script.TheConstants.{MAX_SCRIPT};
ghost use Rattle.ic_lines.specs.Script.{commands, first_fault, AreAsked, IsWanting, ReadsScript, ScriptLine, WantsMemory};

/// A line is what comes before a line feed, and the last one needs none where it has a byte. No
/// line has a line feed in it. The lines of a text that ends with a line feed, each with its line
/// feed, are the text; and a text with such an end can be followed by the lines of another one.
pub fn lines_are_parted_by_line_feeds()
    ensures none { lines [] ≡ [] }
    ensures last { (b : ℕ) (line : List ℕ) → has_feed (b ∷ line) ≡ false
        → lines (b ∷ line) ≡ (b ∷ line) ∷ [] }
    ensures first { (line rest : List ℕ) → has_feed line ≡ false
        → lines (line ++ 10 ∷ rest) ≡ line ∷ lines rest }
    ensures each { (text : List ℕ) → AllByRecursion (λ line. has_feed line ≡ false) (lines text) }
    ensures whole { (text : List ℕ) → flat_map ended (lines (ended text)) ≡ ended text }
    ensures joined { (text more : List ℕ)
        → lines (ended text ++ more) ≡ lines (ended text) ++ lines more }
{}

/// Lines are answered one after the other: the answers to two lists of lines are those to the first,
/// and after them those to the second over the table that the first leaves.
pub fn lines_are_answered_in_turn()
    ensures nothing { (t : List JobParts) → out t [] ≡ [] }
    ensures stays { (t : List JobParts) → after t [] ≡ t }
    ensures out { (t : List JobParts) (a b : List Reading)
        → out t (a ++ b) ≡ out t a ++ out (after t a) b }
    ensures after { (t : List JobParts) (a b : List Reading)
        → after t (a ++ b) ≡ after (after t a) b }
{}

/// Any lines are served in just one way, no lines are answered nothing, and lines after other lines
/// are served from the table that those leave.
pub fn lines_are_served_in_one_way()
    ensures some { (t : List JobParts) (ls : List (List ℕ))
        → (answers : List ℕ) × (left : List JobParts) × IsServed t ls answers left }
    ensures answers { (t u v : List JobParts) (ls : List (List ℕ)) (a b : List ℕ)
        → IsServed t ls a u → IsServed t ls b v → a ≡ b }
    ensures leaves { (t u v : List JobParts) (ls : List (List ℕ)) (a b : List ℕ)
        → IsServed t ls a u → IsServed t ls b v → u ≡ v }
    ensures nothing { (t : List JobParts) → IsServed t (lines []) [] t }
    ensures joined { (t u v : List JobParts) (ls more : List (List ℕ)) (a b : List ℕ)
        → IsServed t ls a u → IsServed u more b v → IsServed t (ls ++ more) (a ++ b) v }
{
    ic_commands::laws::one_line_reading();
}

/// What one line is answered, and what it leaves: nothing to blanks, its refusal to a refused line,
/// both of which leave the table; its reply to a command; and to a run how many rounds it made.
pub fn each_line_is_answered()
    ensures blank { (t : List JobParts) (line : List ℕ) → length line ≤ MAX_TEXT
        → list_all is_blank line ≡ true → IsServed t (line ∷ []) [] t }
    ensures each { (t left : List JobParts) (line answers : List ℕ) (r : Reading)
        → ReadsLine line r → IsLineAnswered t r answers left → IsServed t (line ∷ []) answers left }
{
    ic_commands::laws::commands_ask();
}

/// A run makes rounds of running jobs: at most so many, and fewer only where no job runs then. The
/// first is that of the job that is due from a place on; what comes after it is the run of one
/// fewer from above the job's place. A front of a run's events is a shorter run.
pub fn runs_are_rounds_in_turn()
    ensures few { (k place : ℕ) (t : List JobParts) → length (turns k place t) ≤ k }
    ensures fewer { (k place : ℕ) (t : List JobParts) → length (turns k place t) < k
        → (i : ℕ) → ¬ RunsAt (after_events t (turns k place t)) i }
    ensures first { (k place : ℕ) (t : List JobParts) (f : FlightParts) → due t place ≡ Some f
        → turns (k + 1) place t
        ≡ Round f.name ∷ turns k (f.place + 1) (table_after t (Round f.name)) }
    ensures idle { (k place : ℕ) (t : List JobParts) → ((i : ℕ) → ¬ RunsAt t i)
        → turns k place t ≡ [] }
    ensures front { (k n place : ℕ) (t : List JobParts) → n ≤ k
        → take n (turns k place t) ≡ turns n place t }
{
    ic_jobs::laws::due_is_the_next_running_job();
}

/// Each round of a run is of a job that runs when its turn comes: the run's events, each with its
/// reply, are a legal history of the table, and the run leaves the table that this history leaves.
pub fn runs_are_legal()
    ensures { (k place : ℕ) (t : List JobParts) → IsTable t
        → (h : List Entry) × IsLegal t h × (map (λ e. e.event) h ≡ turns k place t)
        × (replay t h ≡ after_events t (turns k place t)) }
{
    ic_jobs::laws::what_is_due_is_awaited();
    ic_jobs::laws::events_leave_tables();
}

/// A script is read in just one way, which is never that memory ran out, and never more commands than a script may
/// have.
pub fn scripts_are_read_in_one_way()
    ensures answer { (text : List ℕ) (a b : Result (List Command) ScriptFault) →
        ReadsScript text a → ReadsScript text b → a ≡ b }
    ensures total { (text : List ℕ) →
        (a : Result (List Command) ScriptFault) × ReadsScript text a }
    ensures no_memory { (text : List ℕ) (line : ℕ) →
        ¬ ReadsScript text (Err (record { line = line; fault = Memory })) }
    ensures few { (text : List ℕ) (found : List Command) →
        ReadsScript text (Ok found) → length found ≤ MAX_SCRIPT }
    ensures limit { MAX_SCRIPT ≡ 65536 }
{
    ic_commands::laws::one_script_line_reading();
}

/// A script without a fault is read as the commands of its lines in order; a blank line gives none, and no lines give
/// none.
pub fn scripts_hold_the_commands_of_their_lines()
    ensures commands { (text : List ℕ) (asked : List (Option Command)) →
        AreAsked (lines text) asked → length (filter_map (λ c. c) asked) ≤ MAX_SCRIPT →
        ReadsScript text (Ok (filter_map (λ c. c) asked)) }
    ensures nothing { ReadsScript [] (Ok []) }
    ensures blank { (line : List ℕ) → length line ≤ MAX_TEXT → list_all is_blank line ≡ true →
        has_feed line ≡ false → ReadsScript (ended line) (Ok []) }
{
    ic_commands::laws::commands_ask();
    ic_commands::laws::script_lines_are_lines_without_runs();
}

/// The first fault of a script is that of its first line with one, which is numbered from 1, blank lines counted; a
/// command after as many as a script may have passes a limit. What follows that line changes nothing.
pub fn scripts_are_refused_at_their_first_fault()
    ensures first { (text line : List ℕ) (before rest : List (List ℕ))
        (asked : List (Option Command)) (fault : TextFault) →
        lines text ≡ before ++ line ∷ rest → AreAsked before asked →
        length (filter_map (λ c. c) asked) ≤ MAX_SCRIPT → ReadsScriptLine line (Err fault) →
        ReadsScript text (Err (record { line = length before + 1; fault = fault })) }
    ensures too_many { (text line : List ℕ) (before rest : List (List ℕ))
        (asked : List (Option Command)) (command : Command) →
        lines text ≡ before ++ line ∷ rest → AreAsked before asked →
        length (filter_map (λ c. c) asked) ≡ MAX_SCRIPT →
        ReadsScriptLine line (Ok (Some command)) →
        ReadsScript text (Err (record { line = length before + 1; fault = Limit })) }
{
    ic_commands::laws::one_script_line_reading();
}

/// Scripts one after the other: their commands one after the other, where they are not too many; and a fault of the
/// first stays the first fault.
pub fn scripts_are_joined_at_a_line_feed()
    ensures commands { (text more : List ℕ) (a b : List Command) →
        ReadsScript (ended text) (Ok a) → ReadsScript more (Ok b) →
        length a + length b ≤ MAX_SCRIPT → ReadsScript (ended text ++ more) (Ok (a ++ b)) }
    ensures fault { (text more : List ℕ) (fault : ScriptFault) →
        ReadsScript (ended text) (Err fault) → ReadsScript (ended text ++ more) (Err fault) }
{
    ic_commands::laws::one_script_line_reading();
}

/// Memory may run out at a line of a script, which has this number among its lines. Those before it are
/// read, none of them is refused, and the line itself is a submit or a command that isn't one too many.
pub fn memory_runs_out_at_a_line()
    ensures { (text : List ℕ) (number : ℕ) → IsWanting text number
        → (before : List (List ℕ)) × (line : List ℕ) × (rest : List (List ℕ))
        × (readings : List ScriptLine) × (lines text ≡ before ++ line ∷ rest)
        × (number ≡ length before + 1) × AllZip ReadsScriptLine before readings
        × (first_fault [] readings ≡ None) × WantsMemory (length (commands readings)) line }
{}

//! What is proved of the definitions alone: each law is the contract of a function that does nothing, or calls the laws
//! that it comes of.

ghost use Rattle.std.specs.Prelude.{◌≡◌, ◌≢◌, ◌<◌, ◌≤◌, ◌⊎◌, ◌+◌, ◌^◌, ◌&&◌, ◌||◌, ◌==◌, ℕ, List, [], ◌∷◌, ◌++◌, Option, None, Some, IfSome, Result, Ok, Err, true, false, length, map, codes, not, nat_le, Contains, IsTrue};
ghost use Rattle.std.specs.List.{list_all, join_with_byte};
ghost use Rattle.std.specs.Str.{bytes_eq};
ghost use Rattle.std.specs.Char.{is_ascii_lowercase, is_ascii_digit};
ghost use Rattle.std.specs.Fmt.{decimal};
ghost use Rattle.ic_rules.specs.System.{SystemParts};
ghost use Rattle.ic_rules.specs.JobName.{is_job_name, is_job_word};
ghost use Rattle.ic_rules.specs.declared.job_name.TheConstants.{MAX_JOB_NAME};
ghost use Rattle.ic_jobs.specs.declared.state.State.{State};
ghost use Rattle.ic_jobs.specs.declared.state.State.TheVariants.{Running, Paused, Done, Halted, Spent};
ghost use Rattle.ic_jobs.specs.declared.reply.Refusal.{Refusal};
ghost use Rattle.ic_jobs.specs.declared.reply.Refusal.TheVariants.{Taken, Full, NoJob, NotRunning, NotPaused};
ghost use Rattle.ic_jobs.specs.declared.reply.Reply.{Reply};
ghost use Rattle.ic_jobs.specs.declared.reply.Reply.TheVariants as reply;
ghost use Rattle.ic_jobs.specs.declared.reply.Reply.TheVariants.{Accepted, Okay, Shown, Listed, Refused, Moved};
ghost use Rattle.ic_jobs.specs.Shown.{ShownParts};
ghost use Rattle.ic_text.specs.Name.{number_in};
ghost use Rattle.ic_text.specs.SystemText.{ReadsSystem};
ghost use Rattle.ic_text.specs.Text.{printed};
ghost use Rattle.ic_text.specs.Token.{is_blank, words_among};
ghost use Rattle.ic_text.specs.declared.limits.TheConstants.{MAX_TEXT};
ghost use Rattle.ic_text.specs.declared.fault.TextFault.{TextFault};
ghost use Rattle.ic_text.specs.declared.fault.TextFault.TheVariants.{Syntax, Limit, Memory};
ghost use Rattle.ic_commands.specs.declared.limits.TheConstants.{MAX_RUN};
ghost use Rattle.ic_commands.specs.declared.line.Line.{Line};
ghost use Rattle.ic_commands.specs.declared.line.Line.TheVariants.{Blank, Command as Asks, Run};
ghost use Rattle.ic_commands.specs.declared.line.Verb.{Verb};
ghost use Rattle.ic_commands.specs.declared.line.Verb.TheVariants.{Pause, Resume, Cancel, Fetch};
ghost use Rattle.ic_commands.specs.LineSource.{LinePhrase, run, is_number, verb_text, line_words};
ghost use Rattle.ic_commands.specs.LineSense.{fits_budget, submitted};
ghost use Rattle.ic_commands.specs.LineText.{SpellsLine, ReadsLine};
ghost use Rattle.ic_jobs.specs.declared.command.Command.{Command};
ghost use Rattle.ic_jobs.specs.Budget.{IsBudget};
ghost use Rattle.ic_jobs.specs.Memory.{is_submit};
ghost use Rattle.ic_jobs.specs.Names.{command_names};
ghost use Rattle.ic_commands.specs.ScriptSense.{without_run, ReadsScriptLine};
ghost use Rattle.ic_commands.specs.LinePlain.{IsPlainly, phrase_texts};
ghost use Rattle.ic_commands.specs.ReplyText.{state_text, refusal_text, reply_text, reply_words};

/// A text spells at most one line, and it is read in just one way, which is never that memory ran out.
pub fn one_line_reading()
    ensures source { (text : List ℕ) (p q : LinePhrase) →
        SpellsLine text p → SpellsLine text q → p ≡ q }
    ensures answer { (text : List ℕ) (a b : Result Line TextFault) →
        ReadsLine text a → ReadsLine text b → a ≡ b }
    ensures total { (text : List ℕ) → (a : Result Line TextFault) × ReadsLine text a }
    ensures no_memory { (text : List ℕ) → ¬ ReadsLine text (Err Memory) }
{
    ic_text::laws::systems_are_told_by_their_tokens();
}

/// The limit of a line.
pub fn limits_are()
    ensures run { MAX_RUN ≡ 1000 }
{}

/// The words of each kind of line, and the verbs, which are all that there are.
pub fn command_words_are()
    ensures verbs { map verb_text (Pause ∷ Resume ∷ Cancel ∷ Fetch ∷ [])
        ≡ codes "pause" ∷ codes "resume" ∷ codes "cancel" ∷ codes "fetch" ∷ [] }
    ensures all_verbs { (verb : Verb) → Contains (Pause ∷ Resume ∷ Cancel ∷ Fetch ∷ []) verb }
    ensures lines { (p : LinePhrase) → words_among (line_words p) ≡ phrase_texts p }
{}

/// What each line asks that is written in its plainest form: each command with one space after its word, a run, a line
/// of blanks.
///
/// A job's name of more than 16 bytes passes a limit. In a submit it does so where the text after it is a system, and
/// in a copy whether it is the first or the second. So does a number of more than 1,000 in a run, however long it is.
/// So does a number in front of a system that is no budget's: 0, or 2^32 and more.
pub fn commands_ask()
    ensures plain { (line : Line) (text : List ℕ) → IsPlainly line text → ReadsLine text (Ok line) }
    ensures too_long { (verb : Verb) (name : List ℕ) → IsTrue (is_job_word name) →
        MAX_JOB_NAME < length name → length name + 7 ≤ MAX_TEXT →
        ReadsLine (verb_text verb ++ 32 ∷ name) (Err Limit) }
    ensures too_long_submit { (name text : List ℕ) (a : Result SystemParts TextFault) →
        IsTrue (is_job_word name) → MAX_JOB_NAME < length name →
        length name + length text + 8 ≤ MAX_TEXT → ReadsSystem text a → a ≢ Err Syntax →
        ReadsLine (codes "submit " ++ name ++ 32 ∷ text) (Err Limit) }
    ensures too_long_copy { (old new : List ℕ) →
        IsTrue (is_job_word old) → IsTrue (is_job_word new) →
        (MAX_JOB_NAME < length old) ⊎ (MAX_JOB_NAME < length new) →
        length old + length new + 6 ≤ MAX_TEXT →
        ReadsLine (codes "copy " ++ old ++ 32 ∷ new) (Err Limit) }
    ensures no_budget { (name digits text : List ℕ) (a : Result SystemParts TextFault) →
        IsTrue (is_job_name name) → IsTrue (is_number digits) → fits_budget (Some digits) ≡ false →
        length digits + length text + 25 ≤ MAX_TEXT → ReadsSystem text a → a ≢ Err Syntax →
        ReadsLine (codes "submit " ++ name ++ 32 ∷ (digits ++ 32 ∷ text)) (Err Limit) }
    ensures too_many { (digits : List ℕ) → IsTrue (is_number digits) →
        MAX_RUN < number_in digits → length digits + 4 ≤ MAX_TEXT →
        ReadsLine (codes "run " ++ digits) (Err Limit) }
{}

/// Each command but a submit is asked by some line, where its names are names of jobs. A submit is asked by its system,
/// as `a_submit_is_read_as_its_system` says.
pub fn each_command_has_a_line()
    ensures { (c : Command) → is_submit c ≡ false →
        ((name : List ℕ) → Contains (command_names c) name → IsTrue (is_job_name name)) →
        (text : List ℕ) × ReadsLine text (Ok (Asks c)) }
{}

/// A submit's system is read as a system by itself, where its name is a job's name: then the line is a submit of what
/// the system means, or refused as the system is. The same holds after a budget. Where the text is no system, it may
/// begin with a number, and then the line is another submit.
pub fn a_submit_is_read_as_its_system()
    ensures without { (name text : List ℕ) (a : Result SystemParts TextFault) →
        IsTrue (is_job_name name) → length text + 24 ≤ MAX_TEXT → ReadsSystem text a →
        a ≢ Err Syntax →
        ReadsLine (codes "submit " ++ name ++ 32 ∷ text) (submitted name None a) }
    ensures with_budget { (name text : List ℕ) (n : ℕ) (a : Result SystemParts TextFault) →
        IsTrue (is_job_name name) → IsBudget n → length text + 35 ≤ MAX_TEXT →
        ReadsSystem text a →
        ReadsLine (codes "submit " ++ name ++ 32 ∷ (decimal n ++ 32 ∷ text))
        (submitted name (Some n) a) }
{}

/// A job's name is a word of its bytes that has at most 16 of them, a letter first. A number is `0`, or digits without
/// a leading zero: the decimal text of what it writes.
pub fn names_of_jobs_and_numbers_are()
    ensures names { (w : List ℕ) →
        is_job_name w ≡ (is_job_word w && nat_le (length w) MAX_JOB_NAME) }
    ensures words { (b : ℕ) (bs : List ℕ) → is_job_word (b ∷ bs) ≡ (is_ascii_lowercase b
        && list_all (λ c. is_ascii_lowercase c || is_ascii_digit c || c == 45) bs) }
    ensures digits { (d : ℕ) (ds : List ℕ) → is_number (d ∷ ds)
        ≡ (bytes_eq (d ∷ ds) (codes "0") || (not (d == 48) && list_all is_ascii_digit (d ∷ ds))) }
    ensures number { (n : ℕ) → n < 2 ^ 64 → IsTrue (is_number (decimal n)) }
    ensures value { (n : ℕ) → n < 2 ^ 64 → number_in (decimal n) ≡ n }
    ensures text { (w : List ℕ) → IsTrue (is_number w) → number_in w < 2 ^ 64 →
        w ≡ decimal (number_in w) }
{}

/// The words and the forms of answers: each is its words with a space between. These are all states and refusals.
pub fn answers_are()
    ensures answers { (r : Reply) → reply_text r ≡ join_with_byte 32 (reply_words r) }
    ensures all_states { (s : State) → Contains (Running ∷ Paused ∷ Done ∷ Halted ∷ Spent ∷ []) s }
    ensures all_refusals { (r : Refusal) →
        Contains (Taken ∷ Full ∷ NoJob ∷ NotRunning ∷ NotPaused ∷ []) r }
    ensures states { map state_text (Running ∷ Paused ∷ Done ∷ Halted ∷ Spent ∷ [])
        ≡ codes "running" ∷ codes "paused" ∷ codes "done" ∷ codes "halted" ∷ codes "spent" ∷ [] }
    ensures refusals { map refusal_text (Taken ∷ Full ∷ NoJob ∷ NotRunning ∷ NotPaused ∷ [])
        ≡ codes "taken" ∷ codes "full" ∷ codes "nojob" ∷ codes "notrunning"
        ∷ codes "notpaused" ∷ [] }
    ensures words { map reply_text (Accepted ∷ Okay ∷ Moved ∷ reply.Halted ∷ [])
        ≡ codes "accepted" ∷ codes "ok" ∷ codes "moved" ∷ codes "halted" ∷ [] }
    ensures refused { (r : Refusal) → reply_text (Refused r) ≡ codes "refused " ++ refusal_text r }
    ensures shown { (job : ShownParts) → reply_text (Shown job)
        ≡ job.name ++ codes " " ++ state_text job.state ++ codes " " ++ decimal job.rounds
        ++ codes " " ++ printed job.rules.symbols job.config }
    ensures empty { reply_text (Listed []) ≡ codes "jobs" }
    ensures listed { (jobs : List (List ℕ × State × ℕ)) (name : List ℕ) (state : State) (rounds : ℕ) →
        reply_text (Listed (jobs ++ (name, state, rounds) ∷ []))
        ≡ reply_text (Listed jobs) ++ codes " " ++ name ++ codes ":" ++ state_text state
        ++ codes ":" ++ decimal rounds }
{}

/// A line of a script is read in just one way, which is never that memory ran out.
pub fn one_script_line_reading()
    ensures answer { (text : List ℕ) (a b : Result (Option Command) TextFault) →
        ReadsScriptLine text a → ReadsScriptLine text b → a ≡ b }
    ensures total { (text : List ℕ) →
        (a : Result (Option Command) TextFault) × ReadsScriptLine text a }
    ensures no_memory { (text : List ℕ) → ¬ ReadsScriptLine text (Err Memory) }
{
    ic_text::laws::systems_are_told_by_their_tokens();
}

/// A line that is no run is read in a script as it is read elsewhere: what is read as a command, or as nothing, is just
/// that. A line that begins with `run` and a space is no phrase of a script, whatever follows.
pub fn script_lines_are_lines_without_runs()
    ensures other { (text : List ℕ) (a : Result Line TextFault) →
        ((digits : List ℕ) → ¬ SpellsLine text (run digits)) → ReadsLine text a →
        ReadsScriptLine text (without_run a) }
    ensures command { (text : List ℕ) (c : Command) →
        ReadsLine text (Ok (Asks c)) → ReadsScriptLine text (Ok (Some c)) }
    ensures blank { (text : List ℕ) → ReadsLine text (Ok Blank) → ReadsScriptLine text (Ok None) }
    ensures run { (text : List ℕ) (k : ℕ) →
        ReadsLine text (Ok (Run k)) → ReadsScriptLine text (Err Syntax) }
    ensures any_run { (rest : List ℕ) → length rest + 4 ≤ MAX_TEXT →
        ReadsScriptLine (codes "run " ++ rest) (Err Syntax) }
    ensures run_alone { ReadsScriptLine (codes "run") (Err Syntax) }
{}

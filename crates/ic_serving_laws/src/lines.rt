//! Which lines are plain, what answers them, and at which memory may run out.

ghost use Rattle.std.specs.Prelude.{◌≡◌, ◌⊎◌, ◌<◌, ◌≤◌, ◌++◌, [], ◌∷◌, ℕ, List, Option, None, Some, Ok, Err, IfSome, IsTrue, true, codes, length};
ghost use Rattle.std.specs.Fmt.{decimal};
ghost use Rattle.std.specs.List.{list_all};
ghost use Rattle.ic_rules.specs.JobName.{is_job_name};
ghost use Rattle.ic_rules.specs.System.{SystemParts};
ghost use Rattle.ic_jobs.specs.declared.command.Command.{Command};
ghost use Rattle.ic_jobs.specs.declared.command.Command.TheVariants.{Cancel, CopyJob, Fetch, List as Lists, Pause, Resume, Submit};
ghost use Rattle.ic_jobs.specs.Budget.{IsBudget};
ghost use Rattle.ic_jobs.specs.Events.{after_command};
ghost use Rattle.ic_jobs.specs.Job.{JobParts};
ghost use Rattle.ic_text.specs.declared.fault.TextFault.{TextFault};
ghost use Rattle.ic_text.specs.SystemSource.{SystemPhrase};
ghost use Rattle.ic_text.specs.SystemText.{ReadsSystem};
ghost use Rattle.ic_text.specs.Text.{fault_text};
ghost use Rattle.ic_text.specs.Token.{is_blank};
ghost use Rattle.ic_commands.specs.declared.line.Line.TheVariants.{Blank, Command as Asks, Run};
ghost use Rattle.ic_commands.specs.LinePlain.{budget_text, AsksPlainly, IsPlainly};
ghost use Rattle.ic_commands.specs.LineSense.{fits_budget};
ghost use Rattle.ic_commands.specs.LineSource.{submit};
ghost use Rattle.ic_commands.specs.LineText.{IsSubmitText, SpellsLine};
ghost use Rattle.ic_commands.specs.ReplyText.{reply_text};
ghost use Rattle.ic_commands.specs.ScriptSense.{ReadsScriptLine};
ghost use Rattle.ic_lines.specs.Lines.{ended};
ghost use Rattle.ic_lines.specs.Script.{AreAsked, WantsMemory};
ghost use Rattle.ic_lines.specs.Serving.{IsLineAnswered};
ghost use Rattle.ic_lines.specs.Turns.{after_events, turns};

/// A line at which memory may run out spells the submit of a job with a name and a budget within the
/// limits, or it is a command that isn't one too many. So it is no blank line.
pub fn lines_that_want_memory_are_commands()
    ensures spelled { (text : List ℕ) → IsSubmitText text → (length text ≤ 262144)
        × ((name : List ℕ) × (most : Option (List ℕ)) × (s : SystemPhrase)
        × SpellsLine text (submit name most s) × IsTrue (is_job_name name)
        × IsTrue (fits_budget most)) }
    ensures command { (many : ℕ) (line : List ℕ) → WantsMemory many line → IsSubmitText line
        ⊎ ((command : Command) × ReadsScriptLine line (Ok (Some command)) × (many < 65536)) }
    ensures blank { (many : ℕ) (line : List ℕ) → ReadsScriptLine line (Ok None)
        → ¬ WantsMemory many line }
{
    ic_commands::laws::one_script_line_reading();
}

/// These texts are lines in their plainest form.
pub fn these_lines_are_plain()
    ensures pause { (name : List ℕ) → IsTrue (is_job_name name)
        → AsksPlainly (Pause name) (codes "pause " ++ name) }
    ensures resume { (name : List ℕ) → IsTrue (is_job_name name)
        → AsksPlainly (Resume name) (codes "resume " ++ name) }
    ensures cancel { (name : List ℕ) → IsTrue (is_job_name name)
        → AsksPlainly (Cancel name) (codes "cancel " ++ name) }
    ensures fetch { (name : List ℕ) → IsTrue (is_job_name name)
        → AsksPlainly (Fetch name) (codes "fetch " ++ name) }
    ensures submit { (name text : List ℕ) (most : Option ℕ) (system : SystemParts)
        → IsTrue (is_job_name name) → IfSome most IsBudget → ReadsSystem text (Ok system)
        → length (codes "submit " ++ name ++ 32 ∷ (budget_text most ++ text)) ≤ 262144
        → AsksPlainly (Submit name system most)
        (codes "submit " ++ name ++ 32 ∷ (budget_text most ++ text)) }
    ensures copy { (old new : List ℕ) → IsTrue (is_job_name old) → IsTrue (is_job_name new)
        → AsksPlainly (CopyJob old new) (codes "copy " ++ old ++ 32 ∷ new) }
    ensures list { AsksPlainly Lists (codes "list") }
    ensures command { (command : Command) (text : List ℕ)
        → AsksPlainly command text → IsPlainly (Asks command) text }
    ensures run { (n : ℕ) → n ≤ 1000 → IsPlainly (Run n) (codes "run " ++ decimal n) }
    ensures blank { (text : List ℕ) → length text ≤ 262144 → list_all is_blank text ≡ true
        → IsPlainly Blank text }
{}

/// These are the answers to a line that is read so, and what it leaves.
pub fn these_answer_lines()
    ensures blank { (t : List JobParts) → IsLineAnswered t (Ok Blank) [] t }
    ensures refused { (t : List JobParts) (fault : TextFault)
        → IsLineAnswered t (Err fault) (ended (fault_text fault)) t }
    ensures command { (t : List JobParts) (command : Command) → IsLineAnswered t (Ok (Asks command))
        (ended (reply_text (after_command t command).reply)) (after_command t command).table }
    ensures run { (t : List JobParts) (k : ℕ) → IsLineAnswered t (Ok (Run k))
        (ended (codes "ran " ++ decimal (length (turns k 0 t)))) (after_events t (turns k 0 t)) }
{}

/// Lines are read as what they ask, one by one.
pub fn each_line_asks_for_itself()
    ensures none { AreAsked [] [] }
    ensures more { (line : List ℕ) (ls : List (List ℕ)) (asks : Option Command)
        (found : List (Option Command)) → ReadsScriptLine line (Ok asks) → AreAsked ls found
        → AreAsked (line ∷ ls) (asks ∷ found) }
{}

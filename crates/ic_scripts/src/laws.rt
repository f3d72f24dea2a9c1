//! Laws of the definitions that the contracts of this crate cite.

ghost use Rattle.std.specs.Prelude.{◌≡◌, ◌⊎◌, ℕ, List, [], ◌∷◌, ◌++◌, None, Some, Result, Err, IsOk, codes, length, map};
ghost use Rattle.std.specs.Fmt.{decimal};
ghost use Rattle.std.specs.List.{AllByRecursion, flat_map};
ghost use Rattle.ic_jobs.specs.declared.command.Command.{Command};
ghost use Rattle.ic_jobs.specs.declared.reply.Reply.{Reply};
ghost use Rattle.ic_commands.specs.ReplyText.{reply_text};
ghost use Rattle.ic_lines.specs.Script.{ReadsScript};
ghost use Rattle.ic_lines.specs.declared.script.ScriptFault.{ScriptFault};
ghost use Rattle.ic_book.specs.declared.fault.BookFault.{BookFault};
ghost use Rattle.ic_book.specs.declared.fault.BookFault.TheVariants.{Broken, LogFull, Worn, Memory, Device};
ghost use Rattle.ic_attend.specs.declared.attended.ClientRun.{ClientRun};
ghost use Rattle.ic_attend.specs.declared.attended.RunnerEnd.{RunnerEnd};
ghost use Rattle.ic_attend.specs.declared.attended.RunnerEnd.TheVariants as runner;
ghost use Rattle.ic_scripts.specs.declared.fault.ScriptsFault.{ScriptsFault};
ghost use Rattle.ic_scripts.specs.declared.fault.ScriptsFault.TheVariants.{Book, Script, Memory as WantsMemory};
ghost use Rattle.ic_scripts.specs.Telling.{answer_line, stop_line, told, IsFirstOf, faults_of, runner_fault};
ghost use Rattle.ic_scripts.specs.Reading.{AddsScript, AreScripts, IsRefusal};

/// Clients are told in their order, each after a line with its number from 0: a line for each
/// answer, and last why it stopped, if it did.
pub fn clients_are_told_in_order()
    ensures none { told [] ≡ [] }
    ensures one_more { (runs : List ClientRun) (run : ClientRun) → told (runs ++ run ∷ [])
        ≡ told runs ++ (codes "client " ++ decimal (length runs) ++ 10 ∷ [])
        ++ flat_map answer_line run.answers.items ++ stop_line run.end }
    ensures answers { (command : Command) (reply : Reply)
        → answer_line (command, reply) ≡ reply_text reply ++ 10 ∷ [] }
    ensures finished { stop_line None ≡ [] }
    ensures stops { map stop_line
        (Some Broken ∷ Some LogFull ∷ Some Worn ∷ Some Memory ∷ Some Device ∷ [])
        ≡ (codes "stopped broken" ++ 10 ∷ []) ∷ (codes "stopped log full" ++ 10 ∷ [])
        ∷ (codes "stopped worn" ++ 10 ∷ []) ∷ (codes "stopped memory" ++ 10 ∷ [])
        ∷ (codes "stopped device" ++ 10 ∷ []) ∷ [] }
{}

/// The fault that is told of several is the first client's, else the first runner's, else the
/// keep's. None is told where all ended well.
pub fn the_first_fault_is_told()
    ensures client { (before after : List ClientRun) (run : ClientRun) (ends : List RunnerEnd)
        (fault : BookFault) (kept : Result (Unit {0}) BookFault)
        (told : Result (Unit {0}) ScriptsFault)
        → AllByRecursion (λ earlier. earlier.end ≡ None) before → run.end ≡ Some fault
        → IsFirstOf (faults_of (before ++ run ∷ after) ends kept) told → told ≡ Err (Book fault) }
    ensures runner { (runs : List ClientRun) (before after : List RunnerEnd) (end : RunnerEnd)
        (fault : ScriptsFault) (kept : Result (Unit {0}) BookFault)
        (told : Result (Unit {0}) ScriptsFault) → AllByRecursion (λ run. run.end ≡ None) runs
        → AllByRecursion (λ earlier. runner_fault earlier ≡ None) before
        → runner_fault end ≡ Some fault
        → IsFirstOf (faults_of runs (before ++ end ∷ after) kept) told → told ≡ Err fault }
    ensures keep { (runs : List ClientRun) (ends : List RunnerEnd) (fault : BookFault)
        (kept : Result (Unit {0}) BookFault) (told : Result (Unit {0}) ScriptsFault)
        → AllByRecursion (λ run. run.end ≡ None) runs
        → AllByRecursion (λ end. runner_fault end ≡ None) ends → kept ≡ Err fault
        → IsFirstOf (faults_of runs ends kept) told → told ≡ Err (Book fault) }
    ensures none { (runs : List ClientRun) (ends : List RunnerEnd)
        (kept : Result (Unit {0}) BookFault) (told : Result (Unit {0}) ScriptsFault)
        → AllByRecursion (λ run. run.end ≡ None) runs
        → AllByRecursion (λ end. runner_fault end ≡ None) ends → IsOk kept
        → IsFirstOf (faults_of runs ends kept) told → IsOk told }
    ensures runners { map runner_fault (runner.Idle ∷ runner.Turns 1 ∷ runner.Book Device ∷ [])
        ≡ None ∷ None ∷ Some (Book Device) ∷ [] }
{}

/// Texts that are added one after the other are read as scripts in their order.
pub fn scripts_are_read_in_order()
    ensures none { AreScripts [] [] }
    ensures one_more { (texts : List (List ℕ)) (scripts more : List (List Command)) (text : List ℕ)
        → AreScripts texts scripts → AddsScript text scripts more
        → AreScripts (texts ++ text ∷ []) more }
{}

/// A text is refused as the script of its place, for what reading it says, or a growth was. No other
/// fault comes.
pub fn a_script_is_refused_so()
    ensures { (text : List ℕ) (place : ℕ) (fault : ScriptsFault) → IsRefusal text place fault
        → (fault ≡ WantsMemory) ⊎ ((refusal : ScriptFault)
        × (fault ≡ Script place refusal) × ReadsScript text (Err refusal)) }
{}

//! What names are written as, and what a line submits.

ghost use Rattle.std.specs.Prelude.{◌≡◌, ℕ, ◌+◌, ◌<◌, ◌≤◌, List, [], ◌∷◌, ◌++◌, false, Option, Ok, Contains, IsTrue, codes, length, slice_index_or};
ghost use Rattle.ic_term.specs.Configuration.{configuration_names, occurrences};
ghost use Rattle.ic_term.specs.Symbol.{Symbol};
ghost use Rattle.ic_rules.specs.System.{SystemParts};
ghost use Rattle.ic_text.specs.Name.{is_name, name_text};
ghost use Rattle.ic_text.specs.declared.limits.TheConstants.{MAX_NAME};
ghost use Rattle.ic_expand.specs.Generic.{agent_text, copies};
ghost use Rattle.ic_expand.specs.Names.{IsRenaming};
ghost use Rattle.ic_expand.specs.Reading.{is_known, noted, pairs_of};
ghost use Rattle.ic_expand.specs.Pieces.{pieces};
ghost use Rattle.ic_jobs.specs.Job.{JobParts};
ghost use Rattle.ic_jobs.specs.declared.command.Command.TheVariants as command;
ghost use Rattle.ic_commands.specs.LineText.{ReadsLine};
ghost use Rattle.ic_commands.specs.declared.line.Line.TheVariants.{Command as Asks};
ghost use Rattle.ic_dump.specs.Submitting.{IsFree, Submits};
ghost use Rattle.ic_dump.specs.Telling.{system_of};

/// A long name isn't written as a name that stands in the text already, and what a name is written as would be written so
/// again.
pub fn written_names_stay_apart()
    ensures apart { (f : List ℕ → List ℕ) (ns : List (List ℕ)) → IsRenaming f ns
        → (v w : List ℕ) → Contains ns v → Contains ns w → IsTrue (is_name v) → f w ≡ v → w ≡ v }
    ensures again { (f : List ℕ → List ℕ) (ns : List (List ℕ)) → IsRenaming f ns
        → (n : List ℕ) → Contains ns n → f (f n) ≡ f n }
{}

/// Of the symbols of a text none is left out before the wide limit, nor a pair of its rules, here of two. A copier has a copy
/// for each argument, with the names of its place.
pub fn none_is_left_out_below_the_limits()
    ensures symbol { (ss : List Symbol) (s : Symbol) → is_known s.text ss ≡ false
        → length ss < 65536 → noted ss s ≡ ss ++ s ∷ [] }
    ensures pair { pairs_of (pieces (codes "{A><B; C(x)> <D(x)} <|>"))
        ≡ (codes "A", codes "B") ∷ (codes "C", codes "D") ∷ [] }
    ensures all { (s : List ℕ) (n : ℕ) → length (copies s n) ≡ n }
    ensures copy { (s : List ℕ) (n k : ℕ) → k < n → slice_index_or (copies s n) k []
        ≡ agent_text s (name_text k ∷ name_text (k + 26) ∷ []) }
{}

/// A line that submits a job is read as the submit of its name and its budget, and of a system that is written as its rules
/// and the renamed configuration are. A name of the job's occurs there as often as it does in the job, and one that is free
/// and may stand in a text is free there, too.
pub fn a_line_submits_one_job()
    ensures read { (line name : List ℕ) (j : JobParts) (s : SystemParts) (most : Option ℕ)
        → (is : Submits line j) → ReadsLine line (Ok (Asks (command.Submit name s most)))
        → (name ≡ j.name) × (most ≡ j.budget)
        × (system_of s ≡ system_of (record { rules = j.rules; config = is.config })) }
    ensures names { (line : List ℕ) (j : JobParts) → (is : Submits line j) → (n : ℕ)
        → 1 ≤ occurrences n (configuration_names j.config)
        → occurrences (is.rename n) (configuration_names is.config)
        ≡ occurrences n (configuration_names j.config) }
    ensures free { (line : List ℕ) (j : JobParts) → (is : Submits line j) → (n : ℕ)
        → IsFree j.config n → n ≤ MAX_NAME → IsFree is.config n }
{
    ic_commands::laws::one_line_reading();
}

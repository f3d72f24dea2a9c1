//! What is proved of the definitions alone: each law is the contract of a function that does nothing, or calls the laws
//! that it comes of.

ghost use Rattle.std.specs.Prelude.{◌≡◌, ◌↔◌, ◌⊎◌, ◌≤◌, ℕ, List, [], ◌∷◌, ◌++◌, Contains, None, Option, Some, Ok, Err, length, map, true, false};
ghost use Rattle.std.specs.Io.KnownBytes.{Appends};
ghost use Rattle.std.specs.List.{flat_map, fold};
ghost use Rattle.ic_term.specs.Configuration.{Configuration};
ghost use Rattle.ic_jobs.specs.Job.{JobParts, IsJob};
ghost use Rattle.ic_jobs.specs.Table.{IsTable, job_names};
ghost use Rattle.ic_commands.specs.declared.line.Line.TheVariants.{Command as Asks};
ghost use Rattle.ic_commands.specs.LineText.{ReadsLine};
ghost use Rattle.ic_text.specs.declared.limits.TheConstants.{MAX_TEXT};
ghost use Rattle.ic_output.specs.Output.{AppendsFront};
ghost use Rattle.ic_slots.specs.Held.{IsHeld, the_table};
ghost use Rattle.ic_dump.specs.declared.fault.DiskDumpFault.TheVariants.{Dump};
ghost use Rattle.ic_dump.specs.declared.fault.DumpFault.{DumpFault};
ghost use Rattle.ic_dump.specs.declared.fault.DumpFault.TheVariants.{NoJob, TooLong};
ghost use Rattle.ic_dump.specs.Dumping.{SaysOf, WritesFound, WritesFoundPart, all_dump_faults, chosen, dump_fault_number, dumped, first_missing, is_chosen, AreHad};
ghost use Rattle.ic_dump.specs.Submitting.{HasFreeNamesOfTexts, IsFree, Submits, accepted, begun_again, read_again, submit_of, table_after};
ghost use Rattle.ic_lines.specs.Lines.{lines};
ghost use Rattle.ic_lines.specs.Serving.{IsServed};
ghost use Rattle.ic_dump.specs.Telling.{has_names_of_texts, told, job_line, told_system, system_of};

/// The line of a job, where it isn't longer than a line may be, is read as the submit of a job of its name and budget.
/// The rules are written as the job's rules are, and the configuration as the job's own is, except for the names of
/// wires.
pub fn a_line_submits_its_job()
    ensures { (j : JobParts) → IsJob j → length (job_line j) ≤ MAX_TEXT → Submits (job_line j) j }
{
    ic_term::laws::third_occurrence_is_the_first();
    ic_rules::laws::level_rules_are_their_own_mirrors();
    ic_text::laws::printed_spells();
    ic_text::laws::one_system_reading();
    ic_naming::laws::names_are_told_apart();
    ic_commands::laws::commands_ask();
}

/// The lines of a table's jobs, taken in its order by a table without jobs, leave the jobs as they begin. They have the
/// same names in the same order with the same budgets, systems that are written as the told ones are, and no rounds
/// made.
pub fn the_lines_of_a_table_fill_an_empty_one()
    ensures read { (j : JobParts) → IsJob j → length (job_line j) ≤ MAX_TEXT →
        ReadsLine (job_line j) (Ok (Asks (submit_of j))) }
    ensures alike { (j : JobParts) → IsJob j →
        system_of (read_again j) ≡ system_of (told_system j) }
    ensures filled { (t : List JobParts) → IsTable t →
        fold table_after [] (map submit_of t) ≡ map begun_again t }
    ensures name { (j : JobParts) → (begun_again j).name ≡ j.name }
    ensures budget { (j : JobParts) → (begun_again j).budget ≡ j.budget }
    ensures rounds { (j : JobParts) → (begun_again j).rounds ≡ 0 }
{
    ic_term::laws::third_occurrence_is_the_first();
    ic_rules::laws::level_rules_are_their_own_mirrors();
    ic_text::laws::printed_spells();
    ic_text::laws::one_system_reading();
    ic_commands::laws::commands_ask();
}

/// What a server makes of a dump: its lines are those of the jobs that were asked for, one each. Served from a table
/// without jobs on, each is answered `accepted`, and they leave these jobs as they begin, in their order.
pub fn a_dump_is_served_as_its_jobs()
    ensures lines { (names : List (List ℕ)) (t : List JobParts) (bytes : List ℕ) →
        IsTable t → dumped names t ≡ Ok bytes → lines bytes ≡ map job_line (chosen names t) }
    ensures served { (names : List (List ℕ)) (t : List JobParts) (bytes : List ℕ) →
        IsTable t → dumped names t ≡ Ok bytes →
        IsServed [] (lines bytes) (flat_map accepted (chosen names t))
        (map begun_again (chosen names t)) }
{
    ic_term::laws::third_occurrence_is_the_first();
    ic_rules::laws::level_rules_are_their_own_mirrors();
    ic_text::laws::printed_spells();
    ic_text::laws::one_system_reading();
    ic_text::laws::tokens_keep_bytes();
    ic_commands::laws::commands_ask();
    ic_lines::laws::lines_are_parted_by_line_feeds();
}

/// A configuration whose names may all stand in a text is told with them.
pub fn names_of_texts_are_kept()
    ensures { (c : Configuration) → has_names_of_texts c ≡ true → told c ≡ c }
{}

/// What is read back of a job has the free names of the job, and no others, where these may stand in a text. So jobs
/// that differ in a free name have two lines.
pub fn free_names_are_read_again()
    ensures read { (j : JobParts) → IsJob j → HasFreeNamesOfTexts j.config → (n : ℕ) →
        IsFree (read_again j).config n ↔ IsFree j.config n }
    ensures lines { (j k : JobParts) (n : ℕ) → IsJob j → IsJob k →
        HasFreeNamesOfTexts j.config → HasFreeNamesOfTexts k.config →
        length (job_line j) ≤ MAX_TEXT → job_line j ≡ job_line k →
        IsFree j.config n ↔ IsFree k.config n }
{
    ic_term::laws::third_occurrence_is_the_first();
    ic_rules::laws::level_rules_are_their_own_mirrors();
    ic_text::laws::printed_spells();
    ic_text::laws::one_system_reading();
    ic_naming::laws::names_are_told_apart();
    ic_commands::laws::commands_ask();
    ic_commands::laws::one_line_reading();
}

/// Where no name is given, all jobs are asked for.
pub fn all_jobs_are_asked_for_without_names()
    ensures { (t : List JobParts) → chosen [] t ≡ t }
{}

/// A job is asked for exactly where it has one of the names, or no name is given. The jobs that are asked for stand in
/// the order of the table: going through it, each is taken once, and every other job is passed over.
pub fn jobs_are_asked_for_by_their_names()
    ensures asked { (names : List (List ℕ)) (j : JobParts) →
        (is_chosen names j ≡ true) ↔ ((names ≡ []) ⊎ Contains names j.name) }
    ensures none { (names : List (List ℕ)) → chosen names [] ≡ [] }
    ensures taken { (names : List (List ℕ)) (j : JobParts) (t : List JobParts) →
        is_chosen names j ≡ true → chosen names (j ∷ t) ≡ j ∷ chosen names t }
    ensures passed { (names : List (List ℕ)) (j : JobParts) (t : List JobParts) →
        is_chosen names j ≡ false → chosen names (j ∷ t) ≡ chosen names t }
{}

/// The name that is refused is the first of those given that no job of the table has: each name before it is a job's. None is
/// refused exactly where each is a job's.
pub fn the_first_missing_name_is_told()
    ensures first { (names before after : List (List ℕ)) (name : List ℕ) (t : List JobParts) →
        names ≡ before ++ name ∷ after → AreHad t before → ¬ Contains (job_names t) name →
        first_missing names t ≡ Some name }
    ensures none { (names : List (List ℕ)) (t : List JobParts) →
        (first_missing names t ≡ None) ↔ AreHad t names }
{}

/// The lasting numbers of the faults, which are all that there are.
pub fn numbers_are_lasting()
    ensures all { (fault : DumpFault) → (name : List ℕ) × Contains (all_dump_faults name) fault }
    ensures numbers { (name : List ℕ) → map dump_fault_number (all_dump_faults name)
        ≡ 1 ∷ 2 ∷ 3 ∷ 4 ∷ [] }
{}

/// A dump of a disk is that of the table which the disk holds: its lines are written, or a front of them
/// where the writer fails, and its refusals are those of this table.
pub fn a_dump_of_a_disk_is_that_of_its_table()
    ensures written { (names : List (List ℕ)) (file : List ℕ) (t : List JobParts)
        (old new : Option (List ℕ)) → IsHeld (the_table t) file → WritesFound names true file old new →
        (lines : List ℕ) × (dumped names t ≡ Ok lines) × Appends old new lines }
    ensures cut { (names : List (List ℕ)) (file : List ℕ) (t : List JobParts)
        (old new : Option (List ℕ)) → IsHeld (the_table t) file →
        WritesFoundPart names true file old new →
        (lines : List ℕ) × (dumped names t ≡ Ok lines) × AppendsFront old new [] lines }
    ensures no_job { (names : List (List ℕ)) (file name : List ℕ) (t : List JobParts) →
        IsHeld (the_table t) file → SaysOf names true file (Dump (NoJob name)) →
        dumped names t ≡ Err (NoJob name) }
    ensures too_long { (names : List (List ℕ)) (file name : List ℕ) (t : List JobParts) →
        IsHeld (the_table t) file → SaysOf names true file (Dump (TooLong name)) →
        dumped names t ≡ Err (TooLong name) }
{
    ic_slots::laws::one_is_held();
}

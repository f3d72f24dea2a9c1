//! When a dump is refused, and what it is.

ghost use Rattle.std.specs.Prelude.{◌≡◌, ◌<◌, ◌≤◌, ℕ, List, ◌∷◌, [], ◌++◌, Contains, Ok, Err, length};
ghost use Rattle.std.specs.List.{AllByRecursion, flat_map};
ghost use Rattle.ic_jobs.specs.Job.{JobParts};
ghost use Rattle.ic_jobs.specs.Table.{job_names};
ghost use Rattle.ic_text.specs.declared.limits.TheConstants.{MAX_TEXT};
ghost use Rattle.ic_dump.specs.Dumping.{chosen, dumped, AreHad};
ghost use Rattle.ic_dump.specs.Telling.{job_line};
ghost use Rattle.ic_dump.specs.declared.fault.DumpFault.TheVariants.{NoJob, TooLong};

/// A dump is refused for the first name that no job has, however long the lines of other jobs are. If each name is a job's, it
/// is refused for the first job that is asked for and has a line longer than a line may be. Else it has the lines of all jobs
/// that are asked for, each with a line feed.
pub fn a_dump_is_refused_or_whole()
    ensures no_job { (names before after : List (List ℕ)) (name : List ℕ) (t : List JobParts)
        → names ≡ before ++ name ∷ after → AreHad t before → ¬ Contains (job_names t) name
        → dumped names t ≡ Err (NoJob name) }
    ensures too_long { (names : List (List ℕ)) (t before after : List JobParts) (j : JobParts)
        → AreHad t names → chosen names t ≡ before ++ j ∷ after
        → AllByRecursion (λ k. length (job_line k) ≤ MAX_TEXT) before
        → MAX_TEXT < length (job_line j) → dumped names t ≡ Err (TooLong j.name) }
    ensures whole { (names : List (List ℕ)) (t : List JobParts) → AreHad t names
        → AllByRecursion (λ k. length (job_line k) ≤ MAX_TEXT) (chosen names t)
        → dumped names t ≡ Ok (flat_map (λ k. job_line k ++ 10 ∷ []) (chosen names t)) }
{
    ic_dump::laws::the_first_missing_name_is_told();
}

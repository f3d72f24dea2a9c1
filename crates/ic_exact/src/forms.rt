//! Which bytes are forms of a table.

ghost use Rattle.std.specs.Prelude.{◌≡◌, List, None};
ghost use Rattle.std.specs.List.{AllByRecursion};
ghost use Rattle.ic_jobs.specs.Job.{JobParts};
ghost use Rattle.ic_codec.specs.Tables.{old_table_bytes, IsFormOf};

/// A table in which no job has a budget has an old form, too, whatever jobs it has.
pub fn tables_without_budgets_have_an_old_form()
    ensures { (t : List JobParts) → AllByRecursion (λ j. j.budget ≡ None) t
        → IsFormOf t (old_table_bytes t) }
{}

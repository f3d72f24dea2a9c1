//! The job table: its jobs, how it is restored, copied and compared.

ghost use Rattle.std.specs.Prelude.{◌≡◌, IfOk};

mod commands;
mod places;
mod rounds;

use self::places::{are_distinct, place_of};
use crate::job::Job;
use crate::limits::MAX_JOBS;
use crate::shown::JobList;
use ic_rules::JobName;
use std::alloc::{AllocError, Global};
use std::marker::Model;

/// Jobs in the order in which they began, at most 32, no two of one name. It keeps the
/// allocator that it was made with, and the list of its jobs until one changes.
#[derive(Drop)]
pub struct Table {
    jobs: Vec<Job>,
    kept_list: Option<JobList>,
}

impl Model for Table {
    ghost use Rattle.std.specs.Prelude.{◌≡◌, List, IfSome};
    ghost use Rattle.std.specs.Coded.{coded_list};
    ghost use Rattle.ic_jobs.specs.Job.{JobParts};
    ghost use Rattle.ic_jobs.specs.lemmas.Codings.{coded_job};
    ghost use Rattle.ic_jobs.specs.Shown.{listed};
    ghost use Rattle.ic_jobs.specs.Table.{IsTable};

    ghost Value = { List JobParts };

    ghost coded = { coded_list coded_job };

    ghost view = { λ t. t.jobs.items };

    ghost invariant = { λ t. IsTable t.jobs.items
        × IfSome t.kept_list (λ list. list ≡ listed t.jobs.items) };
}

impl Table {
    ghost use Rattle.std.specs.Prelude.{◌↔◌, [], IsSome, IfSome};
    ghost use Rattle.std.specs.Option.{option_copied};
    ghost use Rattle.ic_jobs.specs.Table.{IsTable, job_named};

    /// No jobs. Later calls take their memory from the allocator.
    pub fn new(alloc: Global) -> Table
        ensures { result ≡ [] }
    {
        Table {
            jobs: Vec::new(alloc),
            kept_list: None,
        }
    }

    /// The table of these jobs, if they are at most 32 and no two have one name.
    pub fn restore(jobs: Vec<Job>) -> Option<Table>
        ensures table { IsSome result ↔ IsTable jobs.items }
        ensures jobs { IfSome result (λ table. table ≡ jobs.items) }
    {
        if jobs.len() > MAX_JOBS || !are_distinct(&jobs) {
            return None;
        }
        Some(Table {
            jobs,
            kept_list: None,
        })
    }

    /// A copy, equal to its source, whose jobs share their rules and configurations.
    pub fn copy(&self, alloc: Global) -> Result<Table, AllocError>
        ensures { IfOk result (λ copy. copy ≡ self.now) }
    {
        let mut jobs = Vec::with_capacity(alloc, self.jobs.len())?;
        for job in &self.jobs {
            jobs.push(job.copy()?)?;
        }
        Ok(Table {
            jobs,
            kept_list: None,
        })
    }

    /// The jobs in the order in which they began.
    pub fn jobs(&self) -> &[Job]
        ensures jobs { result.now ≡ self.now }
        ensures sound { IsTable self.now }
    {
        self.jobs.as_slice()
    }

    /// The job of a name.
    pub fn get(&self, name: JobName) -> Option<&Job>
        ensures job { option_copied result ≡ job_named name self.now }
        ensures sound { IsTable self.now }
    {
        let Some(place) = place_of(&self.jobs, name) else {
            return None;
        };
        Some(&self.jobs[place])
    }
}

impl PartialEq for Table {
    ghost use Rattle.std.specs.Cmp.{partial_equiv_from_equiv};
    ghost use Rattle.ic_jobs.specs.lemmas.JobLaws.{table_eq-equivalence};
    ghost use Rattle.ic_jobs.specs.Job.{table_eq};

    ghost eq = { table_eq };

    ghost laws = { partial_equiv_from_equiv table_eq-equivalence };

    fn eq(&self, other: &Table) -> bool {
        self.jobs == other.jobs
    }
}

impl Eq for Table {
    ghost use Rattle.ic_jobs.specs.lemmas.JobLaws.{table_eq-equivalence};

    ghost laws = { table_eq-equivalence };
}

//! Whether the jobs of a table are those that are to be there.

ghost use Rattle.std.specs.Prelude.{◌≡◌, not, IfNone, IfSome};
ghost use Rattle.ic_term.specs.Configuration.{configuration_eq};
ghost use Rattle.ic_rules.specs.RuleSet.{rules_eq};
ghost use Rattle.ic_batch.specs.Faults.{AreSame, Differs, IsSame, IsTaken};

use crate::fault::{BatchFault, Difference};
use crate::jobs::NewJob;
use ic_jobs::{Job, Table};

/// The first of the jobs whose name another job has, as a fault.
pub(crate) fn first_taken(table: &Table, jobs: &[NewJob]) -> Option<BatchFault>
    ensures taken { IfSome result (IsTaken jobs.now table.now) }
    ensures none { IfNone result (AreSame jobs.now table.now) }
{
    for new in jobs {
        if let Some(job) = table.get(new.name)
            && let Some(difference) = difference_of(new, job)
        {
            return Some(BatchFault::Taken(new.name, difference));
        }
    }
    None
}

/// The first thing in which a job differs from the one that is to be there. The configuration with which a
/// job began isn't known once it has made rounds.
fn difference_of(new: &NewJob, job: &Job) -> Option<Difference>
    ensures differs { IfSome result (Differs new.now job.now) }
    ensures same { IfNone result (IsSame new.now job.now) }
{
    if has_other_rules(new, job) {
        return Some(Difference::Rules);
    }
    if new.budget != job.budget() {
        return Some(Difference::Budget);
    }
    if job.rounds() == 0 && has_other_config(new, job) {
        return Some(Difference::Start);
    }
    None
}

/// Whether a job has other rules than the one that is to be there.
fn has_other_rules(new: &NewJob, job: &Job) -> bool
    ensures { result ≡ not (rules_eq new.now.system.rules job.now.rules) }
{
    let same = **new.system.rules() == *job.rules();
    !same
}

/// Whether a job has another configuration than the one that is to be there.
fn has_other_config(new: &NewJob, job: &Job) -> bool
    ensures { result ≡ not (configuration_eq new.now.system.config job.now.config) }
{
    let same = *new.system.config() == *job.config();
    !same
}

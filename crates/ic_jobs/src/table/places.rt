//! Places in a list of jobs.

ghost use Rattle.std.specs.Prelude.{◌≡◌, ◌<◌, ◌↔◌, IsTrue, IsSome, IfSome, Some, length};
ghost use Rattle.std.specs.List.{position_from, AllByRecursion, IsDistinct};
ghost use Rattle.std.specs.Bool.{OnTrue};
ghost use Rattle.std.specs.Str.{bytes_eq};
ghost use Rattle.ic_jobs.specs.Job.{IsJob};
ghost use Rattle.ic_jobs.specs.Table.{IsTable, is_named, job_names};
ghost use Rattle.ic_jobs.specs.Landing.{running_from, due_place, Awaits};

use crate::job::Job;
use ic_flat::Flat;
use ic_rules::{JobName, RuleSet};

/// The place of the job of a name.
pub(super) fn place_of(jobs: &[Job], name: JobName) -> Option<usize>
    ensures place { result ≡ position_from (is_named name) 0 jobs.now }
    ensures within { IfSome result (λ place. place < length jobs.now) }
{
    for (place, job) in jobs.iter().enumerate() {
        if job.is_named(&name) {
            return Some(place);
        }
    }
    None
}

/// Whether no two jobs have one name.
pub(super) fn are_distinct(jobs: &[Job]) -> bool
    ensures distinct { IsTrue result ↔ IsDistinct bytes_eq (job_names jobs.now) }
    ensures sound { OnTrue result (AllByRecursion IsJob jobs.now) }
{
    for (place, job) in jobs.iter().enumerate() {
        if place_of(&jobs[place + 1..], job.name()).is_some() {
            return false;
        }
    }
    true
}

/// The place of the first running job at this place or after it.
fn running_from(jobs: &[Job], after: usize) -> Option<usize>
    ensures place { result ≡ running_from after jobs.now }
    ensures within { IfSome result (λ place. place < length jobs.now) }
{
    for place in after..jobs.len() {
        if jobs[place].state().is_running() {
            return Some(place);
        }
    }
    None
}

/// The place of the first running job at this place or after it, or else of the first running job.
pub(super) fn due_place(jobs: &[Job], after: usize) -> Option<usize>
    ensures place { result ≡ due_place jobs.now after }
    ensures within { IfSome result (λ place. place < length jobs.now) }
{
    match running_from(jobs, after) {
        Some(place) => Some(place),
        None => running_from(jobs, 0),
    }
}

/// The place of the running job of a name, if it has these rules, this whole configuration and
/// these rounds.
pub(super) fn awaited_place(
    jobs: &[Job],
    name: JobName,
    rules: &RuleSet,
    config: &Flat,
    rounds: u64,
) -> Option<usize>
    requires { IsTable jobs.now }
    ensures place { IfSome result (λ place. position_from (is_named name) 0 jobs.now ≡ Some place) }
    ensures within { IfSome result (λ place. place < length jobs.now) }
    ensures awaited { IsSome result ↔ Awaits jobs.now name rules.now config.now rounds }
{
    let Some(place) = place_of(jobs, name) else {
        return None;
    };
    let job = &jobs[place];
    if job.state().is_running() && job.agrees(rules, config, rounds) {
        Some(place)
    } else {
        None
    }
}

//! Making rounds until no job goes on.

ghost use Rattle.std.specs.Prelude.{◌≡◌, ◌≤◌, ◌<◌, ◌+◌, ◌*◌, ◌/◌, drop, Some, IfErr, IfSome, IfNone, OnOk, true, false, slice_get};
ghost use Rattle.std.specs.List.{AllByRecursion};
ghost use Rattle.ic_jobs.specs.Job.{JobParts};
ghost use Rattle.ic_book.specs.Book.{disk_of, is_broken, log_of, table_of};
ghost use Rattle.ic_book.specs.Weight.{weight_of};
ghost use Rattle.ic_serving.specs.declared.limits.TheConstants.{PAGE_WEIGHT};
ghost use Rattle.ic_serving.specs.Booked.{unkept_of, IsAllKept};
ghost use Rattle.ic_serving.specs.Faults.{ComesAlone, ComesInLine};
ghost use Rattle.ic_serving.specs.Moments.{FaultLeaves};
ghost use Rattle.ic_batch.specs.Calls.{events_in};
ghost use Rattle.ic_batch.specs.Faults.{ComesOverBroken, ComesWith};
ghost use Rattle.ic_batch.specs.Way.{goes_on, AreWays};
ghost use Rattle.ic_batch.specs.inner.Staying.{Leads};

use ic_book::Book;
use ic_disk::Disk;
use ic_jobs::{Job, State};
use ic_pool::Gate;
use ic_serving::{Makers, PAGE_WEIGHT, ServeFault, count_running, keep_each, make_round};
use std::alloc::Global;
use std::sync::Wait;
use std::thread::Threads;

/// Whether a batch goes on with a job: it runs, and has made fewer rounds than it may.
fn goes_on(job: &Job, most: u64) -> bool
    ensures { result ≡ goes_on most job.now }
{
    matches!(job.state(), State::Running) && job.rounds() < most
}

/// The place of the first job that goes on, from a place on.
fn place_from(jobs: &[Job], from: usize, most: u64) -> Option<usize>
    ensures goes { IfSome result (λ place. (job : JobParts)
        × (slice_get jobs.now place ≡ Some job) × (goes_on most job ≡ true)) }
    ensures none { IfNone result
        (AllByRecursion (λ job. goes_on most job ≡ false) (drop from jobs.now)) }
{
    for place in from..jobs.len() {
        if goes_on(&jobs[place], most) {
            return Some(place);
        }
    }
    None
}

/// The place of the next job that goes on: the first one from a place on or, where there is none, the first of all.
fn next_place(jobs: &[Job], from: usize, most: u64) -> Option<usize>
    ensures goes { IfSome result (λ place. (job : JobParts)
        × (slice_get jobs.now place ≡ Some job) × (goes_on most job ≡ true)) }
    ensures none { IfNone result (AllByRecursion (λ job. goes_on most job ≡ false) jobs.now) }
{
    match place_from(jobs, from, most) {
        Some(place) => Some(place),
        None => place_from(jobs, 0, most),
    }
}

/// Makes rounds of the jobs that go on, one of each in turn, and keeps them after each `every` of them. The gate is told of each.
pub(crate) fn make_rounds<T: Threads + Wait + Copy + Send + 'static, D: Disk, G: Gate>(
    rt: &T,
    alloc: Global,
    book: &mut Book<D>,
    most: u64,
    workers: usize,
    every: u64,
    gate: &G,
    makers: &mut Makers,
) -> Result<(), ServeFault>
    requires workers { 1 ≤ workers }
    requires every { 1 ≤ every }
    ensures leads { Leads (AreWays most (table_of book.old)) book.old book.new }
    ensures fault { FaultLeaves ComesInLine result book.old book.new }
    ensures comes { IfErr result (ComesWith most (table_of book.new)) }
    ensures broken { is_broken book.old ≡ true → IfErr result ComesOverBroken }
    ensures still { is_broken book.old ≡ true → OnOk result (is_broken book.new ≡ true) }
    ensures alone { IfErr result ComesAlone }
    ensures few_unkept { IsAllKept book.old → unkept_of book.new ≤ every }
    ensures few_calls { weight_of (log_of book.old)
        + events_in (table_of book.old) (table_of book.new) < PAGE_WEIGHT
        → D.clock (disk_of book.new) ≤ D.clock (disk_of book.old)
        + 6 * (events_in (table_of book.old) (table_of book.new) / every) }
    ensures ended { OnOk result
        (AllByRecursion (λ job. goes_on most job ≡ false) (table_of book.new)) }
{
    book.facts();
    ic_jobs::laws::other_jobs_stay();
    ic_jobs::laws::due_is_the_next_running_job();
    ic_jobs::laws::what_is_due_is_awaited();
    makers.expect(u64::MAX);
    let mut made: u64 = 0;
    let mut from = 0;
    loop {
        let Some(place) = next_place(book.table().jobs(), from, most) else {
            return Ok(());
        };
        from = place.saturating_add(1);
        make_round(rt, alloc, book, place, workers, PAGE_WEIGHT, makers)?;
        gate.landed(count_running(book.table().jobs()));
        made = made.wrapping_add(1);
        keep_each(book, made, every)?;
    }
}

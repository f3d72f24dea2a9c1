//! Submitting the jobs that aren't there.

ghost use Rattle.std.specs.Prelude.{◌≡◌, ◌+◌, ◌*◌, ◌<◌, ◌≤◌, length, min, not, is_some, true, IfErr, IfOk, OnOk};
ghost use Rattle.std.specs.Bool.{OnFalse, OnTrue};
ghost use Rattle.std.specs.List.{IsDistinct};
ghost use Rattle.std.specs.Str.{bytes_eq};
ghost use Rattle.ic_book.specs.Book.{disk_of, is_broken, keeper_of, log_of, table_of};
ghost use Rattle.ic_book.specs.declared.limits.TheConstants.{SYSTEM_WEIGHT};
ghost use Rattle.ic_book.specs.Weight.{weight_of};
ghost use Rattle.ic_serving.specs.declared.limits.TheConstants.{PAGE_WEIGHT};
ghost use Rattle.ic_jobs.specs.Table.{job_named};
ghost use Rattle.ic_jobs.specs.declared.limits.TheConstants.{MAX_JOBS};
ghost use Rattle.ic_serving.specs.Booked.{unkept_of, IsAllKept};
ghost use Rattle.ic_serving.specs.Faults.{ComesAlone, ComesInLine, ComesWithoutRound};
ghost use Rattle.ic_serving.specs.Moments.{FaultLeaves};
ghost use Rattle.ic_batch.specs.Calls.{come_to};
ghost use Rattle.ic_batch.specs.Faults.{ComesOverBroken, HasNoRoom};
ghost use Rattle.ic_batch.specs.Jobs.{names, submit_of};
ghost use Rattle.ic_batch.specs.Way.{all_of, missing};
ghost use Rattle.ic_batch.specs.inner.Staying.{AreBegun, AreKept, HaveCome, Leads};

use crate::jobs::NewJob;
use ic_book::Book;
use ic_disk::Disk;
use ic_jobs::{Command, MAX_JOBS, Table};
use ic_serving::{PAGE_WEIGHT, ServeFault, keep_all, take_command};
use std::alloc::{AllocError, Global};

/// Whether a table has room for those of the jobs that it doesn't have.
pub(crate) fn has_room(table: &Table, jobs: &[NewJob]) -> bool
    ensures room { OnTrue result (length (missing table.now jobs.now) + length table.now ≤ MAX_JOBS) }
    ensures full { OnFalse result (HasNoRoom jobs.now table.now) }
{
    let held = table.jobs().len();
    count_missing(table, jobs) <= MAX_JOBS - held
}

/// How many of the jobs a table doesn't have.
fn count_missing(table: &Table, jobs: &[NewJob]) -> usize
    ensures { result ≡ length (missing table.now jobs.now) }
{
    let mut count = 0;
    for new in jobs {
        if is_missing(table, new) {
            count += 1;
        }
    }
    count
}

/// Submits each of the jobs that the table doesn't have, and keeps them by one keep.
pub(crate) fn submit_missing<D: Disk>(
    alloc: Global,
    book: &mut Book<D>,
    jobs: &[NewJob],
) -> Result<(), ServeFault>
    requires distinct { IsDistinct bytes_eq (names jobs.now) }
    requires room { length (missing (table_of book.old) jobs.now) + length (table_of book.old) ≤ MAX_JOBS }
    ensures leads { Leads (AreBegun jobs.now (table_of book.old)) book.old book.new }
    ensures all { OnOk result (table_of book.new ≡ all_of jobs.now (table_of book.old)) }
    ensures fault { FaultLeaves ComesInLine result book.old book.new }
    ensures comes { IfErr result ComesWithoutRound }
    ensures broken { is_broken book.old ≡ true → IfErr result ComesOverBroken }
    ensures still { is_broken book.old ≡ true → OnOk result (is_broken book.new ≡ true) }
    ensures alone { IfErr result ComesAlone }
    ensures kept { OnOk result (IsAllKept book.old → IsAllKept book.new) }
    ensures few_calls { weight_of (log_of book.old)
        + SYSTEM_WEIGHT * come_to (table_of book.old) (table_of book.new) < PAGE_WEIGHT
        → D.clock (disk_of book.new) ≤ D.clock (disk_of book.old)
        + 6 * min (come_to (table_of book.old) (table_of book.new)) 1 }
    ensures come { OnOk result (weight_of (log_of book.old)
        + SYSTEM_WEIGHT * come_to (table_of book.old) (table_of book.new) < PAGE_WEIGHT
        → AreKept book.old book.new) }
    ensures few_unkept { IsAllKept book.old → unkept_of book.new ≤ length jobs.now }
{
    let before = book.table();
    let held = count_jobs(before);
    take_missing(alloc, book, jobs)?;
    let after = book.table();
    let same = count_jobs(after) == held;
    if same {
        return Ok(());
    }
    keep_all(book)?;
    Ok(())
}

/// Takes the submits of the jobs that the table doesn't have. They aren't kept yet.
fn take_missing<D: Disk>(
    alloc: Global,
    book: &mut Book<D>,
    jobs: &[NewJob],
) -> Result<(), ServeFault>
    requires distinct { IsDistinct bytes_eq (names jobs.now) }
    requires room { length (missing (table_of book.old) jobs.now) + length (table_of book.old) ≤ MAX_JOBS }
    ensures leads { Leads (AreBegun jobs.now (table_of book.old)) book.old book.new }
    ensures all { OnOk result (table_of book.new ≡ all_of jobs.now (table_of book.old)) }
    ensures more { OnOk result (length (table_of book.old) ≤ length (table_of book.new)) }
    ensures fault { FaultLeaves ComesInLine result book.old book.new }
    ensures comes { IfErr result ComesWithoutRound }
    ensures broken { is_broken book.old ≡ true → IfErr result ComesOverBroken }
    ensures still { is_broken book.old ≡ true → OnOk result (is_broken book.new ≡ true) }
    ensures alone { IfErr result ComesAlone }
    ensures kept { OnOk result (IsAllKept book.old
        → unkept_of book.new ≤ come_to (table_of book.old) (table_of book.new)) }
    ensures keeper { weight_of (log_of book.old)
        + SYSTEM_WEIGHT * come_to (table_of book.old) (table_of book.new) < PAGE_WEIGHT
        → keeper_of book.new ≡ keeper_of book.old }
    ensures come { OnOk result (weight_of (log_of book.old)
        + SYSTEM_WEIGHT * come_to (table_of book.old) (table_of book.new) < PAGE_WEIGHT
        → HaveCome book.old book.new) }
    ensures few_unkept { IsAllKept book.old → unkept_of book.new ≤ length jobs.now }
{
    book.facts();
    ic_jobs::laws::other_jobs_stay();
    for new in jobs {
        if is_missing(book.table(), new) {
            let command = submission(alloc, new)?;
            take_command(alloc, book, command, PAGE_WEIGHT)?;
        }
    }
    Ok(())
}

/// How many jobs a table has.
fn count_jobs(table: &Table) -> usize
    ensures { result ≡ length table.now }
{
    table.jobs().len()
}

/// Whether no job has its name.
fn is_missing(table: &Table, new: &NewJob) -> bool
    ensures { result ≡ not (is_some (job_named new.now.name table.now)) }
{
    table.get(new.name).is_none()
}

/// The command that submits a job.
fn submission(alloc: Global, new: &NewJob) -> Result<Command, AllocError>
    ensures { IfOk result (λ command. command ≡ submit_of new.now) }
{
    let system = new.system.copy(alloc)?;
    Ok(Command::Submit(new.name, system, new.budget))
}

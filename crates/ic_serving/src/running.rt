//! The rounds of a run over a book.

ghost use Rattle.std.specs.Prelude.{true, false, ◌≡◌, ◌≢◌, ◌↔◌, ◌⊎◌, ◌<◌, ◌≤◌, ◌+◌, ◌-◌, ◌*◌, ◌/◌, ◌%◌, ◌^◌, [], IsOk, IsErrOf, OnOk, OnErr, IfOk, IfErr, count_by, length};
ghost use Rattle.ic_book.specs.Book.{is_broken, number_of, log_of, table_of, kept_of, keeper_of, disk_of};
ghost use Rattle.ic_jobs.specs.State.{is_running};
ghost use Rattle.ic_lines.specs.Turns.{turns, after_events};
ghost use Rattle.ic_serving.specs.Booked.{last_kept, unkept_of, Begins, IsAllKept};
ghost use Rattle.ic_serving.specs.Parts.{IsBeforeRound, IsKeptWithin};
ghost use Rattle.ic_book.specs.Moves.{keeps};
ghost use Rattle.ic_book.specs.declared.fault.BookFault.TheVariants as of_book;
ghost use Rattle.ic_serving.specs.Answered.{EndsWith};
ghost use Rattle.ic_serving.specs.Faults.{ComesAlone, ComesBroken, ComesInLine, ComesUnmade, ComesWithoutRound};
ghost use Rattle.ic_serving.specs.Grown.{CallsFew, IsLimit, IsSamePage, GoesOn, HasRoom};
ghost use Rattle.ic_serving.specs.Moments.{FaultLeaves, Leaves, IsKeptOrNow};

use crate::fault::ServeFault;
use crate::makers::Makers;
use crate::rounds::{keep_all, make_round};
use ic_book::Book;
use ic_disk::Disk;
use ic_jobs::{Job, State};
use ic_pool::Gate;
use std::alloc::Global;
use std::sync::Wait;
use std::thread::Threads;

/// Makes at most so many rounds of running jobs in turn, and keeps what they leave: after each
/// `every` rounds and halts, and at the end. Answers how many there were. The gate is told of each.
pub(crate) fn run<T: Threads + Wait + Copy + Send + 'static, D: Disk, G: Gate>(
    rt: &T,
    alloc: Global,
    book: &mut Book<D>,
    count: u64,
    workers: usize,
    every: u64,
    limit: u64,
    gate: &G,
    makers: &mut Makers,
) -> Result<u64, ServeFault>
    requires workers { 1 ≤ workers }
    requires every { 1 ≤ every }
    requires limit { IsLimit limit }
    ensures count { IfOk result (λ made. made ≡ length (turns count 0 (table_of book.old))) }
    ensures table { OnOk result
        (table_of book.new ≡ after_events (table_of book.old) (turns count 0 (table_of book.old))) }
    ensures kept { OnOk result (IsAllKept book.new) }
    ensures whole { OnOk result (is_broken book.new ≡ false) }
    ensures last { OnOk result (last_kept book.new ≡ table_of book.new) }
    ensures made { OnOk result (EndsWith keeps book.old book.new) }
    ensures page { OnOk result (HasRoom limit (turns count 0 (table_of book.old)) book.old
        → GoesOn (turns count 0 (table_of book.old)) book.old book.new) }
    ensures begun { OnErr result (Begins limit
        (turns count 0 (table_of book.old)) book.old book.new) }
    ensures fault { FaultLeaves ComesInLine result book.old book.new }
    ensures idle { turns count 0 (table_of book.old) ≡ [] → IfErr result ComesWithoutRound }
    ensures unmade { IfErr result (λ fault. ComesUnmade fault ⊎ IsBeforeRound
        (table_of book.old) (turns count 0 (table_of book.old)) (table_of book.new)) }
    ensures broken { is_broken book.old ≡ true → IfErr result ComesBroken }
    ensures unbroken { OnOk result (is_broken book.old ≡ false) }
    ensures alone { IfErr result ComesAlone }
    ensures few_unkept { IsAllKept book.old → unkept_of book.new ≤ every }
    ensures few_calls { CallsFew limit (turns count 0 (table_of book.old)) every book.old book.new }
    ensures crash { Leaves book.old book.new (IsKeptWithin (table_of book.old)
        (last_kept book.old) (turns count 0 (table_of book.old))) }
{
    let made = make_rounds(rt, alloc, book, count, workers, every, limit, gate, makers)?;
    keep_all(book)?;
    Ok(made)
}

/// The same, without the keep at the end.
fn make_rounds<T: Threads + Wait + Copy + Send + 'static, D: Disk, G: Gate>(
    rt: &T,
    alloc: Global,
    book: &mut Book<D>,
    count: u64,
    workers: usize,
    every: u64,
    limit: u64,
    gate: &G,
    makers: &mut Makers,
) -> Result<u64, ServeFault>
    requires workers { 1 ≤ workers }
    requires every { 1 ≤ every }
    requires limit { IsLimit limit }
    ensures count { IfOk result (λ made. made ≡ length (turns count 0 (table_of book.old))) }
    ensures table { OnOk result
        (table_of book.new ≡ after_events (table_of book.old) (turns count 0 (table_of book.old))) }
    ensures within { OnOk result (IsKeptWithin (table_of book.old) (last_kept book.old)
        (turns count 0 (table_of book.old)) (last_kept book.new)) }
    ensures page { OnOk result (HasRoom limit (turns count 0 (table_of book.old)) book.old
        → GoesOn (turns count 0 (table_of book.old)) book.old book.new) }
    ensures begun { OnErr result (Begins limit
        (turns count 0 (table_of book.old)) book.old book.new) }
    ensures fault { FaultLeaves ComesInLine result book.old book.new }
    ensures idle { turns count 0 (table_of book.old) ≡ [] → IfErr result ComesWithoutRound }
    ensures unmade { IfErr result (λ fault. ComesUnmade fault ⊎ IsBeforeRound
        (table_of book.old) (turns count 0 (table_of book.old)) (table_of book.new)) }
    ensures broken { is_broken book.old ≡ true → IfErr result ComesBroken }
    ensures still { is_broken book.old ≡ true → OnOk result (is_broken book.new ≡ true) }
    ensures alone { IfErr result ComesAlone }
    ensures few_unkept { IsAllKept book.old → unkept_of book.new ≤ every }
    ensures few_calls { HasRoom limit (turns count 0 (table_of book.old)) book.old
        → D.clock (disk_of book.new) ≤ D.clock (disk_of book.old)
        + 6 * (length (turns count 0 (table_of book.old)) / every) }
    ensures crash { Leaves book.old book.new (IsKeptWithin (table_of book.old)
        (last_kept book.old) (turns count 0 (table_of book.old))) }
{
    book.facts();
    ic_jobs::laws::what_is_due_is_awaited();
    makers.expect(count);
    let mut place = 0;
    for made in 0..count {
        let _jobs = book.table().jobs();
        match make_round(rt, alloc, book, place, workers, limit, makers)? {
            None => return Ok(made),
            Some(last) => place = last + 1,
        }
        gate.landed(count_running(book.table().jobs()));
        keep_each(book, made + 1, every)?;
    }
    Ok(count)
}

/// How many of these jobs are running.
pub fn count_running(jobs: &[Job]) -> usize
    ensures { result ≡ count_by (λ job. is_running job.state) jobs.now }
{
    let mut running = 0;
    for job in jobs {
        if job.state() == State::Running {
            running += 1;
        }
    }
    running
}

/// Keeps what isn't kept, where the number of rounds is a multiple of `every`.
pub fn keep_each<D: Disk>(book: &mut Book<D>, made: u64, every: u64) -> Result<(), ServeFault>
    requires { 1 ≤ every }
    ensures due { OnOk result (made % every ≡ 0 → IsAllKept book.new) }
    ensures idle { made % every ≢ 0 → IsOk result }
    ensures stays { made % every ≢ 0 → book.new ≡ book.old }
    ensures table { table_of book.new ≡ table_of book.old }
    ensures kept { OnOk result ((last_kept book.new ≡ last_kept book.old)
        ⊎ (last_kept book.new ≡ table_of book.old)) }
    ensures unkept { OnErr result (last_kept book.new ≡ last_kept book.old) }
    ensures page { IsSamePage book.old book.new }
    ensures fault { FaultLeaves ComesInLine result book.old book.new }
    ensures broken { made % every ≡ 0 → IsErrOf result (ServeFault.Book of_book.Broken)
        ↔ (is_broken book.old ≡ true) }
    ensures worn { made % every ≡ 0 → IsErrOf result (ServeFault.Book of_book.Worn)
        ↔ ((is_broken book.old ≡ false) × (kept_of book.old < length (log_of book.old))
        × (number_of book.old ≡ 2 ^ 64 - 1)) }
    ensures others { IfErr result (λ fault. fault ≢ ServeFault.Book of_book.Broken
        → fault ≢ ServeFault.Book of_book.Worn → fault ≡ ServeFault.Book of_book.Device) }
    ensures ready { IsAllKept book.old → is_broken book.old ≡ false → IsOk result }
    ensures still { IsAllKept book.old → keeper_of book.new ≡ keeper_of book.old }
    ensures calls { D.clock (disk_of book.new) ≤ D.clock (disk_of book.old) + 6 }
    ensures alone { IfErr result ComesAlone }
    ensures fewer { unkept_of book.new ≤ unkept_of book.old }
    ensures crash { Leaves book.old book.new (IsKeptOrNow book.old) }
{
    book.facts();
    if made % every == 0 {
        return keep_all(book);
    }
    Ok(())
}

//! Bringing jobs to their ends over a book.

ghost use Rattle.std.specs.Prelude.{◌≡◌, ◌+◌, ◌≤◌, [], length, max, true, false, Err, IfErr, IfOk, OnOk, OnErr};
ghost use Rattle.std.specs.List.{IsDistinct};
ghost use Rattle.std.specs.Str.{bytes_eq};
ghost use Rattle.std.specs.Io.KnownBytes.{Appends};
ghost use Rattle.ic_output.specs.Output.{AppendsFront};
ghost use Rattle.ic_book.specs.Book.{is_broken, table_of};
ghost use Rattle.ic_jobs.specs.declared.limits.TheConstants.{MAX_JOBS};
ghost use Rattle.ic_serving.specs.Booked.{unkept_of, IsAllKept};
ghost use Rattle.ic_serving.specs.Faults.{ComesAlone, ComesInLine};
ghost use Rattle.ic_serving.specs.Moments.{FaultLeaves};
ghost use Rattle.ic_serving.specs.declared.fault.ServeFault.{ServeFault};
ghost use Rattle.ic_serving.specs.declared.fault.ServeFault.TheVariants.{Write as write_fault};
ghost use Rattle.ic_batch.specs.declared.fault.BatchFault.TheVariants.{Serve};
ghost use Rattle.ic_batch.specs.Jobs.{names};
ghost use Rattle.ic_batch.specs.Way.{fetched_all, missing, HaveEnded, IsUnderWay};
ghost use Rattle.ic_batch.specs.Batch.{Brings, IsBatch, IsOnWay};
ghost use Rattle.ic_batch.specs.Calls.{CallsFew};
ghost use Rattle.ic_batch.specs.Faults.{ComesOverBroken, ComesWith, Says, Succeeds};
ghost use Rattle.ic_batch.specs.inner.Staying.{Leads};

use crate::comparing::first_taken;
use crate::fault::BatchFault;
use crate::jobs::NewJob;
use crate::running::make_rounds;
use crate::submitting::{has_room, submit_missing};
use crate::telling::told;
use ic_book::Book;
use ic_disk::Disk;
use ic_output::write_flushed;
use ic_pool::Gate;
use ic_serving::{Makers, ServeFault, keep_all};
use std::alloc::Global;
use std::io::Write;
use std::sync::Wait;
use std::thread::Threads;

/// Submits those of the jobs that the table doesn't have, keeps them by one keep, makes rounds until no
/// job goes on, keeps all, and writes for each of the jobs the line that a serving answers to its fetch.
///
/// A job goes on while it runs and has made fewer rounds than `most`. Rounds are kept after each
/// `every` of them; one of many equations is made by at most so many workers, which are joined
/// before it returns. The gate is told of each round.
///
/// Nothing is written before all is kept. Nothing is done where another job has one of the names, or
/// where the table has no room for the jobs that it doesn't have.
pub fn batch<T: Threads + Wait + Copy + Send + 'static, D: Disk, W: Write, G: Gate>(
    rt: &T,
    alloc: Global,
    book: &mut Book<D>,
    jobs: &[NewJob],
    most: u64,
    workers: usize,
    every: u64,
    gate: &G,
    writer: &mut W,
) -> Result<(), BatchFault>
    requires workers { 1 ≤ workers }
    requires every { 1 ≤ every }
    requires distinct { IsDistinct bytes_eq (names jobs.now) }
    // Whatever the book has, its jobs go on from where they are, and those that are missing begin.
    ensures brings { Brings result most jobs.now book.old book.new
        (W.contents writer.old) (W.contents writer.new) }
    // Where the jobs that are there are on their way, all stay so at any moment, and what is written at
    // Ok depends only on the jobs that were to be there.
    ensures batch { IsOnWay most jobs.now book.old
        → IsBatch result most jobs.now book.old book.new }
    ensures fault { IfErr result (Says most jobs.now book.old book.new) }
    ensures done { OnOk result (Succeeds jobs.now book.old book.new) }

    // No fault of other threads comes. At any end so much isn't kept at most, where all was before,
    // and so few calls to the disk are made.
    ensures alone { (fault : ServeFault) → result ≡ Err (Serve fault) → ComesAlone fault }
    ensures few_unkept { IsAllKept book.old → unkept_of book.new ≤ max every (length jobs.now) }
    ensures few_calls { CallsFew jobs.now every book.old book.new }
{
    book.facts();
    if let Some(fault) = first_taken(book.table(), jobs) {
        return Err(fault);
    }
    if !has_room(book.table(), jobs) {
        return Err(BatchFault::Full);
    }
    let mut makers = Makers::new(alloc);
    let brought = bring_to_ends(
        rt,
        alloc,
        book,
        jobs,
        most,
        workers,
        every,
        gate,
        &mut makers,
    );
    makers.finish(rt);
    match brought {
        Ok(text) => write(writer, &text),
        Err(fault) => Err(BatchFault::Serve(fault)),
    }
}

/// The same without the writing: what is to be written.
fn bring_to_ends<T: Threads + Wait + Copy + Send + 'static, D: Disk, G: Gate>(
    rt: &T,
    alloc: Global,
    book: &mut Book<D>,
    jobs: &[NewJob],
    most: u64,
    workers: usize,
    every: u64,
    gate: &G,
    makers: &mut Makers,
) -> Result<Vec<u8>, ServeFault>
    requires workers { 1 ≤ workers }
    requires every { 1 ≤ every }
    requires distinct { IsDistinct bytes_eq (names jobs.now) }
    requires room { length (missing (table_of book.old) jobs.now) + length (table_of book.old) ≤ MAX_JOBS }
    ensures leads { Leads (IsUnderWay most jobs.now (table_of book.old)) book.old book.new }
    ensures ended { OnOk result (HaveEnded most jobs.now (table_of book.old) (table_of book.new)) }
    ensures text { IfOk result (λ text. text.items ≡ fetched_all jobs.now (table_of book.new)) }
    ensures kept { OnOk result (IsAllKept book.new) }
    ensures fault { FaultLeaves ComesInLine result book.old book.new }
    ensures comes { IfErr result (ComesWith most (table_of book.new)) }
    ensures broken { is_broken book.old ≡ true → IfErr result ComesOverBroken }
    ensures unbroken { OnOk result (is_broken book.old ≡ false) }
    ensures whole { OnOk result (is_broken book.new ≡ false) }
    ensures alone { IfErr result ComesAlone }
    ensures few_unkept { IsAllKept book.old → unkept_of book.new ≤ max every (length jobs.now) }
    ensures few_calls { CallsFew jobs.now every book.old book.new }
{
    submit_missing(alloc, book, jobs)?;
    make_rounds(rt, alloc, book, most, workers, every, gate, makers)?;
    keep_all(book)?;
    Ok(told(alloc, book.table(), jobs)?)
}

/// Writes a text and flushes it.
fn write<W: Write>(writer: &mut W, text: &[u8]) -> Result<(), BatchFault>
    ensures written { OnOk result
        (Appends (W.contents writer.old) (W.contents writer.new) text.now) }
    ensures cut { OnErr result
        (AppendsFront (W.contents writer.old) (W.contents writer.new) [] text.now) }
    ensures refused { IfErr result (λ fault. fault ≡ BatchFault.Serve write_fault) }
{
    write_flushed(writer, text).map_err(|_| BatchFault::Serve(ServeFault::Write))
}

//! The program's word `batch`.

ghost use Rattle.std.specs.List.{IsDistinct};
ghost use Rattle.std.specs.Str.{bytes_eq};
ghost use Rattle.ic_batch.specs.Jobs.{names};

use crate::scripts::{line_of, read_file};
use crate::standstill::halted_lines;
use crate::{DiskAt, Making, NotedDisk, await_disk, book_on, put_empty, without_slot};
use ic_batch::{BatchFault, JobsCause, JobsFault, NewJob, read_jobs};
use ic_book::{Book, OpenCause};
use ic_causes::{NotedOutput, Notes, shown_path};
use ic_check::check_line;
use ic_disk::Disk;
use ic_exits::{Failure, refused_job_line};
use ic_jobs::Table;
use ic_pool::Gate;
use ic_progress::{Progress, WipedFirst};
use ic_scripts::ScriptsFault;
use ic_serving::ServeFault;
use ic_slots::is_unused;
use std::alloc::{AllocError, Global};
use std::io::{self, Write};
use std::sync::Wait;
use std::thread::Threads;

/// The file of a disk, and the path of a file of lines.
#[derive(Clone, Copy)]
pub(crate) struct Files<'a> {
    pub(crate) disk: DiskAt<'a>,
    pub(crate) lines: &'a str,
}

/// Brings the jobs of the lines in a file to their ends, over the disk in another one, which is made
/// where it is missing, each by so many rounds at most. Where the lines can't be read, or one is refused, why is appended to
/// `told`.
pub(crate) fn batch<T: Threads + Wait + Copy + Send + 'static>(
    rt: &HostRuntime,
    threads: &T,
    files: Files<'_>,
    most: u64,
    making: Making,
    notes: &Notes,
    told: &mut Vec<u8>,
) -> Result<(), Failure> {
    let text = lines_of(rt, files.lines, told).map_err(Failure::Jobs)?;
    let jobs = match read_jobs(rt.alloc(), &text) {
        Ok(jobs) => jobs,
        Err(fault) => {
            let _ = tell_refusal(rt.alloc(), files.lines, &text, fault, told);
            return Err(Failure::Jobs(fault));
        }
    };
    let book = made_book(rt, files.disk, notes)?;
    bring(rt, threads, book, &jobs, most, making, notes)
}

/// The bytes of the file of lines.
fn lines_of(rt: &HostRuntime, path: &str, told: &mut Vec<u8>) -> Result<Vec<u8>, JobsFault> {
    match read_file(rt, path, told) {
        Ok(text) => Ok(text),
        Err(ScriptsFault::Memory) => Err(JobsFault::Memory),
        Err(_) => Err(JobsFault::Read),
    }
}

/// Appends where the lines in the file of this path are refused, and what is amiss there.
fn tell_refusal(
    alloc: Global,
    path: &str,
    text: &[u8],
    fault: JobsFault,
    told: &mut Vec<u8>,
) -> Result<(), AllocError> {
    let JobsFault::Line(number, cause) = fault else {
        return Ok(());
    };
    if let JobsCause::Text(_) = cause {
        let file = shown_path(alloc, path.as_bytes())?;
        let mut lines = Vec::new(alloc);
        if check_line(alloc, &file, number, line_of(text, number), &mut lines)? {
            return told.extend_from_slice(&lines);
        }
    }
    let line = refused_job_line(alloc, path.as_bytes(), number, cause)?;
    told.extend_from_slice(&line)
}

/// The book on a disk. Where there is no disk, or what a stopped making of one has left, an empty one is made.
fn made_book<'a>(
    rt: &HostRuntime,
    at: DiskAt<'_>,
    notes: &'a Notes,
) -> Result<Book<NotedDisk<'a>>, Failure> {
    let disk = await_disk(rt, at, true, notes)?;
    match Book::open(rt.alloc(), disk) {
        Ok(book) => Ok(book),
        Err(fault) => new_book(rt, without_slot(fault)?),
    }
}

/// An empty book on a disk, which has to be unused.
fn new_book<'a>(rt: &HostRuntime, disk: NotedDisk<'a>) -> Result<Book<NotedDisk<'a>>, Failure> {
    let (mut disk, unused) = is_unused(rt.alloc(), disk);
    match unused {
        Ok(true) => put_empty(rt, &mut disk)?,
        Ok(false) => return Err(Failure::Open(OpenCause::NoSlot)),
        Err(fault) => return Err(Failure::Create(fault)),
    }
    book_on(rt, disk)
}

/// Brings the jobs to their ends over the book, writes what they came to, and closes the book. Jobs that
/// were halted are a failure, after what they came to is written.
fn bring<T: Threads + Wait + Copy + Send + 'static>(
    rt: &HostRuntime,
    threads: &T,
    mut book: Book<NotedDisk<'_>>,
    jobs: &[NewJob],
    most: u64,
    making: Making,
    notes: &Notes,
) -> Result<(), Failure>
    requires { IsDistinct bytes_eq (names jobs.now) }
{
    let progress = Progress::new(rt);
    let mut output = WipedFirst::new(&progress, NotedOutput::new(io::writer(rt), notes));
    let brought = bring_over(
        rt,
        threads,
        &mut book,
        jobs,
        most,
        making,
        &progress,
        &mut output,
    );
    progress.wipe();
    let ended = match brought {
        Ok(()) => ending(rt.alloc(), book.table(), jobs),
        Err(fault) => Err(Failure::Batch(fault)),
    };
    book.close();
    ended
}

/// How a batch ends that has written what its jobs came to in this table: well, or with those that were halted.
fn ending(alloc: Global, table: &Table, jobs: &[NewJob]) -> Result<(), Failure> {
    match halted_lines(alloc, table, jobs) {
        Ok(lines) if lines.is_empty() => Ok(()),
        Ok(lines) => Err(Failure::Halted(lines)),
        Err(_) => Err(Failure::Batch(BatchFault::Serve(ServeFault::Memory))),
    }
}

/// The same over any book, to any output. The book stays open.
fn bring_over<T: Threads + Wait + Copy + Send + 'static, D: Disk, G: Gate, W: Write>(
    rt: &HostRuntime,
    threads: &T,
    book: &mut Book<D>,
    jobs: &[NewJob],
    most: u64,
    making: Making,
    gate: &G,
    output: &mut W,
) -> Result<(), BatchFault>
    requires { IsDistinct bytes_eq (names jobs.now) }
{
    ic_batch::batch(
        threads,
        rt.alloc(),
        book,
        jobs,
        most,
        making.workers(),
        making.every(),
        gate,
        output,
    )
}

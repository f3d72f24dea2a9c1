//! The program `icserve`: a job server for the interaction calculus.
#![tactic(auto)]

ghost use Rattle.std.specs.Prelude.{◌≤◌};
ghost use Rattle.ic_serving.specs.Grown.{IsLimit};

mod answers;
mod batching;
mod checking;
mod doing;
mod dumping;
mod input;
mod inspecting;
mod keeping;
mod kept;
mod looking;
mod others;
mod profiling;
mod reducing;
mod renewing;
mod scripts;
mod session;
mod several;
mod standing;
mod standstill;
mod texts;
mod unbegun;
mod warned;

use crate::answers::Answers;
use crate::doing::{Doing, do_word, path_of};
use crate::input::told_of;
use crate::others::{has_second, no_first_at, other_at, other_second};
use crate::session::Session;
use crate::standing::stand_ins;
use crate::standstill::tell_of_jobs;
use ic_args::table::{FILE, table};
use ic_args::{Request, WordsFault, read_words};
use ic_book::{Book, BookFault, OpenCause, OpenFault};
use ic_causes::{Cause, NotedFile, NotedFiles, NotedInput, NotedOutput, Notes, Reason, Target};
use ic_disk::{Disk, DiskFault, FileDisk};
use ic_exits::{Failure, first_missing, opening_failure};
use ic_jobs::Command;
use ic_keeping::KeepingFault;
use ic_pool::Gate;
use ic_progress::{Progress, WipedFirst};
use ic_scripts::{ScriptsFault, attend_scripts};
use ic_serving::{PAGE_WEIGHT, ServeFault, serve_watched};
use ic_slots::is_unused;
use ic_streams::{StreamFault, write_line};
use std::alloc::AllocError;
use std::env;
use std::io::{self, BufWriter, ErrorKind, IsTerminal, Read, Write};
use std::process::ExitCode;
use std::sync::Wait;
use std::thread::{self, Threads};
use std::time::Duration;

/// How many bytes of answers are gathered at most before they are written.
const ANSWERS: usize = 65_536;

/// How often in a second a disk is tried that another process has, and for how many milliseconds nothing is done between.
const TRIES: u64 = 20;

const PAUSE: u64 = 1_000 / TRIES;

/// A disk in a file, of which each call that fails is noted.
pub(crate) type NotedDisk<'a> = FileDisk<HostFile<'a>>;

/// A file of the system, of which each call that fails is noted.
pub(crate) type HostFile<'a> = NotedFile<'a>;

fn main(rt: HostRuntime) -> ExitCode {
    let notes = Notes::new();
    let mut path = String::new(rt.alloc());
    let mut told = Vec::new(rt.alloc());
    match begin(&rt, &rt, &mut path, &notes, &mut told) {
        Ok(()) => ExitCode::SUCCESS,
        Err(failure) => refuse(&rt, &failure, path.as_str(), &notes, &told),
    }
}

/// Does what the words after the program's name ask for. It hands out the path of the disk's file,
/// notes the calls to it and to what is read that fail, and puts into `told` where a text is refused,
/// or why its file can't be read.
fn begin<T: Threads + Wait + Copy + Send + Sync + 'static>(
    rt: &HostRuntime,
    threads: &T,
    path: &mut String,
    notes: &Notes,
    told: &mut Vec<u8>,
) -> Result<(), Failure> {
    let words = words_after(rt).map_err(Failure::Words)?;
    let table = table();
    let request = read_words(rt.alloc(), table.as_slice(), words.as_slice());
    match request.map_err(Failure::Words)? {
        Request::Shown(text) => {
            let mut output = NotedOutput::new(io::writer(rt), notes);
            show(&mut output, text.as_str()).map_err(Failure::Stream)
        }
        Request::Word(word, values) => {
            if path.push_str(path_of(&values)).is_err() {
                return Err(Failure::Words(WordsFault::Memory));
            }
            let doing = Doing {
                rt,
                threads,
                values: &values,
                notes,
            };
            let done = do_word(&doing, word, told);
            if let (Err(failure), Some(file)) = (&done, values.file(&FILE)) {
                if let Ok(lines) = told_of(rt.alloc(), file, failure, notes, told) {
                    *told = lines;
                }
            }
            done
        }
    }
}

/// How many runners make rounds beside the clients, how many turns each has, and how many workers a round.
#[derive(Clone, Copy)]
struct Clients {
    runners: u32,
    turns: u32,
    workers: u32,
}

/// The file of a disk, and for how many seconds it is awaited while another process has it.
#[derive(Clone, Copy)]
pub(crate) struct DiskAt<'a> {
    pub(crate) path: &'a str,
    pub(crate) seconds: u64,
}

/// Gives the scripts in these files to a disk.
fn attend<T: Threads + Wait + Sync>(
    rt: &HostRuntime,
    threads: &T,
    at: DiskAt<'_>,
    scripts: &[String],
    clients: Clients,
    notes: &Notes,
    told: &mut Vec<u8>,
) -> Result<(), Failure> {
    let scripts = scripts::read_scripts(rt, scripts, told).map_err(Failure::Attend)?;
    let disk = await_disk(rt, at, false, notes)?;
    let given = give(rt, threads, disk, scripts, clients, notes);
    if matches!(given, Err(ScriptsFault::Book(BookFault::LogFull))) {
        let _ = told.extend_from_slice(scripts::FULL);
    }
    match given {
        Ok(()) => Ok(()),
        Err(fault) => Err(Failure::Attend(scripts::behind(fault))),
    }
}

/// The words after the program's name.
fn words_after(rt: &HostRuntime) -> Result<Vec<String>, WordsFault> {
    let alloc = rt.alloc();
    let mut words = match env::args(rt) {
        Ok(words) => words,
        Err(error) if error.kind() == ErrorKind::OutOfMemory => return Err(WordsFault::Memory),
        Err(_) => {
            let text = format!(in alloc; "error: the words are no UTF-8 text\n")?;
            return Err(WordsFault::Words(text));
        }
    };
    let _program = words.next();
    Ok(words.collect::<Vec<String>>(alloc)?)
}

/// Opens a disk, which with `create` is made where it is missing. While another process has it, it is tried again.
pub(crate) fn await_disk<'a>(
    rt: &HostRuntime,
    at: DiskAt<'_>,
    create: bool,
    notes: &'a Notes,
) -> Result<NotedDisk<'a>, Failure> {
    for _ in 0..at.seconds.saturating_mul(TRIES) {
        match open_disk(rt, at.path, create, notes) {
            Err(Failure::Locked) => thread::sleep(rt, Duration::from_millis(PAUSE)),
            opened => return opened,
        }
    }
    open_disk(rt, at.path, create, notes)
}

/// Opens the disk in the file of this path, which with `create` is made where it is missing.
pub(crate) fn open_disk<'a>(
    rt: &HostRuntime,
    path: &str,
    create: bool,
    notes: &'a Notes,
) -> Result<NotedDisk<'a>, Failure> {
    open_disk_as(rt, path, Target::File, create, notes)
}

/// The same, where calls to the file that fail are noted as of this target.
pub(crate) fn open_disk_as<'a>(
    rt: &HostRuntime,
    path: &str,
    target: Target,
    create: bool,
    notes: &'a Notes,
) -> Result<NotedDisk<'a>, Failure> {
    let Ok(_stand_ins) = stand_ins(rt, notes) else {
        return Err(Failure::Disk(DiskFault));
    };
    let files = NotedFiles {
        rt,
        path,
        target,
        notes,
    };
    match FileDisk::open(&files, path, create) {
        Ok(disk) => Ok(disk),
        Err(fault) => Err(opening_failure(fault, notes.last())),
    }
}

/// Puts the empty table on a disk. What stands there and would be lost is overwritten only where that is asked for. Where
/// it is the empty table, nothing is written.
fn create(rt: &HostRuntime, at: DiskAt<'_>, overwrite: bool, notes: &Notes) -> Result<(), Failure> {
    let mut disk = await_disk(rt, at, true, notes)?;
    if overwrite {
        return put_empty(rt, &mut disk);
    }
    let (disk, unused) = is_unused(rt.alloc(), disk);
    match unused {
        Ok(true) => create_missing(rt, disk),
        Ok(false) => Err(Failure::NotEmpty),
        Err(fault) => Err(Failure::Create(fault)),
    }
}

/// Puts the empty table on a disk where none is.
fn create_missing(rt: &HostRuntime, disk: NotedDisk<'_>) -> Result<(), Failure> {
    match Book::open(rt.alloc(), disk) {
        Ok(book) => {
            book.close();
            Ok(())
        }
        Err(fault) => {
            let mut disk = without_slot(fault)?;
            put_empty(rt, &mut disk)
        }
    }
}

/// Puts the empty table on a disk.
pub(crate) fn put_empty(rt: &HostRuntime, disk: &mut NotedDisk<'_>) -> Result<(), Failure> {
    ic_slots::create(rt.alloc(), disk).map_err(Failure::Create)
}

/// The disk of a book that isn't opened since no slot is there. Another cause is the failure.
pub(crate) fn without_slot<'a>(fault: OpenFault<NotedDisk<'a>>) -> Result<NotedDisk<'a>, Failure> {
    match fault.cause {
        OpenCause::NoSlot => Ok(fault.disk),
        cause => Err(Failure::Open(cause)),
    }
}

/// Opens the book on a disk that is awaited.
fn open<'a>(
    rt: &HostRuntime,
    at: DiskAt<'_>,
    notes: &'a Notes,
) -> Result<Book<NotedDisk<'a>>, Failure> {
    let disk = await_disk(rt, at, false, notes)?;
    book_on(rt, disk)
}

/// Opens the book on a disk.
pub(crate) fn book_on<'a>(
    rt: &HostRuntime,
    disk: NotedDisk<'a>,
) -> Result<Book<NotedDisk<'a>>, Failure> {
    match Book::open(rt.alloc(), disk) {
        Ok(book) => Ok(book),
        Err(fault) => Err(Failure::Open(fault.cause)),
    }
}

/// By how many threads rounds of several jobs are made, after how many rounds they are kept, how many commands are kept at
/// once, and how many bytes the history may take.
#[derive(Clone, Copy)]
pub(crate) struct Making {
    pub(crate) workers: u32,
    pub(crate) every: u32,
    pub(crate) group: u32,
    pub(crate) page_bytes: u64,
}

impl Making {
    /// How many threads make rounds, one at least.
    pub(crate) fn workers(self) -> usize
        ensures { 1 ≤ result }
    {
        self.workers.max(1) as usize
    }

    /// After how many rounds they are kept, one at least.
    pub(crate) fn every(self) -> u64
        ensures { 1 ≤ result }
    {
        u64::from(self.every.max(1))
    }

    /// How many commands are kept at once, one at least.
    pub(crate) fn group(self) -> usize
        ensures { 1 ≤ result }
    {
        self.group.max(1) as usize
    }

    /// What the entries of a page of the history may weigh before a new one begins.
    pub(crate) fn page_weight(self) -> u64
        ensures { IsLimit result }
    {
        (self.page_bytes / 1_024).max(1).min(PAGE_WEIGHT)
    }
}

/// Serves the lines of standard input over a disk.
fn serve_session<T: Threads + Wait + Copy + Send + 'static>(
    rt: &HostRuntime,
    threads: &T,
    at: DiskAt<'_>,
    making: Making,
    explains: bool,
    notes: &Notes,
) -> Result<(), Failure> {
    let book = open(rt, at, notes)?;
    let mut session = Session::new(rt, NotedInput::new(rt.reader(), notes), explains);
    serve(rt, threads, book, &mut session, making, explains, notes)
}

/// Serves the lines of a session over the book, and closes it. Answers to lines that were read together are
/// written together; every answer is flushed before the input is waited for, and also where the serving ended at a fault.
/// Standard error is told at the first line with a fault how to learn more, unless faults are explained there. If they
/// are, it is told at the end of the last lines, and then of jobs that go no further and have come to no result.
fn serve<T: Threads + Wait + Copy + Send + 'static, R: Read>(
    rt: &HostRuntime,
    threads: &T,
    mut book: Book<NotedDisk<'_>>,
    session: &mut Session<'_, R>,
    making: Making,
    explains: bool,
    notes: &Notes,
) -> Result<(), Failure> {
    let progress = Progress::new(rt);
    let output = WipedFirst::new(&progress, NotedOutput::new(io::writer(rt), notes));
    let output = Answers::new(rt, output, explains);
    let Ok(mut output) = BufWriter::with_capacity(rt.alloc(), ANSWERS, output) else {
        book.close();
        return Err(Failure::Serve(ServeFault::Memory));
    };
    let served = serve_over(
        rt,
        threads,
        &mut book,
        session,
        making,
        &progress,
        &mut output,
    );
    let served = served.map_err(Failure::Serve);
    progress.wipe();
    match &served {
        Ok(()) => session.end(),
        Err(failure) if failure.is_silent(notes.last()) => {}
        Err(_) => session.end_at_fault(),
    }
    if explains || rt.stderr().is_terminal() {
        tell_of_jobs(rt, book.table().jobs());
    }
    book.close();
    served
}

/// Serves the lines of an input over any book, and flushes the answers.
fn serve_over<T: Threads + Wait + Copy + Send + 'static, D: Disk, R: Read, G: Gate, W: Write>(
    rt: &HostRuntime,
    threads: &T,
    book: &mut Book<D>,
    input: &mut R,
    making: Making,
    gate: &G,
    output: &mut W,
) -> Result<(), ServeFault> {
    let served = serve_watched(
        threads,
        rt.alloc(),
        book,
        input,
        output,
        making.workers(),
        making.every(),
        making.group(),
        making.page_weight(),
        gate,
    );
    if output.flush().is_err() && served.is_ok() {
        return Err(ServeFault::Write);
    }
    served
}

/// Gives the scripts to the disk, with so many runners, turns and workers, and writes what their
/// clients were answered.
fn give<T: Threads + Wait + Sync>(
    rt: &HostRuntime,
    threads: &T,
    disk: NotedDisk<'_>,
    scripts: Vec<Vec<Command>>,
    clients: Clients,
    notes: &Notes,
) -> Result<(), ScriptsFault> {
    crate::scripts::tell_of_room(rt, &scripts, clients.runners, clients.turns);
    let progress = Progress::new(rt);
    let output = WipedFirst::new(&progress, NotedOutput::new(io::writer(rt), notes));
    let Ok(mut output) = BufWriter::with_capacity(rt.alloc(), ANSWERS, output) else {
        return Err(ScriptsFault::Memory);
    };
    let given = give_over(rt, threads, disk, scripts, clients, &progress, &mut output);
    progress.wipe();
    given
}

/// The same over any disk, which is closed, and flushes what is written.
fn give_over<T: Threads + Wait + Sync, D: Disk + Send + Drop, G: Gate, W: Write>(
    rt: &HostRuntime,
    threads: &T,
    disk: D,
    scripts: Vec<Vec<Command>>,
    clients: Clients,
    gate: &G,
    output: &mut W,
) -> Result<(), ScriptsFault> {
    let (_disk, given) = attend_scripts(
        threads,
        rt.alloc(),
        disk,
        scripts,
        clients.runners as usize,
        clients.turns as usize,
        clients.workers as usize,
        gate,
        output,
    );
    if output.flush().is_err() && given.is_ok() {
        return Err(ScriptsFault::Write);
    }
    given
}

/// Writes a text.
fn show<W: Write>(output: &mut W, text: &str) -> Result<(), StreamFault> {
    write_line(output, text.as_bytes())
}

/// Writes the line of a failure to standard error, or that there is no memory for it, and after it
/// what is to be told of the disk's file of this path, and what is told of a text. Nothing is written where nobody reads the
/// answers any more. The exit status says which failure it was.
fn refuse(rt: &HostRuntime, failure: &Failure, path: &str, notes: &Notes, told: &[u8]) -> ExitCode {
    if failure.is_silent(notes.last()) {
        return ExitCode::from(failure.status());
    }
    if tell_failure(rt, failure, path, notes).is_err() {
        tell(rt, b"icserve: memory\n");
        return ExitCode::from(4);
    }
    tell(rt, told);
    ExitCode::from(failure.status())
}

/// Writes the line of a failure to standard error, and what is to be told of the disk's file of this path: if it is known
/// to be another than it was taken for, what it is.
fn tell_failure(
    rt: &HostRuntime,
    failure: &Failure,
    path: &str,
    notes: &Notes,
) -> Result<(), AllocError> {
    let line = failure.line(rt.alloc())?;
    tell(rt, &line);
    let other = if is_of_disk(failure) {
        other_at(rt, path)
    } else if is_of_resumed(failure, notes.last()) {
        no_first_at(rt, path)
    } else {
        None
    };
    if finds_no_state(failure) && other.is_none() {
        if let Some(line) = other_second(rt, path) {
            tell(rt, &line);
            return Ok(());
        }
    }
    if let Ok(lines) = failure.lines_or_other(rt.alloc(), path.as_bytes(), notes.last(), other) {
        tell(rt, &lines);
    }
    if finds_no_file(failure, notes.last()) && has_second(rt, path) {
        if let Ok(line) = first_missing(rt.alloc(), path.as_bytes()) {
            tell(rt, &line);
        }
    }
    Ok(())
}

/// Whether a failure is that a file isn't there, as the call tells that has failed last.
fn finds_no_file(failure: &Failure, cause: Option<Cause>) -> bool {
    match (failure, cause) {
        (Failure::Disk(_), Some(cause)) => {
            cause.target == Target::File && cause.reason == Reason::Missing
        }
        _ => false,
    }
}

/// Whether a failure is that a file was taken for a disk, and isn't made or opened as one.
fn is_of_disk(failure: &Failure) -> bool {
    matches!(
        failure,
        Failure::Open(_) | Failure::NotEmpty | Failure::Attend(ScriptsFault::Open(_))
    )
}

/// Whether a failure is that no reduction is found in two files.
fn finds_no_state(failure: &Failure) -> bool {
    matches!(failure, Failure::Kept(KeepingFault::Open(_)))
}

/// Whether a failure is that no reduction is found in a file, or that its second file isn't there.
fn is_of_resumed(failure: &Failure, cause: Option<Cause>) -> bool {
    match (failure, cause) {
        (Failure::Kept(KeepingFault::Open(_)), _) => true,
        (Failure::Disk(_), Some(cause)) => {
            cause.target == Target::Second && cause.reason == Reason::Missing
        }
        _ => false,
    }
}

/// Writes lines to standard error, as far as that can be done.
fn tell(rt: &HostRuntime, lines: &[u8]) {
    let _ = rt.stderr().write_all(lines);
}

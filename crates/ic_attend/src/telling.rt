//! Ends by a refusal, compared with the book that is left. It takes no memory.

ghost use Rattle.std.specs.Prelude.{◌≡◌, ◌↔◌, IsTrue, IfSome};
ghost use Rattle.std.specs.List.{All};
ghost use Rattle.ic_attend.specs.Ends.{CommandTells, RoundTells, PlayTells, EndTells, EndsTell};

use crate::attended::{Attended, ClientRun, RunnerEnd};
use ic_book::{Book, BookFault, MAX_ENTRIES};
use ic_disk::Disk;
use ic_pool::PoolFault;

impl<D: Disk> Attended<D> {
    /// Whether each end by a refusal is borne out by the book, or by the number of workers.
    pub(crate) fn ends_tell(&self, workers: usize) -> bool
        ensures { IsTrue result ↔ EndsTell workers self.now }
    {
        clients_tell(&self.book, self.answers.as_slice())
            && runners_tell(&self.book, self.ends.as_slice(), workers)
    }
}

fn clients_tell<D: Disk>(book: &Book<D>, runs: &[ClientRun]) -> bool
    ensures { IsTrue result ↔ All (λ run. IfSome run.end (CommandTells book.now)) runs.now }
{
    for run in runs {
        if !client_tells(book, run.end) {
            return false;
        }
    }
    true
}

fn client_tells<D: Disk>(book: &Book<D>, end: Option<BookFault>) -> bool
    ensures { IsTrue result ↔ IfSome end (CommandTells book.now) }
{
    match end {
        Some(fault) => command_tells(book, fault),
        None => true,
    }
}

fn runners_tell<D: Disk>(book: &Book<D>, ends: &[RunnerEnd], workers: usize) -> bool
    ensures { IsTrue result ↔ All (EndTells workers book.now) ends.now }
{
    for end in ends {
        if !end_tells(book, *end, workers) {
            return false;
        }
    }
    true
}

fn end_tells<D: Disk>(book: &Book<D>, end: RunnerEnd, workers: usize) -> bool
    ensures { IsTrue result ↔ EndTells workers book.now end }
{
    match end {
        RunnerEnd::Idle | RunnerEnd::Turns(_) => true,
        RunnerEnd::Book(fault) => round_tells(book, fault),
        RunnerEnd::Pool(fault) => play_tells(fault, workers),
    }
}

/// Whether the book is as a client's refusal says.
fn command_tells<D: Disk>(book: &Book<D>, fault: BookFault) -> bool
    ensures { IsTrue result ↔ CommandTells book.now fault }
{
    match fault {
        BookFault::Broken | BookFault::Device => book.broken(),
        BookFault::LogFull => book.log().len() == MAX_ENTRIES,
        BookFault::Worn => book.worn(),
        BookFault::Memory => true,
    }
}

/// Whether the book is as a runner's refusal says.
fn round_tells<D: Disk>(book: &Book<D>, fault: BookFault) -> bool
    ensures { IsTrue result ↔ RoundTells book.now fault }
{
    match fault {
        BookFault::Broken => book.broken(),
        BookFault::LogFull => book.log().len() == MAX_ENTRIES,
        BookFault::Memory => true,
        BookFault::Worn | BookFault::Device => false,
    }
}

/// Whether the refusal of a round may come with so many workers.
fn play_tells(fault: PoolFault, workers: usize) -> bool
    ensures { IsTrue result ↔ PlayTells workers fault }
{
    match fault {
        PoolFault::NoWorkers => workers == 0,
        PoolFault::Overgrown | PoolFault::NamesOut | PoolFault::RoundsOut => false,
        PoolFault::NoThread => false,
        PoolFault::Memory | PoolFault::Lost | PoolFault::Stranger => true,
    }
}

//! What clients and runners leave: a book, what each client was answered, and how each runner ended.

use ic_book::{Book, BookFault};
use ic_disk::Disk;
use ic_jobs::{Command, Reply};
use ic_pool::PoolFault;

/// What a client was answered.
#[derive(Drop)]
pub struct ClientRun {
    /// Its commands that were answered, in order, each with its reply.
    pub answers: Vec<(Command, Reply)>,
    /// Why it ended before its script did; none where the script was finished.
    pub end: Option<BookFault>,
    /// The command at which it ended so. Where the disk failed at it, it may stand in the history.
    pub refused: Option<Command>,
}

/// How a runner ended.
#[derive(Clone, Copy)]
pub enum RunnerEnd {
    /// Nothing was due, once all scripts had ended.
    Idle,
    /// It has used up its turns, which count once all scripts have ended: so many rounds it took.
    Turns(usize),
    /// The book refused it.
    Book(BookFault),
    /// A round could not be made.
    Pool(PoolFault),
}

/// What clients and runners leave.
#[derive(Drop)]
pub struct Attended<D: Disk> {
    pub book: Book<D>,
    /// One for each script, in their order.
    pub answers: Vec<ClientRun>,
    /// One for each runner.
    pub ends: Vec<RunnerEnd>,
}

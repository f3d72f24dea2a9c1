//! A book that threads share.

ghost use Rattle.std.specs.Prelude.{IsTrue};
ghost use Rattle.ic_flights.specs.Flight.{is_blocked};
ghost use Rattle.ic_jobs.specs.declared.reply.Reply.TheVariants as reply;
ghost use Rattle.ic_attend.specs.Desk.{IsCommanded, IsLanded, IsTaken};

use ic_book::{Book, BookFault};
use ic_disk::Disk;
use ic_flights::{Flight, Played};
use ic_jobs::{Command, Landed, Reply};
use std::alloc::Global;
use std::sync::{Mutex, Wait};

/// A book that threads share: each call waits until no other is at the book. At each call the book
/// is as its type says, and what the call does to it is what the book's call of that name says.
#[derive(Drop)]
pub struct Desk<D: Disk> {
    book: Mutex<Book<D>>,
}

impl<D: Disk> Desk<D> {
    pub fn new(book: Book<D>) -> Desk<D> {
        Desk {
            book: Mutex::new(book),
        }
    }

    /// `Book::command`.
    pub fn command<R: Wait>(
        &self,
        rt: &R,
        alloc: Global,
        who: u64,
        command: Command,
    ) -> Result<Reply, BookFault>
        ensures { IsCommanded D.Disk who command result }
    {
        self.book.lock(rt).command(alloc, who, command)
    }

    /// `Book::due`.
    pub fn take<R: Wait>(&self, rt: &R, after: usize) -> Result<Option<Flight>, BookFault>
        ensures { IsTaken D.Disk after result }
    {
        self.book.lock(rt).due(after)
    }

    /// `Book::land`.
    pub fn land<R: Wait>(&self, rt: &R, played: Played) -> Result<Landed, BookFault>
        ensures { IsLanded D.Disk played.name played.rules played.before played.rounds
            reply.Moved result }
    {
        self.book.lock(rt).land(played)
    }

    /// `Book::halt`.
    pub fn halt<R: Wait>(&self, rt: &R, flight: &Flight) -> Result<Landed, BookFault>
        requires { IsTrue (is_blocked flight.now) }
        ensures { IsLanded D.Disk flight.now.name flight.now.rules flight.now.config
            flight.now.rounds reply.Halted result }
    {
        self.book.lock(rt).halt(flight)
    }

    /// The book.
    pub fn finish(self) -> Book<D> {
        self.book.into_inner()
    }
}

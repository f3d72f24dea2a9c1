//! Halting a job whose round can't be made.

ghost use Rattle.std.specs.Prelude.{IsTrue};
ghost use Rattle.ic_flights.specs.Flight.{is_blocked};
ghost use Rattle.ic_jobs.specs.declared.reply.Reply.TheVariants as reply;
ghost use Rattle.ic_jobs.specs.Landing.{Awaits};
ghost use Rattle.ic_book.specs.Entries.{round_entry};
ghost use Rattle.ic_book.specs.Book.{log_of, table_of};
ghost use Rattle.ic_book.specs.Calls.{RefusesRound, TakesRound};
ghost use Rattle.ic_book.specs.Crashes.{LeavesKeptOrAll};
ghost use Rattle.ic_book.specs.Moves.{round_move};
ghost use Rattle.ic_book.specs.Server.{Step, up};

use super::Book;
use crate::BookFault;
use crate::enter::enter_halted;
use ic_disk::Disk;
use ic_flights::Flight;
use ic_jobs::Landed;

impl<D: Disk> Book<D> {
    /// Halts a job whose round can't be made, if it is still as it was; else the flight is stale,
    /// and nothing has changed. It isn't kept yet.
    pub fn halt(&mut self, flight: &Flight) -> Result<Landed, BookFault>
        requires { IsTrue (is_blocked flight.now) }

        ensures step { Step (round_move flight.now.name reply.Halted result)
            (up self.old) (up self.new) }

        // Refusals: broken and full, in this order. `Memory` comes after them.
        ensures fault { RefusesRound result self.old self.new }

        // The job that is as it was halts, and one more round is in the log. All else is stale.
        ensures round { TakesRound (round_entry flight.now.name reply.Halted)
            (Awaits (table_of self.old)
            flight.now.name flight.now.rules flight.now.config flight.now.rounds)
            result self.old self.new }

        // A crash leaves the table that was kept, or the one after all.
        ensures crash { LeavesKeptOrAll (log_of self.new) self.old self.new }
    {
        self.check_room()?;
        Ok(enter_halted(&mut self.log, &mut self.table, flight)?)
    }
}

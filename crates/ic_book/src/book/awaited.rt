//! Rounds and halts that are awaited: nothing is compared as they come. Rounds in their jobs' own
//! lists.

ghost use Rattle.std.specs.Prelude.{◌≡◌, IfOk, IsTrue};
ghost use Rattle.ic_flights.specs.Flight.{is_blocked};
ghost use Rattle.ic_jobs.specs.declared.landed.Landed.TheVariants.{Moved};
ghost use Rattle.ic_jobs.specs.declared.reply.Reply.TheVariants as reply;
ghost use Rattle.ic_jobs.specs.Landing.{Awaits, RunsNamed};
ghost use Rattle.ic_book.specs.Entries.{round_entry};
ghost use Rattle.ic_book.specs.Book.{log_of, table_of};
ghost use Rattle.ic_book.specs.Calls.{MakesOwnRound, RefusesRound, TakesRound};
ghost use Rattle.ic_book.specs.Crashes.{LeavesKeptOrAll};
ghost use Rattle.ic_book.specs.Moves.{as_landed, round_move};
ghost use Rattle.ic_book.specs.Server.{Step, up};

use super::Book;
use crate::BookFault;
use crate::enter::{halt_entered, land_entered, round_entered};
use ic_disk::Disk;
use ic_flat_round::Workspace;
use ic_flights::{Flight, Played};
use ic_jobs::Landed;
use ic_rules::JobName;
use std::alloc::Global;

impl<D: Disk> Book<D> {
    /// Puts a round that is awaited, and answers `Moved`. Nothing is compared: who has held the book
    /// alone since the flight was taken knows that nothing came between. It isn't kept yet.
    pub fn land_awaited(&mut self, played: Played) -> Result<Landed, BookFault>
        requires { Awaits (table_of self.old)
            played.name played.rules played.before played.rounds }

        ensures step { Step (round_move played.name reply.Moved result)
            (up self.old) (up self.new) }

        // Refusals: broken and full, in this order. `Memory` comes after them.
        ensures fault { RefusesRound result self.old self.new }

        // It lands, and one more round is in the log.
        ensures moves { IfOk result (λ landed. landed ≡ Moved) }
        ensures round { TakesRound (round_entry played.name reply.Moved)
            (Awaits (table_of self.old) played.name played.rules played.before played.rounds)
            result self.old self.new }

        // A crash leaves the table that was kept, or the one after all.
        ensures crash { LeavesKeptOrAll (log_of self.new) self.old self.new }
    {
        self.check_room()?;
        Ok(land_entered(&mut self.log, &mut self.table, played)?)
    }

    /// Makes the round of a running job in the lists of its own configuration, and answers whether it
    /// did. It doesn't where somebody else holds the configuration, or where the round can't be made
    /// so: the round is then to be made outside. It isn't kept yet.
    pub fn round_awaited(
        &mut self,
        alloc: Global,
        name: JobName,
        workspace: &mut Workspace,
    ) -> Result<bool, BookFault>
        requires { RunsNamed (table_of self.old) name }

        ensures step { Step (round_move name reply.Moved (as_landed result))
            (up self.old) (up self.new) }

        // Refusals: broken and full, in this order. `Memory` comes after them.
        ensures fault { RefusesRound (as_landed result) self.old self.new }

        // Where it is made, one more round is in the log. Else nothing has changed.
        ensures round { MakesOwnRound name result self.old self.new }

        // A crash leaves the table that was kept, or the one after all.
        ensures crash { LeavesKeptOrAll (log_of self.new) self.old self.new }
    {
        self.check_room()?;
        Ok(round_entered(alloc, &mut self.log, &mut self.table, name, workspace)?)
    }

    /// Halts a job whose round can't be made and is awaited, and answers `Moved`. Nothing is
    /// compared. It isn't kept yet.
    pub fn halt_awaited(&mut self, flight: &Flight) -> Result<Landed, BookFault>
        requires blocked { IsTrue (is_blocked flight.now) }
        requires awaited { Awaits (table_of self.old)
            flight.now.name flight.now.rules flight.now.config flight.now.rounds }

        ensures step { Step (round_move flight.now.name reply.Halted result)
            (up self.old) (up self.new) }

        // Refusals: broken and full, in this order. `Memory` comes after them.
        ensures fault { RefusesRound result self.old self.new }

        // It halts, and one more round is in the log.
        ensures moves { IfOk result (λ landed. landed ≡ Moved) }
        ensures round { TakesRound (round_entry flight.now.name reply.Halted)
            (Awaits (table_of self.old)
            flight.now.name flight.now.rules flight.now.config flight.now.rounds)
            result self.old self.new }

        // A crash leaves the table that was kept, or the one after all.
        ensures crash { LeavesKeptOrAll (log_of self.new) self.old self.new }
    {
        self.check_room()?;
        Ok(halt_entered(&mut self.log, &mut self.table, flight)?)
    }
}

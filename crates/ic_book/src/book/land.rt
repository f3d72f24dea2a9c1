//! Landing a round that was made.

ghost use Rattle.ic_jobs.specs.declared.reply.Reply.TheVariants as reply;
ghost use Rattle.ic_jobs.specs.Landing.{Awaits};
ghost use Rattle.ic_book.specs.Entries.{round_entry};
ghost use Rattle.ic_book.specs.Book.{log_of, table_of};
ghost use Rattle.ic_book.specs.Calls.{RefusesRound, TakesRound};
ghost use Rattle.ic_book.specs.Crashes.{LeavesKeptOrAll};
ghost use Rattle.ic_book.specs.Moves.{round_move};
ghost use Rattle.ic_book.specs.Server.{Step, up};

use super::Book;
use crate::BookFault;
use crate::enter::enter_played;
use ic_disk::Disk;
use ic_flights::Played;
use ic_jobs::Landed;

impl<D: Disk> Book<D> {
    /// Puts a round that was made, if its job is still as it was before the round; else the round
    /// is stale, and nothing has changed. It isn't kept yet.
    pub fn land(&mut self, played: Played) -> Result<Landed, BookFault>
        ensures step { Step (round_move played.name reply.Moved result)
            (up self.old) (up self.new) }

        // Refusals: broken and full, in this order. `Memory` comes after them.
        ensures fault { RefusesRound result self.old self.new }

        // What the job awaits lands, and one more round is in the log. All else is stale.
        ensures round { TakesRound (round_entry played.name reply.Moved)
            (Awaits (table_of self.old) played.name played.rules played.before played.rounds)
            result self.old self.new }

        // A crash leaves the table that was kept, or the one after all.
        ensures crash { LeavesKeptOrAll (log_of self.new) self.old self.new }
    {
        self.check_room()?;
        Ok(enter_played(&mut self.log, &mut self.table, played)?)
    }
}

//! Keeping what has come.

ghost use Rattle.std.specs.Prelude.{◌≡◌, ◌≢◌, length, OnOk, IfErr};
ghost use Rattle.ic_book.specs.Book.{start_of, log_of, kept_of};
ghost use Rattle.ic_book.specs.Calls.{BreaksOrStays, KeepsAll, TellsWorn};
ghost use Rattle.ic_book.specs.Crashes.{LeavesKeptOrAll};
ghost use Rattle.ic_book.specs.Moves.{keep_move};
ghost use Rattle.ic_book.specs.Server.{Step, up};

use super::Book;
use crate::BookFault;
use crate::keeping::keep_table;
use ic_disk::Disk;

impl<D: Disk> Book<D> {
    /// Keeps what has come since the last keep. Where all is kept it makes no call to the disk. It
    /// never answers that memory ran out.
    pub fn keep(&mut self) -> Result<(), BookFault>
        ensures step { Step (keep_move result) (up self.old) (up self.new) }

        // Refusals: broken and worn, in this order. `Device` comes after them.
        ensures fault { BreaksOrStays result self.old self.new }
        ensures worn { TellsWorn result self.old }
        ensures others { IfErr result (λ fault. fault ≢ BookFault.Broken → fault ≢ BookFault.Worn
            → fault ≡ BookFault.Device) }

        ensures all { KeepsAll result self.old self.new }
        ensures kept { OnOk result (kept_of self.new ≡ length (log_of self.new)) }
        ensures start { start_of self.new ≡ start_of self.old }
        ensures log { log_of self.new ≡ log_of self.old }

        // A crash leaves the table that was kept, or the one that is kept now.
        ensures crash { LeavesKeptOrAll (log_of self.old) self.old self.new }
    {
        self.check_keepable()?;
        if self.kept == self.log.len() {
            return Ok(());
        }
        keep_table(&mut self.keeper, &self.table)?;
        self.kept = self.log.len();
        Ok(())
    }
}

//! Beginning a new page.

ghost use Rattle.std.specs.Prelude.{◌≡◌, [], OnOk, OnErr, IsErrOf};
ghost use Rattle.ic_book.specs.Book.{start_of, log_of, table_of, kept_of};
ghost use Rattle.ic_book.specs.Calls.{BreaksOrStays, KeepsAll, TellsWorn};
ghost use Rattle.ic_book.specs.Crashes.{LeavesKeptOrAll};
ghost use Rattle.ic_book.specs.Moves.{keep_move};
ghost use Rattle.ic_book.specs.Server.{Step, up};

use super::Book;
use crate::BookFault;
use ic_disk::Disk;
use std::alloc::Global;

impl<D: Disk> Book<D> {
    /// Keeps what isn't kept, and begins a new page: the log is empty, and begins with the table as
    /// it is now.
    pub fn new_page(&mut self, alloc: Global) -> Result<(), BookFault>
        ensures step { Step (keep_move result) (up self.old) (up self.new) }

        // Refusals: broken and worn, in this order. `Memory` comes after them, and then `Device`.
        ensures fault { BreaksOrStays result self.old self.new }
        ensures worn { TellsWorn result self.old }
        ensures not_full { ¬ IsErrOf result BookFault.LogFull }

        ensures all { KeepsAll result self.old self.new }
        ensures start { OnOk result (start_of self.new ≡ table_of self.new) }
        ensures log { OnOk result (log_of self.new ≡ []) }
        ensures kept { OnOk result (kept_of self.new ≡ 0) }

        // After `Device` the page is the old one.
        ensures same_start { OnErr result (start_of self.new ≡ start_of self.old) }
        ensures same_log { OnErr result (log_of self.new ≡ log_of self.old) }

        // A crash leaves the table that was kept, or the one that is kept now.
        ensures crash { LeavesKeptOrAll (log_of self.old) self.old self.new }
    {
        self.check_keepable()?;
        let start = self.table.copy(alloc)?;
        self.keep()?;
        self.start = start;
        self.log.clear();
        self.kept = 0;
        Ok(())
    }
}

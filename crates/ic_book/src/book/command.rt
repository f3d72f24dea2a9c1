//! Taking a client's command.

ghost use Rattle.std.specs.Prelude.{◌≡◌, ◌↔◌, ◌+◌, ◌-◌, ◌^◌, ◌<◌, ◌≤◌, true, false, length, IsTrue, OnOk, IsErrOf, IfOk};
ghost use Rattle.ic_disk.specs.Images.{Within};
ghost use Rattle.ic_frames.specs.Fields.{IsMade};
ghost use Rattle.ic_book.specs.declared.limits.TheConstants.{MAX_ENTRIES};
ghost use Rattle.ic_book.specs.Entries.{leaves_table};
ghost use Rattle.ic_book.specs.Book.{start_of, log_of, table_of, kept_of, keeper_of, disk_of, is_broken, number_of};
ghost use Rattle.ic_book.specs.Calls.{BreaksOrStays, TellsFull};
ghost use Rattle.ic_book.specs.Crashes.{LeavesKeptOrAll};
ghost use Rattle.ic_book.specs.Server.{StepsByCommand};

use super::Book;
use crate::BookFault;
use crate::enter::enter_command;
use crate::keeping::keep_table;
use ic_disk::Disk;
use ic_jobs::{Command, Reply};
use std::alloc::Global;

impl<D: Disk> Book<D> {
    /// Does what a client's command asks and keeps what it leaves, with all that came before it. At
    /// Ok the answer and all before it are kept. After `Device` the command is at the log's end,
    /// unanswered, and the book is broken. A fetch, a list or a refusal makes no call to the disk
    /// where all was kept.
    pub fn command(&mut self, alloc: Global, who: u64, command: Command) -> Result<Reply, BookFault>
        // At Ok the command is answered by its event, and all is kept. At `Device` the event is at
        // the end of the log, and nothing more is kept.
        ensures step { StepsByCommand who command result self.old self.new }

        // Refusals: broken, full and worn, in this order. `Memory` comes after them, and then
        // `Device`.
        ensures fault { BreaksOrStays result self.old self.new }
        ensures full { TellsFull result self.old }
        ensures worn { IsErrOf result BookFault.Worn
            ↔ ((is_broken self.old ≡ false) × (length (log_of self.old) < MAX_ENTRIES)
            × (number_of self.old ≡ 2 ^ 64 - 1)) }

        ensures start { start_of self.new ≡ start_of self.old }
        ensures ready { OnOk result (is_broken self.new ≡ false) }

        // A crash leaves the table that was kept, or the one after the command. Once a change is
        // answered the disk is made.
        ensures crash { LeavesKeptOrAll (log_of self.new) self.old self.new }
        ensures made_now { IsTrue (D.keeps (disk_of self.old)) → IfOk result (λ answer.
            leaves_table answer ≡ false → Within (D.image (disk_of self.new)) IsMade) }

        // It makes at most six calls, and none where all was kept and the table stays.
        ensures calls { D.clock (disk_of self.new) ≤ D.clock (disk_of self.old) + 6 }
        ensures idle { kept_of self.old ≡ length (log_of self.old)
            → IfOk result (λ answer. IsTrue (leaves_table answer)
            → keeper_of self.new ≡ keeper_of self.old) }
    {
        self.check_command()?;
        let answer = enter_command(alloc, &mut self.log, &mut self.table, who, command)?;
        let kept_before = self.kept + 1 == self.log.len();
        if kept_before && leaves_table(&answer) {
            self.kept = self.log.len();
            return Ok(answer);
        }
        keep_table(&mut self.keeper, &self.table)?;
        self.kept = self.log.len();
        Ok(answer)
    }
}

// Whether a reply to a command leaves the table as it is.
pub(super) fn leaves_table(answer: &Reply) -> bool
    ensures { result ≡ leaves_table answer.now }
{
    matches!(
        answer,
        Reply::Shown(_) | Reply::Listed(_) | Reply::Refused(_)
    )
}

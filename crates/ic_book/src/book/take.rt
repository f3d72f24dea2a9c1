//! Taking a client's command, to be kept with others.

ghost use Rattle.std.specs.Prelude.{◌≡◌, ◌≢◌, ◌↔◌, ◌-◌, ◌^◌, ◌<◌, false, length, IsTrue, IsErr, IsErrOf, IfOk, IfErr, OnOk};
ghost use Rattle.ic_book.specs.declared.limits.TheConstants.{MAX_ENTRIES};
ghost use Rattle.ic_book.specs.Entries.{leaves_table};
ghost use Rattle.ic_book.specs.Book.{log_of, kept_of, keeper_of, is_broken, number_of, IsUnchanged};
ghost use Rattle.ic_book.specs.Calls.{TellsBroken, TellsFull};
ghost use Rattle.ic_book.specs.Crashes.{LeavesKeptOrAll};
ghost use Rattle.ic_book.specs.Server.{StepsByTake};

use super::Book;
use super::command::leaves_table;
use crate::BookFault;
use crate::enter::enter_command;
use ic_disk::Disk;
use ic_jobs::{Command, Reply};
use std::alloc::Global;

impl<D: Disk> Book<D> {
    /// Does what a client's command asks, and makes no call to the disk. The answer is to be told
    /// once a keep, or a command that is answered, has kept it with all that came before it. Where
    /// all was kept, a fetch, a list or a refusal is kept as it stands.
    pub fn take(&mut self, alloc: Global, who: u64, command: Command) -> Result<Reply, BookFault>
        // At Ok the command is at the end of the log, with what its event answers.
        ensures step { StepsByTake who command result self.old self.new }

        // Refusals: broken, full and worn, in this order. `Memory` comes after them. So a keep after
        // a command that was taken fails by the disk alone.
        ensures broken { TellsBroken result self.old }
        ensures full { TellsFull result self.old }
        ensures worn { IsErrOf result BookFault.Worn
            ↔ ((is_broken self.old ≡ false) × (length (log_of self.old) < MAX_ENTRIES)
            × (number_of self.old ≡ 2 ^ 64 - 1)) }
        ensures others { IfErr result (λ fault. fault ≢ BookFault.Device) }
        ensures refused { IsErr result → IsUnchanged self.old self.new }
        ensures fresh { OnOk result (number_of self.old ≢ 2 ^ 64 - 1) }

        ensures keeper { keeper_of self.new ≡ keeper_of self.old }
        ensures idle { kept_of self.old ≡ length (log_of self.old)
            → IfOk result (λ answer. IsTrue (leaves_table answer)
            → kept_of self.new ≡ length (log_of self.new)) }

        // A crash leaves the table that was kept.
        ensures crash { LeavesKeptOrAll (log_of self.new) self.old self.new }
    {
        self.check_command()?;
        let answer = enter_command(alloc, &mut self.log, &mut self.table, who, command)?;
        let kept_before = self.kept + 1 == self.log.len();
        if kept_before && leaves_table(&answer) {
            self.kept = self.log.len();
        }
        Ok(answer)
    }
}

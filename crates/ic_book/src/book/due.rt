//! Which round is due.

ghost use Rattle.std.specs.Prelude.{◌≡◌, ◌≢◌, IfOk, IfErr, IfSome};
ghost use Rattle.ic_jobs.specs.Landing.{due, due_name, RunsNamed};
ghost use Rattle.ic_book.specs.Book.{table_of};
ghost use Rattle.ic_book.specs.Calls.{TellsBroken};

use super::Book;
use crate::BookFault;
use ic_disk::Disk;
use ic_flights::Flight;
use ic_rules::JobName;

impl<D: Disk> Book<D> {
    /// The round that is due: the first running job at this place or after it, or else the first
    /// running job, as it is now. Nothing is copied. None where no job runs.
    pub fn due(&self, after: usize) -> Result<Option<Flight>, BookFault>
        ensures broken { TellsBroken result self.now }
        ensures memory { IfErr result (λ fault. fault ≢ BookFault.Broken
            → fault ≡ BookFault.Memory) }
        ensures due { IfOk result (λ flight. flight ≡ due (table_of self.now) after) }
    {
        if self.keeper.broken() {
            return Err(BookFault::Broken);
        }
        Ok(self.table.due(after)?)
    }

    /// The place and the name of the job whose round is due. Nothing is shared. None where no job
    /// runs.
    pub fn due_name(&self, after: usize) -> Result<Option<(usize, JobName)>, BookFault>
        ensures broken { TellsBroken result self.now }
        ensures only { IfErr result (λ fault. fault ≡ BookFault.Broken) }
        ensures due { IfOk result (λ job. job ≡ due_name (table_of self.now) after) }
        ensures runs { IfOk result (λ job. IfSome job (λ due.
            RunsNamed (table_of self.now) due.1)) }
    {
        if self.keeper.broken() {
            return Err(BookFault::Broken);
        }
        Ok(self.table.due_name(after))
    }
}

//! What refuses a call before it begins.

ghost use Rattle.std.specs.Prelude.{◌≡◌, ◌≢◌, ◌↔◌, ◌-◌, ◌^◌, ◌<◌, true, false, length, IsErrOf, OnOk, IfErr};
ghost use Rattle.ic_book.specs.declared.limits.TheConstants.{MAX_ENTRIES};
ghost use Rattle.ic_book.specs.Book.{log_of, kept_of, is_broken, number_of};
ghost use Rattle.ic_book.specs.Calls.{TellsBroken, TellsFull, TellsWorn};

use super::Book;
use crate::{BookFault, MAX_ENTRIES};
use ic_disk::Disk;

impl<D: Disk> Book<D> {
    // Whether it isn't broken, and the log has room.
    pub(super) fn check_room(&self) -> Result<(), BookFault>
        ensures broken { TellsBroken result self.now }
        ensures full { TellsFull result self.now }
        ensures ok { OnOk result ((is_broken self.now ≡ false)
            × (length (log_of self.now) < MAX_ENTRIES)) }
        ensures others { IfErr result (λ fault. fault ≢ BookFault.Broken
            → fault ≡ BookFault.LogFull) }
    {
        if self.keeper.broken() {
            return Err(BookFault::Broken);
        }
        if self.log.len() >= MAX_ENTRIES {
            return Err(BookFault::LogFull);
        }
        Ok(())
    }

    // Whether a command can come: it isn't broken, the log has room, and what comes can be kept.
    pub(super) fn check_command(&self) -> Result<(), BookFault>
        ensures broken { TellsBroken result self.now }
        ensures full { TellsFull result self.now }
        ensures worn { IsErrOf result BookFault.Worn
            ↔ ((is_broken self.now ≡ false) × (length (log_of self.now) < MAX_ENTRIES)
            × (number_of self.now ≡ 2 ^ 64 - 1)) }
        ensures ok { OnOk result ((is_broken self.now ≡ false)
            × (length (log_of self.now) < MAX_ENTRIES)) }
        ensures fresh { OnOk result (number_of self.now ≢ 2 ^ 64 - 1) }
        ensures others { IfErr result (λ fault. fault ≢ BookFault.Device) }
    {
        self.check_room()?;
        if self.keeper.worn() {
            return Err(BookFault::Worn);
        }
        Ok(())
    }

    // Whether it isn't broken, and what isn't kept can be.
    pub(super) fn check_keepable(&self) -> Result<(), BookFault>
        ensures broken { TellsBroken result self.now }
        ensures worn { TellsWorn result self.now }
        ensures ok { OnOk result (is_broken self.now ≡ false) }
        ensures fresh { OnOk result (kept_of self.now < length (log_of self.now)
            → number_of self.now ≢ 2 ^ 64 - 1) }
        ensures others { IfErr result (λ fault. fault ≢ BookFault.Broken → fault ≡ BookFault.Worn) }
    {
        if self.keeper.broken() {
            return Err(BookFault::Broken);
        }
        if self.kept < self.log.len() && self.keeper.worn() {
            return Err(BookFault::Worn);
        }
        Ok(())
    }
}

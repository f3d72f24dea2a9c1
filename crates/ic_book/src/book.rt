//! A job table, its history and the disk on which it is kept.

ghost use Rattle.std.specs.Prelude.{◌≡◌, ◌↔◌, ◌-◌, ◌^◌, min, false, IsTrue};
ghost use Rattle.std.specs.Coded.{Π_prop};
ghost use Rattle.ic_disk.specs.Images.{Within};
ghost use Rattle.ic_frames.specs.Fields.{IsMade};
ghost use Rattle.ic_frames.specs.Opened.{IsOnNewest};
ghost use Rattle.ic_slots.specs.Keeper as keeper_parts;
ghost use Rattle.ic_book.specs.Kept.{IsHistory, IsOnDisk};
ghost use Rattle.ic_book.specs.Left.{HoldsKeptOrAll};
ghost use Rattle.ic_book.specs.lemmas.OneProof.{IsHistory-prop, IsOnDisk-prop, IsOnNewest-prop};

mod awaited;
mod checks;
mod close;
mod command;
mod due;
mod halt;
mod keep;
mod land;
mod new_page;
mod open;
mod take;

use crate::log::Log;
use ic_disk::Disk;
use ic_jobs::{Entry, Table};
use ic_slots::Keeper;

/// A job table, the history of what has come to it since it was opened, and the disk that has the
/// table after the first `kept` entries.
#[derive(Drop)]
pub struct Book<D: Disk> {
    start: Table,
    log: Log,
    table: Table,
    kept: usize,
    keeper: Keeper<D>,
    ghost history: { IsHistory start log.entries.items table kept
        (keeper_parts.is_broken keeper) } by { IsHistory-prop start log.entries.items table kept
            (keeper_parts.is_broken keeper) },
    ghost on_disk: { IsTrue (D.keeps (keeper_parts.disk_of keeper))
        → IsOnDisk (D.content (keeper_parts.disk_of keeper))
        (D.image (keeper_parts.disk_of keeper)) start log.entries.items kept
        (keeper_parts.is_broken keeper) } by { Π_prop (λ _. IsOnDisk-prop
            (D.content (keeper_parts.disk_of keeper)) (D.image (keeper_parts.disk_of keeper))
            start log.entries.items kept (keeper_parts.is_broken keeper)) },
    ghost newest: { IsTrue (D.keeps (keeper_parts.disk_of keeper))
        → keeper_parts.is_broken keeper ≡ false
        → IsOnNewest (keeper_parts.frames_of keeper)
        (D.content (keeper_parts.disk_of keeper)) } by { Π_prop (λ _. Π_prop (λ _.
            IsOnNewest-prop (keeper_parts.frames_of keeper)
            (D.content (keeper_parts.disk_of keeper)))) },
}

impl<D: Disk> Book<D> {
    ghost use Rattle.ic_book.specs.Book.{start_of, log_of, table_of, kept_of, keeper_of, disk_of, is_broken, number_of};
    ghost use Rattle.ic_book.specs.Moves.{stays};
    ghost use Rattle.ic_book.specs.Weight.{weight_of};
    ghost use Rattle.ic_book.specs.Server.{Step, up};

    /// The table that the log begins with.
    pub fn start(&self) -> &Table
        ensures { result.now ≡ start_of self.now }
    {
        &self.start
    }

    /// What has come since, in order.
    pub fn log(&self) -> &[Entry]
        ensures { result.now ≡ log_of self.now }
    {
        self.log.entries()
    }

    /// What the entries of the log weigh, up to the end of the count. It looks at none of them: this is
    /// counted as they come.
    pub fn weight(&self) -> u64
        ensures { result ≡ min (weight_of (log_of self.now)) (2 ^ 64 - 1) }
    {
        self.log.weight()
    }

    /// The table after all entries of the log.
    pub fn table(&self) -> &Table
        ensures { result.now ≡ table_of self.now }
    {
        &self.table
    }

    /// How many entries of the log are kept: the table after them is on the disk.
    pub fn kept(&self) -> usize
        ensures { result ≡ kept_of self.now }
    {
        self.kept
    }

    /// Whether a call to the disk has failed: the book is to be closed, and the disk opened again.
    pub fn broken(&self) -> bool
        ensures { result ≡ is_broken self.now }
    {
        self.keeper.broken()
    }

    /// Whether the numbers of the slots are used up: nothing more can be kept.
    pub fn worn(&self) -> bool
        ensures { IsTrue result ↔ (number_of self.now ≡ 2 ^ 64 - 1) }
    {
        self.keeper.worn()
    }

    /// What the type of a book says. It reads nothing.
    pub fn facts(&self)
        // Replaying the log on the opening table gives the table and each reply.
        ensures history { IsHistory (start_of self.now) (log_of self.now) (table_of self.now)
            (kept_of self.now) (is_broken self.now) }

        // Reads give the table that was kept last, where the book isn't broken, and a crash now
        // leaves it too. Where the book is broken, it leaves that or the table after all, if each
        // image is made.
        ensures on_disk { IsTrue (D.keeps (disk_of self.now)) → IsOnDisk
            (D.content (disk_of self.now)) (D.image (disk_of self.now))
            (start_of self.now) (log_of self.now) (kept_of self.now) (is_broken self.now) }
        ensures either { IsTrue (D.keeps (disk_of self.now))
            → Within (D.image (disk_of self.now)) IsMade
            → Within (D.image (disk_of self.now))
            (HoldsKeptOrAll (start_of self.now) (log_of self.now) (kept_of self.now)) }

        // The number by which a book is worn is that of the newest slot, as reads give it.
        ensures newest { IsTrue (D.keeps (disk_of self.now)) → is_broken self.now ≡ false
            → IsOnNewest (keeper_parts.frames_of (keeper_of self.now))
            (D.content (disk_of self.now)) }

        // To do nothing is a step, in whose midst a stop may come.
        ensures step { Step stays (up self.now) (up self.now) }
    {}
}

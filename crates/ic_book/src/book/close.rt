//! Closing a book.

ghost use Rattle.std.specs.Prelude.{◌≡◌, false, length, IsTrue};
ghost use Rattle.ic_slots.specs.Held.{IsHeld, the_table};
ghost use Rattle.ic_book.specs.Book.{log_of, table_of, kept_of, is_broken};
ghost use Rattle.ic_book.specs.Moves.{closes};
ghost use Rattle.ic_book.specs.Server.{Step, down, up};

use super::Book;
use ic_disk::Disk;

impl<D: Disk> Book<D> {
    /// The disk, with the images that it has. Nothing is kept.
    pub fn close(self) -> D
        ensures step { Step closes (up self) (down result) }

        // Reads give the table, where all was kept and the book isn't broken.
        ensures held { IsTrue (D.keeps result) → is_broken self ≡ false
            → kept_of self ≡ length (log_of self)
            → IsHeld (the_table (table_of self)) (D.content result) }
    {
        self.keeper.close()
    }
}

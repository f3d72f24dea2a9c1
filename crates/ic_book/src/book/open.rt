//! Opening a book.

ghost use Rattle.std.specs.Prelude.{◌≡◌, false, IsTrue, OnOk, IfOk};
ghost use Rattle.ic_disk.specs.Images.{Within};
ghost use Rattle.ic_frames.specs.Fields.{IsMade};
ghost use Rattle.ic_frames.specs.Faults.{CountsOpen};
ghost use Rattle.ic_book.specs.Book.{start_of, table_of, kept_of, is_broken};
ghost use Rattle.ic_book.specs.Opened.{disk_after, outcome_of};
ghost use Rattle.ic_book.specs.Server.{StepsByOpening};

use super::Book;
use crate::log::Log;
use ic_disk::Disk;
use ic_slots::{Keeper, OpenCause, OpenFault};
use std::alloc::Global;

impl<D: Disk> Book<D> {
    /// Finds the table that a disk holds. The book begins with it, and with an empty log. It begins
    /// with a sync, and changes nothing. A fault hands the disk back.
    pub fn open(alloc: Global, disk: D) -> Result<Book<D>, OpenFault<D>>
        // It answers by what reads give, and leaves the disk as it was.
        ensures step { StepsByOpening D.Disk disk result }
        ensures counted { CountsOpen (outcome_of result)
            (D.failures disk) (D.failures (disk_after result)) }

        ensures table { IfOk result (λ book. table_of book ≡ start_of book) }
        ensures kept { IfOk result (λ book. kept_of book ≡ 0) }
        ensures ready { IfOk result (λ book. is_broken book ≡ false) }
        ensures made { IsTrue (D.keeps disk) → IsMade (D.content disk)
            → OnOk result (Within (D.image (disk_after result)) IsMade) }
    {
        match Keeper::open(alloc, disk) {
            Ok((keeper, table)) => {
                match table.copy(alloc) {
                    Ok(start) => Ok(Book {
                        start,
                        log: Log::new(alloc),
                        table,
                        kept: 0,
                        keeper,
                    }),
                    Err(_) => Err(OpenFault {
                        disk: keeper.close(),
                        cause: OpenCause::Memory,
                    }),
                }
            }
            Err(fault) => Err(fault),
        }
    }
}

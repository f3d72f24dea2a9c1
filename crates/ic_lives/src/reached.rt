//! That the premises of the laws are met: a run that is reached, and stops that are found.

ghost use Rattle.std.specs.Prelude.{◌≤◌, [], ◌∷◌, ℕ, List, IfSome};
ghost use Rattle.ic_disk.specs.History.{IsLeftSince, clock_of, fresh};
ghost use Rattle.ic_jobs.specs.declared.reply.Reply.{Reply};
ghost use Rattle.ic_book.specs.Book.{disk_of};
ghost use Rattle.ic_book.specs.Moves.{Move, opens, answers, stays, stops};
ghost use Rattle.ic_book.specs.Server.{IsFound, Opens, Reaches, Step, down, up};

use ic_book::Book;
use ic_disk::{Choice, Disk, MemDisk};
use ic_jobs::Command;
use std::alloc::Global;

/// Whatever file a stop may leave of a disk in memory, the disk that has this file alone is found
/// after it.
pub fn each_file_left_is_found(before: &MemDisk, after: &MemDisk)
    ensures { (file : List ℕ) → IsLeftSince after.now (clock_of before.now) file
        → IsFound ⟦<MemDisk as Disk>⟧ before.now after.now (fresh file) }
{
    let _ = before;
    let _ = after;
}

/// Where only the process was killed, after a call, the disk is found as the call left it, with all
/// its images.
pub fn a_disk_in_use_is_found(before: &MemDisk, after: &MemDisk)
    ensures { clock_of before.now ≤ clock_of after.now
        → IsFound ⟦<MemDisk as Disk>⟧ before.now after.now after.now }
{
    let _ = before;
    let _ = after;
}

/// Whatever an open book is called for, a stop in its midst is a step of the server, and so is one in
/// the midst of an opening.
pub fn a_call_may_be_stopped<D: Disk>(disk: &D, before: &Book<D>, after: &Book<D>, found: &D)
    ensures of_book { (move : Move) → Step move (up before.now) (up after.now)
        → IsFound D.Disk (disk_of before.now) (disk_of after.now) found.now
        → Step (stops move) (up before.now) (down found.now) }
    ensures of_opening { Opens disk.now after.now
        → IsFound D.Disk disk.now (disk_of after.now) found.now
        → Step {ghosts = D.Disk} (stops opens) (down disk.now) (down found.now) }
{
    let _ = disk;
    let _ = before;
    let _ = after;
    let _ = found;
}

/// A run over a disk in memory. The empty table is put there, and a book is opened. A command is
/// answered. The server is stopped, and the disk that is found is opened. None where memory ran out
/// on the way, or the command is refused.
pub fn a_run_is_reached(alloc: Global, command: Command) -> Option<Book<MemDisk>>
    ensures { IfSome result (λ book. (reply : Reply)
        × Reaches {ghosts = ⟦<MemDisk as Disk>⟧}
        (opens ∷ stops stays ∷ answers 0 command reply ∷ opens ∷ []) (up book)) }
{
    let mut disk = MemDisk::new(alloc);
    let Ok(()) = ic_slots::create(alloc, &mut disk) else {
        return None;
    };
    let Ok(mut book) = Book::open(alloc, disk) else {
        return None;
    };
    let Ok(_reply) = book.command(alloc, 0, command) else {
        return None;
    };
    book.facts();
    let Ok(found) = book.close().crash(Choice::Written) else {
        return None;
    };
    let Ok(next) = Book::open(alloc, found) else {
        return None;
    };
    Some(next)
}

//! Scripts that are given to a disk.

ghost use Rattle.std.specs.Prelude.{◌≡◌, map, vec_items, OnOk, IsTrue};
ghost use Rattle.ic_book.specs.Book.{disk_of, table_of};
ghost use Rattle.ic_book.specs.Refusals.{CountsBook};
ghost use Rattle.ic_scripts.specs.Attending.{HasTable, IsAttended, IsTold, IsKeptAndClosed, KeepTells};

use crate::ends::outcome;
use crate::fault::{ScriptsFault, without_history};
use crate::telling::tell;
use ic_attend::{Attended, attend};
use ic_book::{Book, BookFault};
use ic_disk::Disk;
use ic_jobs::Command;
use ic_pool::Gate;
use std::alloc::Global;
use std::io::Write;
use std::sync::Wait;
use std::thread::Threads;

/// Gives the scripts to a disk, as `attend` does, keeps what isn't kept, closes the book, and writes
/// what each client was answered. The gate is `attend`'s. The disk is handed back, however it ends.
pub fn attend_scripts<R: Threads + Wait + Sync, D: Disk + Send, G: Gate, W: Write>(
    rt: &R,
    alloc: Global,
    disk: D,
    scripts: Vec<Vec<Command>>,
    runners: usize,
    turns: usize,
    workers: usize,
    gate: &G,
    writer: &mut W,
) -> (D, Result<(), ScriptsFault>)
    // The answers that are written are those of one legal history of these scripts' clients, which
    // goes on from the table that the disk held. Unless the keep after it fails, the disk holds the
    // table that this history leaves. Where it fails, or is stopped at any moment, a made disk holds
    // that table or the one that was kept before. A fault is one that the history or the keep has, or
    // one of writing, or says why there is no history. Then the disk is the one that `attend` left.
    ensures { IsAttended D.Disk disk (map vec_items scripts.items) runners turns workers
        result.0 result.1 (W.contents writer.old) (W.contents writer.new) }
{
    match attend(rt, alloc, disk, scripts, runners, turns, workers, gate) {
        Ok(attended) => finish(alloc, attended, writer),
        Err(fault) => {
            let (disk, fault) = without_history(fault);
            (disk, Err(fault))
        }
    }
}

/// Keeps what isn't kept, closes the book, and writes what each client was answered.
fn finish<D: Disk, W: Write>(
    alloc: Global,
    attended: Attended<D>,
    writer: &mut W,
) -> (D, Result<(), ScriptsFault>)
    ensures { IsTold attended result.0 result.1 (W.contents writer.old) (W.contents writer.new) }
{
    let Attended {
        book,
        answers,
        ends,
    } = attended;
    let (kept, disk) = keep_and_close(book);
    let told = tell(alloc, &answers, writer);
    match outcome(&answers, &ends, kept) {
        Ok(()) => (disk, told),
        Err(fault) => (disk, Err(fault)),
    }
}

/// Keeps what isn't kept, and closes the book.
fn keep_and_close<D: Disk>(mut book: Book<D>) -> (Result<(), BookFault>, D)
    ensures tells { KeepTells book result.0 }
    ensures counted { CountsBook result.0
        (D.failures (disk_of book)) (D.failures result.1) }
    ensures closed { IsKeptAndClosed book result.0 result.1 }
    ensures held { OnOk result.0 (IsTrue (D.keeps result.1)
        → HasTable D.Disk (table_of book) result.1) }
{
    book.facts();
    let kept = book.keep();
    book.facts();
    (kept, book.close())
}

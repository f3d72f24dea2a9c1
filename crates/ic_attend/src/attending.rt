//! A disk that clients and runners attend to.

ghost use Rattle.std.specs.Prelude.{◌≡◌, ◌<◌, ◌⊎◌, map, vec_items, vec_len, IsTrue, IfOk};
ghost use Rattle.ic_slots.specs.Held.{IsHeld, the_table};
ghost use Rattle.ic_book.specs.Book.{start_of};
ghost use Rattle.ic_attend.specs.OneHistory.{IsOneHistory};
ghost use Rattle.ic_attend.specs.Ends.{EndsTell};
ghost use Rattle.ic_attend.specs.Faults.{IfUnopened, IfUnbegun, IfStopped, IfTorn, IsUnopened, IsAsOpened, AreFollowed, IsStopped, BeganOtherwise, IsTorn, Differs};
ghost use Rattle.ic_attend.specs.inner.Gathering.{IsReady, IsBegun};

use crate::attended::Attended;
use crate::crews::{Enlisted, crews_for};
use crate::desk::Desk;
use crate::fault::AttendFault;
use crate::gathered::Gathered;
use crate::runner::Duty;
use crate::signs::Signs;
use crate::threads::gather;
use ic_book::Book;
use ic_disk::Disk;
use ic_jobs::{Command, Table};
use ic_pool::Gate;
use std::alloc::{AllocError, Global};
use std::sync::Wait;
use std::thread::Threads;

/// Opens a disk, and gives each script in a thread of its own, as the client of its number from 0;
/// `runners` further threads make the rounds that are due. Each has a crew of so many workers, but no
/// more than 64, which stand in threads of their own for all its rounds.
///
/// What they leave is one legal history. A runner goes on until all scripts have ended, and then for
/// as many rounds as it has turns, while any is due. The gate is told of each answer and passed by
/// each work.
pub fn attend<R: Threads + Wait + Sync, D: Disk + Send, G: Gate>(
    rt: &R,
    alloc: Global,
    disk: D,
    scripts: Vec<Vec<Command>>,
    runners: usize,
    turns: usize,
    workers: usize,
    gate: &G,
) -> Result<Attended<D>, AttendFault<D>>
    // The log goes on from the table that the disk holds. It is one legal history of the clients of
    // these scripts and of the runners, and holds what each client was answered.
    ensures start { IsTrue (D.keeps disk) → IfOk result (λ attended.
        IsHeld (the_table (start_of attended.book)) (D.content disk)) }
    ensures history { IfOk result (λ attended.
        IsOneHistory (map vec_items scripts.items) runners turns attended) }
    ensures ends { IfOk result (λ attended. EndsTell workers attended) }

    // A disk that isn't opened is handed back. Where memory ran out before any thread was started,
    // the book is as it was opened.
    ensures unopened { IfUnopened result (λ fault. IsUnopened D.Disk disk fault) }
    ensures unbegun { IfUnbegun result (λ book. IsAsOpened disk book) }

    // At `NoThread` the first commands of each script were answered, or none, and the log goes on
    // from the table that the disk holds. `Torn` comes only where one of the facts at Ok fails.
    ensures stopped { IfStopped result (λ attended.
        IsStopped D.Disk disk (map vec_items scripts.items) runners turns workers attended) }
    ensures torn { IfTorn result (λ attended.
        IsTorn D.Disk disk (map vec_items scripts.items) runners turns workers attended) }
{
    let book = match Book::open(alloc, disk) {
        Ok(book) => book,
        Err(fault) => return Err(AttendFault::Open(fault)),
    };
    let duty = Duty { turns, workers };
    let (opening, room, crews) = match prepare(alloc, &book, scripts.len(), runners, workers) {
        Ok(prepared) => prepared,
        Err(_) => return Err(AttendFault::Memory(book)),
    };
    attend_book(
        rt, alloc, book, &opening, room, scripts, runners, crews, duty, gate,
    )
}

/// A copy of the table with which a book was opened, room for what so many clients and runners hand
/// over, and a crew of so many workers for each runner.
fn prepare<D: Disk>(
    alloc: Global,
    book: &Book<D>,
    clients: usize,
    runners: usize,
    workers: usize,
) -> Result<(Table, Gathered, Vec<Enlisted>), AllocError>
    ensures opening { IfOk result (λ made. made.0 ≡ start_of book.now) }
    ensures room { IfOk result (λ made. IsReady clients runners made.1) }
    ensures crews { IfOk result (λ made. 0 < workers → vec_len made.2 ≡ runners) }
{
    let opening = book.start().copy(alloc)?;
    let room = Gathered::with_room(alloc, clients, runners)?;
    let crews = crews_for(alloc, runners, workers)?;
    Ok((opening, room, crews))
}

/// The same over a book that was opened with this table.
fn attend_book<R: Threads + Wait + Sync, D: Disk + Send, G: Gate>(
    rt: &R,
    alloc: Global,
    book: Book<D>,
    opening: &Table,
    room: Gathered,
    scripts: Vec<Vec<Command>>,
    runners: usize,
    crews: Vec<Enlisted>,
    duty: Duty,
    gate: &G,
) -> Result<Attended<D>, AttendFault<D>>
    requires room { IsReady (vec_len scripts) runners room }
    requires crews { 0 < duty.workers → vec_len crews ≡ runners }
    ensures start { IfOk result (λ attended. start_of attended.book ≡ opening.now) }
    ensures history { IfOk result (λ attended.
        IsOneHistory (map vec_items scripts.items) runners duty.turns attended) }
    ensures ends { IfOk result (λ attended. EndsTell duty.workers attended) }
    ensures begun { IsBegun result }
    ensures stopped { IfStopped result (λ attended.
        AreFollowed (map vec_items scripts.items) runners duty.turns duty.workers attended) }
    ensures stopped_start { IfStopped result (λ attended.
        start_of attended.book ≡ opening.now) }
    ensures torn { IfTorn result (λ attended.
        BeganOtherwise opening.now (map vec_items scripts.items) runners duty.turns duty.workers
        attended ⊎ Differs opening.now (map vec_items scripts.items) runners duty.turns
        duty.workers attended) }
{
    let signs = Signs::new(scripts.len() as u64);
    let desk = Desk::new(book);
    let gathered = gather(
        rt, alloc, &desk, &signs, gate, scripts, runners, crews, duty, room,
    );
    let is_complete = gathered.complete;
    let attended = Attended {
        book: desk.finish(),
        answers: gathered.answers,
        ends: gathered.ends,
    };
    if !is_complete {
        if attended.began_with(opening) {
            return Err(AttendFault::NoThread(attended));
        }
        return Err(AttendFault::Torn(attended));
    }
    attended.book.facts();
    if !attended.is_borne_out(opening, duty.turns, duty.workers) {
        return Err(AttendFault::Torn(attended));
    }
    Ok(attended)
}

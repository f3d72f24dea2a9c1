//! Answering commands of several lines at once.

ghost use Rattle.std.specs.Prelude.{false, true, ◌≡◌, ◌≤◌, ◌+◌, OnOk, OnErr, IfErr, IfOk};
ghost use Rattle.ic_book.specs.Book.{is_broken};
ghost use Rattle.ic_serving.specs.declared.limits.TheConstants.{MAX_LINES};
ghost use Rattle.ic_serving.specs.Booked.{unkept_of, IsAllKept};
ghost use Rattle.ic_serving.specs.Moments.{FaultLeaves};
ghost use Rattle.ic_serving.specs.Faults.{ComesAlone, ComesBroken, ComesInLine, ComesWithoutRound};
ghost use Rattle.ic_serving.specs.Grown.{IsLimit};
ghost use Rattle.ic_serving.specs.inner.Group.{IsGroupBegun, IsGroupDone};

use crate::fault::ServeFault;
use crate::rounds::keep_all;
use crate::taking::{Answered, take_command, take_ready};
use ic_book::Book;
use ic_disk::Disk;
use ic_jobs::Command;
use ic_lines::LineBuffer;
use std::alloc::Global;

/// Takes a command and those of the next lines, as long as these were read already and ask for
/// commands, at most so many in all. Keeps what they leave by one keep, and answers what is to be
/// written for them.
pub(crate) fn answer_group<D: Disk>(
    alloc: Global,
    book: &mut Book<D>,
    first: Command,
    lines: &mut LineBuffer,
    most: usize,
    limit: u64,
) -> Result<Answered, ServeFault>
    requires some { 1 ≤ most }
    requires few { most ≤ MAX_LINES }
    requires limit { IsLimit limit }
    ensures done { IfOk result (λ group. IsGroupDone limit most first lines.old lines.new
        group.answers.items group.count book.old book.new) }
    ensures begun { OnErr result
        (IsGroupBegun limit most first lines.old lines.new book.old book.new) }
    ensures all { OnOk result (IsAllKept book.new) }
    ensures whole { OnOk result (is_broken book.new ≡ false) }
    ensures fault { FaultLeaves ComesInLine result book.old book.new }
    ensures comes { IfErr result ComesWithoutRound }
    ensures broken { is_broken book.old ≡ true → IfErr result ComesBroken }
    ensures unbroken { OnOk result (is_broken book.old ≡ false) }
    ensures alone { IfErr result ComesAlone }
    ensures few_unkept { unkept_of book.new ≤ unkept_of book.old + most }
{
    let answers = take_command(alloc, book, first, limit)?;
    let mut group = Answered { answers, count: 1 };
    take_ready(alloc, book, lines, most - 1, &mut group)?;
    keep_all(book)?;
    Ok(group)
}

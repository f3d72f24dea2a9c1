//! Taking commands that are kept with others.

ghost use Rattle.std.specs.Prelude.{false, true, ◌≡◌, ◌≢◌, ◌<◌, ◌≤◌, ◌+◌, ◌-◌, ◌^◌, ℕ, List, length, [], ◌∷◌, Ok, OnOk, OnErr, IfErr, IfOk, IfSome, is_ok};
ghost use Rattle.ic_book.specs.Book.{is_broken, keeper_of, log_of, number_of, table_of};
ghost use Rattle.ic_jobs.specs.declared.event.Event.TheVariants.{Command as by_command};
ghost use Rattle.ic_commands.specs.declared.line.Line.TheVariants.{Command as Asks};
ghost use Rattle.ic_commands.specs.LineText.{ReadsLine};
ghost use Rattle.ic_lines.specs.Taking.{IsFed};
ghost use Rattle.ic_text.specs.declared.limits.TheConstants.{MAX_TEXT};
ghost use Rattle.ic_serving.specs.Booked.{last_kept, unkept_of, Begins};
ghost use Rattle.ic_serving.specs.Parts.{IsKeptWithin};
ghost use Rattle.ic_serving.specs.Answered.{IsTaken};
ghost use Rattle.ic_serving.specs.Grown.{BeginsPage, GoesOn, HasSpare, IsLimit};
ghost use Rattle.ic_serving.specs.Moments.{FaultLeaves, Leaves};
ghost use Rattle.ic_book.specs.Weight.{weight, weight_of};
ghost use Rattle.ic_serving.specs.declared.limits.TheConstants.{MAX_LINES};
ghost use Rattle.ic_serving.specs.inner.Group.{TakesReady};
ghost use Rattle.ic_serving.specs.Faults.{ComesAlone, ComesBroken, ComesInLine, ComesWithoutRound};

use crate::answering::ended;
use crate::fault::ServeFault;
use crate::rounds::make_room;
use ic_book::Book;
use ic_commands::{Line, print_reply, read_command};
use ic_disk::Disk;
use ic_jobs::Command;
use ic_lines::LineBuffer;
use std::alloc::Global;

/// What some lines are answered, and how many lines these are.
#[derive(Drop)]
pub(crate) struct Answered {
    pub(crate) answers: Vec<u8>,
    pub(crate) count: usize,
}

/// Does what a command asks, and answers what is to be written for it once a keep has kept it, for a
/// loop of one's own. Where the page weighs `limit`, what came before is kept and a page begins.
pub fn take_command<D: Disk>(
    alloc: Global,
    book: &mut Book<D>,
    command: Command,
    limit: u64,
) -> Result<Vec<u8>, ServeFault>
    requires limit { IsLimit limit }
    ensures whole { OnOk result (is_broken book.new ≡ false) }
    ensures taken { IfOk result (λ bytes. IsTaken command bytes.items book.old book.new) }
    ensures fresh { OnOk result (number_of book.old ≢ 2 ^ 64 - 1) }
    ensures page { OnOk result (HasSpare limit book.old
        → GoesOn (by_command command ∷ []) book.old book.new) }
    ensures turned { OnOk result (limit ≤ weight_of (log_of book.old)
        → BeginsPage (by_command command ∷ []) book.old book.new) }
    ensures begun { Begins limit (by_command command ∷ []) book.old book.new }
    ensures fault { FaultLeaves ComesInLine result book.old book.new }
    ensures comes { IfErr result ComesWithoutRound }
    ensures broken { is_broken book.old ≡ true → IfErr result ComesBroken }
    ensures unbroken { OnOk result (is_broken book.old ≡ false) }
    ensures alone { IfErr result ComesAlone }
    ensures few_unkept { unkept_of book.new ≤ unkept_of book.old + 1 }
    ensures bounded { OnOk result (weight_of (log_of book.new)
        < limit + weight (by_command command)) }
    ensures still { HasSpare limit book.old → keeper_of book.new ≡ keeper_of book.old }
    ensures crash { Leaves book.old book.new (IsKeptWithin (table_of book.old)
        (last_kept book.old) (by_command command ∷ [])) }
{
    make_room(alloc, book, limit)?;
    book.facts();
    let reply = book.take(alloc, 0, command)?;
    book.facts();
    Ok(ended(print_reply(alloc, &reply)?)?)
}

/// Takes the commands that the next lines ask for, as long as these were read already, and at most so
/// many. Adds their answers, and counts them. A line is left where its command isn't taken.
pub(crate) fn take_ready<D: Disk>(
    alloc: Global,
    book: &mut Book<D>,
    lines: &mut LineBuffer,
    most: usize,
    group: &mut Answered,
) -> Result<(), ServeFault>
    requires { group.old.count + most ≤ MAX_LINES }
    ensures taken { (limit : ℕ) → TakesReady limit most
        (is_ok result) lines.old lines.new group.old.answers.items
        group.new.answers.items group.old.count group.new.count book.old book.new }
    ensures keeper { keeper_of book.new ≡ keeper_of book.old }
    ensures fault { IfErr result (λ fault. fault ≡ ServeFault.Memory) }
{
    book.facts();
    for _ in 0..most {
        if !take_next(alloc, book, lines, group)? {
            return Ok(());
        }
    }
    Ok(())
}

/// Takes the command that the next line asks for, where there is one. Tells whether there was.
fn take_next<D: Disk>(
    alloc: Global,
    book: &mut Book<D>,
    lines: &mut LineBuffer,
    group: &mut Answered,
) -> Result<bool, ServeFault>
    requires { group.old.count < MAX_LINES }
    ensures taken { (limit : ℕ) → TakesReady limit 1
        (is_ok result) lines.old lines.new group.old.answers.items
        group.new.answers.items group.old.count group.new.count book.old book.new }
    ensures fault { IfErr result (λ fault. fault ≡ ServeFault.Memory) }
{
    book.facts();
    let Some(command) = ready_command(alloc, lines) else {
        return Ok(false);
    };
    let Ok(reply) = book.take(alloc, 0, command) else {
        return Ok(false);
    };
    book.facts();
    lines.pass_line();
    let answer = ended(print_reply(alloc, &reply)?)?;
    group.answers.extend_from_slice(&answer)?;
    group.count += 1;
    Ok(true)
}

/// The command that the next line asks for, where all of the line was read already.
fn ready_command(alloc: Global, lines: &LineBuffer) -> Option<Command>
    ensures { IfSome result (λ command. (line : List ℕ) × IsFed line lines.now.ahead
        × ReadsLine line (Ok (Asks command)) × (length line ≤ MAX_TEXT)) }
{
    let line = lines.ready_line()?;
    match read_command(alloc, line) {
        Ok(Line::Command(command)) => Some(command),
        Ok(_) | Err(_) => None,
    }
}

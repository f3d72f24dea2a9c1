//! Answering one line over a book.

ghost use Rattle.std.specs.Prelude.{true, false, ◌≡◌, ◌≢◌, ◌⊎◌, ◌<◌, ◌≤◌, ◌+◌, ◌-◌, ◌^◌, [], ◌∷◌, Ok, OnOk, OnErr, IfErr, IfOk};
ghost use Rattle.ic_book.specs.Book.{is_broken, number_of, log_of, table_of, disk_of};
ghost use Rattle.ic_jobs.specs.declared.event.Event.TheVariants.{Command as by_command};
ghost use Rattle.ic_commands.specs.declared.line.Line.TheVariants.{Command as Asks, Run};
ghost use Rattle.ic_text.specs.Text.{fault_text};
ghost use Rattle.ic_lines.specs.Lines.{ended};
ghost use Rattle.ic_lines.specs.Turns.{turns};
ghost use Rattle.ic_commands.specs.LineText.{ReadsLine};
ghost use Rattle.ic_lines.specs.Answers.{answer, after_line, events};
ghost use Rattle.ic_serving.specs.Booked.{last_kept, unkept_of, Begins, IsAllKept};
ghost use Rattle.ic_serving.specs.Parts.{IsBeforeRound, IsKeptWithin};
ghost use Rattle.ic_book.specs.Moves.{keeps};
ghost use Rattle.ic_book.specs.Weight.{weight, weight_of};
ghost use Rattle.ic_serving.specs.Answered.{CallsFewFor, EndsWith, IsAnswered, IsBegun, IsReplied};
ghost use Rattle.ic_serving.specs.Grown.{BeginsPage, CallsFew, GoesOn, HasRoom, HasSpare, IsLimit};
ghost use Rattle.ic_serving.specs.Moments.{FaultLeaves, Leaves, IsKeptInLine};
ghost use Rattle.ic_serving.specs.Faults.{ComesAlone, ComesBroken, ComesFor, ComesInLine, ComesUnmade, ComesWithoutRound};
ghost use Rattle.ic_serving.specs.inner.Reading.{IsAnsweredAs};

use crate::fault::ServeFault;
use crate::makers::Makers;
use crate::rounds::make_room;
use crate::running::run;
use ic_book::Book;
use ic_commands::{Line, print_reply, read_command};
use ic_disk::Disk;
use ic_jobs::Command;
use ic_pool::{Gate, OpenGate};
use ic_text::{TextFault, print_fault, put_decimal};
use std::alloc::{AllocError, Global};
use std::sync::Wait;
use std::thread::Threads;

/// What a line asks, or why it is refused.
pub(crate) type Reading = Result<Line, TextFault>;

/// Does what a line asks, and answers what is to be written for it, for a loop of one's own. At Ok
/// all is kept, unless nothing has changed: so no byte of an answer is there before what its line
/// leaves is kept. At `Err` some of the line's events may stand in the book; where all was kept before
/// the line, at most `every` of them aren't kept.
///
/// A round is made by at most so many workers, and by one where it is small. Rounds are kept after
/// each `every` of them and at the end. A page of the history ends once its entries weigh `limit`.
/// Workers that stand for large rounds are joined before it returns. The line is given without its line
/// feed. A refused line is answered by its refusal, a blank one by nothing.
pub fn answer_line<T: Threads + Wait + Copy + Send + 'static, D: Disk>(
    rt: &T,
    alloc: Global,
    book: &mut Book<D>,
    line: &[u8],
    workers: usize,
    every: u64,
    limit: u64,
) -> Result<Vec<u8>, ServeFault>
    requires workers { 1 ≤ workers }
    requires every { 1 ≤ every }
    requires limit { IsLimit limit }
    ensures answered { IfOk result (λ bytes.
        IsAnswered limit line.now bytes.items book.old book.new) }
    ensures begun { IfErr result (λ fault. IsBegun limit line.now fault book.old book.new) }
    ensures fault { FaultLeaves ComesInLine result book.old book.new }
    ensures broken { is_broken book.old ≡ true → IfErr result ComesBroken }
    ensures still { is_broken book.old ≡ true → OnOk result (is_broken book.new ≡ true) }
    ensures alone { IfErr result ComesAlone }
    ensures few_unkept { IsAllKept book.old → unkept_of book.new ≤ every }
    ensures few_calls { CallsFewFor limit line.now every book.old book.new }

    // A crash at any moment leaves the table that was kept before the line, or one within it.
    ensures crash { Leaves book.old book.new
        (IsKeptInLine (table_of book.old) (last_kept book.old) line.now) }
{
    book.facts();
    ic_commands::laws::one_line_reading();
    let reading = read_line(alloc, line)?;
    let mut makers = Makers::new(alloc);
    let answered = answer_read(
        rt,
        alloc,
        book,
        reading,
        workers,
        every,
        limit,
        &OpenGate,
        &mut makers,
    );
    makers.finish(rt);
    answered
}

/// What a line asks, or its refusal.
pub(crate) fn read_line(alloc: Global, line: &[u8]) -> Result<Reading, ServeFault>
    ensures read { IfOk result (λ reading. ReadsLine line.now reading) }
    ensures memory { IfErr result (λ fault. fault ≡ ServeFault.Memory) }
{
    match read_command(alloc, line) {
        Err(TextFault::Memory) => Err(ServeFault::Memory),
        reading => Ok(reading),
    }
}

/// Does what a line asks that is read so, as `answer_line` does, watched by a gate, by makers of
/// rounds that are kept from line to line.
pub(crate) fn answer_read<T: Threads + Wait + Copy + Send + 'static, D: Disk, G: Gate>(
    rt: &T,
    alloc: Global,
    book: &mut Book<D>,
    reading: Reading,
    workers: usize,
    every: u64,
    limit: u64,
    gate: &G,
    makers: &mut Makers,
) -> Result<Vec<u8>, ServeFault>
    requires workers { 1 ≤ workers }
    requires every { 1 ≤ every }
    requires limit { IsLimit limit }
    ensures answered { IfOk result (λ bytes.
        IsAnsweredAs limit reading bytes.items book.old book.new) }
    ensures begun { OnErr result (Begins limit
        (events (table_of book.old) reading) book.old book.new) }
    ensures comes { IfErr result (ComesFor (table_of book.old) reading (table_of book.new)) }
    ensures fault { FaultLeaves ComesInLine result book.old book.new }
    ensures broken { is_broken book.old ≡ true → IfErr result ComesBroken }
    ensures still { is_broken book.old ≡ true → OnOk result (is_broken book.new ≡ true) }
    ensures alone { IfErr result ComesAlone }
    ensures few_unkept { IsAllKept book.old → unkept_of book.new ≤ every }
    ensures few_calls { CallsFew limit
        (events (table_of book.old) reading) every book.old book.new }
    ensures crash { Leaves book.old book.new (IsKeptWithin (table_of book.old)
        (last_kept book.old) (events (table_of book.old) reading)) }
{
    book.facts();
    match reading {
        Ok(Line::Blank) => Ok(Vec::new(alloc)),
        Ok(Line::Command(command)) => answer_command(alloc, book, command, limit),
        Ok(Line::Run(count)) => answer_run(
            rt, alloc, book, count, workers, every, limit, gate, makers,
        ),
        Err(fault) => answer_refused(alloc, fault),
    }
}

fn answer_refused(alloc: Global, fault: TextFault) -> Result<Vec<u8>, ServeFault>
    ensures answer { IfOk result (λ bytes. bytes.items ≡ ended (fault_text fault)) }
    ensures fault { IfErr result (λ fault. fault ≡ ServeFault.Memory) }
{
    Ok(ended(print_fault(alloc, &fault)?)?)
}

/// Does what a command asks, keeps it, and answers what is to be written for it, with a line feed. A page
/// that weighs `limit` ends before.
pub fn answer_command<D: Disk>(
    alloc: Global,
    book: &mut Book<D>,
    command: Command,
    limit: u64,
) -> Result<Vec<u8>, ServeFault>
    requires limit { IsLimit limit }
    ensures answer { IfOk result (λ bytes.
        bytes.items ≡ answer (table_of book.old) (Ok (Asks command))) }
    ensures table { OnOk result
        (table_of book.new ≡ after_line (table_of book.old) (Ok (Asks command))) }
    ensures kept { OnOk result (IsAllKept book.new) }
    ensures whole { OnOk result (is_broken book.new ≡ false) }
    ensures replied { IfOk result (λ bytes. IsReplied command bytes.items book.old book.new) }
    ensures fresh { OnOk result (number_of book.old ≢ 2 ^ 64 - 1) }
    ensures page { OnOk result (HasSpare limit book.old
        → GoesOn (by_command command ∷ []) book.old book.new) }
    ensures turned { OnOk result (limit ≤ weight_of (log_of book.old)
        → BeginsPage (by_command command ∷ []) book.old book.new) }
    ensures begun { OnErr result (Begins limit (by_command command ∷ []) book.old book.new) }
    ensures fault { FaultLeaves ComesInLine result book.old book.new }
    ensures comes { IfErr result ComesWithoutRound }
    ensures broken { is_broken book.old ≡ true → IfErr result ComesBroken }
    ensures unbroken { OnOk result (is_broken book.old ≡ false) }
    ensures alone { IfErr result ComesAlone }
    ensures few_unkept { unkept_of book.new ≤ unkept_of book.old + 1 }
    ensures bounded { OnOk result (weight_of (log_of book.new)
        < limit + weight (by_command command)) }
    ensures few_calls { HasSpare limit book.old
        → D.clock (disk_of book.new) ≤ D.clock (disk_of book.old) + 6 }
    ensures crash { Leaves book.old book.new (IsKeptWithin (table_of book.old)
        (last_kept book.old) (by_command command ∷ [])) }
{
    make_room(alloc, book, limit)?;
    book.facts();
    let reply = book.command(alloc, 0, command)?;
    book.facts();
    Ok(ended(print_reply(alloc, &reply)?)?)
}

fn answer_run<T: Threads + Wait + Copy + Send + 'static, D: Disk, G: Gate>(
    rt: &T,
    alloc: Global,
    book: &mut Book<D>,
    count: u64,
    workers: usize,
    every: u64,
    limit: u64,
    gate: &G,
    makers: &mut Makers,
) -> Result<Vec<u8>, ServeFault>
    requires workers { 1 ≤ workers }
    requires every { 1 ≤ every }
    requires limit { IsLimit limit }
    ensures answer { IfOk result (λ bytes.
        bytes.items ≡ answer (table_of book.old) (Ok (Run count))) }
    ensures table { OnOk result
        (table_of book.new ≡ after_line (table_of book.old) (Ok (Run count))) }
    ensures kept { OnOk result (IsAllKept book.new) }
    ensures whole { OnOk result (is_broken book.new ≡ false) }
    ensures made { OnOk result (EndsWith keeps book.old book.new) }
    ensures page { OnOk result (HasRoom limit (turns count 0 (table_of book.old)) book.old
        → GoesOn (turns count 0 (table_of book.old)) book.old book.new) }
    ensures begun { OnErr result (Begins limit
        (turns count 0 (table_of book.old)) book.old book.new) }
    ensures fault { FaultLeaves ComesInLine result book.old book.new }
    ensures idle { turns count 0 (table_of book.old) ≡ [] → IfErr result ComesWithoutRound }
    ensures unmade { IfErr result (λ fault. ComesUnmade fault ⊎ IsBeforeRound
        (table_of book.old) (turns count 0 (table_of book.old)) (table_of book.new)) }
    ensures broken { is_broken book.old ≡ true → IfErr result ComesBroken }
    ensures unbroken { OnOk result (is_broken book.old ≡ false) }
    ensures alone { IfErr result ComesAlone }
    ensures few_unkept { IsAllKept book.old → unkept_of book.new ≤ every }
    ensures few_calls { CallsFew limit (turns count 0 (table_of book.old)) every book.old book.new }
    ensures crash { Leaves book.old book.new (IsKeptWithin (table_of book.old)
        (last_kept book.old) (turns count 0 (table_of book.old))) }
{
    let made = run(rt, alloc, book, count, workers, every, limit, gate, makers)?;
    book.facts();
    let mut line = b"ran ".to_vec(alloc)?;
    put_decimal(made, &mut line)?;
    Ok(ended(line)?)
}

/// A line with its line feed.
pub(crate) fn ended(line: Vec<u8>) -> Result<Vec<u8>, AllocError>
    ensures { IfOk result (λ bytes. bytes.items ≡ ended line.items) }
{
    let mut line = line;
    line.push(b'\n')?;
    Ok(line)
}

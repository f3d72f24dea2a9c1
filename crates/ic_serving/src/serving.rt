//! Serving all lines of a reader over a book.

ghost use Rattle.std.specs.Prelude.{true, false, ◌≡◌, ◌≢◌, ◌≤◌, ◌⊎◌, [], IfOk, IfErr, Ok, OnOk, length, max};
ghost use Rattle.std.specs.Io.KnownBytes.{Keeps};
ghost use Rattle.ic_commands.specs.LineText.{ReadsLine};
ghost use Rattle.ic_commands.specs.declared.line.Line.TheVariants.{Command as Asks};
ghost use Rattle.ic_lines.specs.declared.buffer.LineFault.TheVariants.{LongLine};
ghost use Rattle.ic_lines.specs.Taking.{to_come, HasNoLine, TakesLine};
ghost use Rattle.ic_text.specs.declared.limits.TheConstants.{MAX_TEXT};
ghost use Rattle.ic_serving.specs.declared.limits.TheConstants.{MAX_LINES};
ghost use Rattle.ic_serving.specs.inner.Group.{IsNextAnswered, IsNextBegun};
ghost use Rattle.ic_serving.specs.inner.Progress.{IsUntaken};
ghost use Rattle.ic_book.specs.Book.{is_broken};
ghost use Rattle.ic_serving.specs.Faults.{ComesAlone, ComesBroken, ComesInLine, MayCome, fault_of_line};
ghost use Rattle.ic_serving.specs.Booked.{unkept_of, IsAllKept};
ghost use Rattle.ic_serving.specs.Moments.{FaultLeaves};
ghost use Rattle.ic_serving.specs.Served.{OfLines, IsReadOut};
ghost use Rattle.ic_serving.specs.Grown.{IsLimit};
ghost use Rattle.ic_serving.specs.Serving.{IsServing};

use crate::answering::{Reading, answer_read, read_line};
use crate::fault::ServeFault;
use crate::grouping::answer_group;
use crate::limits::MAX_LINES;
use crate::makers::Makers;
use crate::taking::Answered;
use crate::writing::write_answer;
use ic_book::Book;
use ic_commands::Line;
use ic_disk::Disk;
use ic_jobs::Command;
use ic_lines::{LineBuffer, LineFault};
use ic_pool::{Gate, OpenGate};
use std::alloc::Global;
use std::io::{Read, Write};
use std::sync::Wait;
use std::thread::Threads;

/// Serves the lines of the reader over the book. A command is answered with those of the next lines that
/// were read already, at most `group` lines at once: their commands are done, one keep keeps what they
/// leave, and then their answers are written. A round is made by at most so many workers, and by one
/// where it is small. Rounds are kept after each `every` of them; what a line leaves is kept before the
/// line is answered. A page of the history ends once its entries weigh `limit`. Answers are flushed before
/// the reader is waited for, before a `run`, and before each command but `fetch` and `list`. Workers that
/// stand for large rounds are joined before it returns.
///
/// At a fault the lines before it are answered, except at a fault of the writer. The line at which it
/// came, and those that were to be answered with it, aren't answered, though some of their events may
/// stand in the book.
pub fn serve_lines<T: Threads + Wait + Copy + Send + 'static, D: Disk, R: Read, W: Write>(
    rt: &T,
    alloc: Global,
    book: &mut Book<D>,
    reader: &mut R,
    writer: &mut W,
    workers: usize,
    every: u64,
    group: usize,
    limit: u64,
) -> Result<(), ServeFault>
    requires workers { 1 ≤ workers }
    requires every { 1 ≤ every }
    requires group { 1 ≤ group }
    requires limit { IsLimit limit }
    // There are lines of which all this holds: those of the reader's bytes, where it tells them.
    ensures serving { OfLines (R.remaining reader.old) (λ ls. IsServing limit group result ls
        book.old book.new (W.contents writer.old) (W.contents writer.new)) }
    ensures over { OnOk result (IsReadOut (R.remaining reader.old) (R.remaining reader.new)) }
    ensures fault { FaultLeaves MayCome result book.old book.new }
    ensures broken { is_broken book.old ≡ true → IfErr result ComesBroken }
    ensures still { is_broken book.old ≡ true → OnOk result (is_broken book.new ≡ true) }
    ensures alone { IfErr result ComesAlone }
    ensures few_unkept { IsAllKept book.old → unkept_of book.new ≤ max every group }
{
    serve_watched(
        rt, alloc, book, reader, writer, workers, every, group, limit, &OpenGate,
    )
}

/// `serve_lines`, watched by a gate: it is told of each round that lands and each halt. Workers stand
/// with a gate of their own, which is open.
pub fn serve_watched<
    T: Threads + Wait + Copy + Send + 'static,
    D: Disk,
    R: Read,
    W: Write,
    G: Gate,
>(
    rt: &T,
    alloc: Global,
    book: &mut Book<D>,
    reader: &mut R,
    writer: &mut W,
    workers: usize,
    every: u64,
    group: usize,
    limit: u64,
    gate: &G,
) -> Result<(), ServeFault>
    requires workers { 1 ≤ workers }
    requires every { 1 ≤ every }
    requires group { 1 ≤ group }
    requires limit { IsLimit limit }
    ensures serving { OfLines (R.remaining reader.old) (λ ls. IsServing limit group result ls
        book.old book.new (W.contents writer.old) (W.contents writer.new)) }
    ensures over { OnOk result (IsReadOut (R.remaining reader.old) (R.remaining reader.new)) }
    ensures fault { FaultLeaves MayCome result book.old book.new }
    ensures broken { is_broken book.old ≡ true → IfErr result ComesBroken }
    ensures still { is_broken book.old ≡ true → OnOk result (is_broken book.new ≡ true) }
    ensures alone { IfErr result ComesAlone }
    ensures few_unkept { IsAllKept book.old → unkept_of book.new ≤ max every group }
{
    let mut lines = LineBuffer::new(alloc);
    let mut makers = Makers::new(alloc);
    let served = serve_with(
        rt,
        alloc,
        book,
        reader,
        writer,
        workers,
        every,
        group,
        limit,
        gate,
        &mut lines,
        &mut makers,
    );
    makers.finish(rt);
    served
}

/// The same, by an empty buffer of lines and makers of rounds that outlast it. A buffer that was
/// dropped at each `?` would make the proof long.
fn serve_with<T: Threads + Wait + Copy + Send + 'static, D: Disk, R: Read, W: Write, G: Gate>(
    rt: &T,
    alloc: Global,
    book: &mut Book<D>,
    reader: &mut R,
    writer: &mut W,
    workers: usize,
    every: u64,
    group: usize,
    limit: u64,
    gate: &G,
    lines: &mut LineBuffer,
    makers: &mut Makers,
) -> Result<(), ServeFault>
    requires workers { 1 ≤ workers }
    requires every { 1 ≤ every }
    requires group { 1 ≤ group }
    requires limit { IsLimit limit }
    requires empty { lines.old.ahead ≡ [] }
    ensures serving { OfLines (R.remaining reader.old) (λ ls. IsServing limit group result ls
        book.old book.new (W.contents writer.old) (W.contents writer.new)) }
    ensures over { OnOk result (IsReadOut (R.remaining reader.old) (R.remaining reader.new)) }
    ensures fault { FaultLeaves MayCome result book.old book.new }
    ensures broken { is_broken book.old ≡ true → IfErr result ComesBroken }
    ensures still { is_broken book.old ≡ true → OnOk result (is_broken book.new ≡ true) }
    ensures alone { IfErr result ComesAlone }
    ensures few_unkept { IsAllKept book.old → unkept_of book.new ≤ max every group }
{
    ic_commands::laws::one_line_reading();
    ic_lines::laws::lines_are_served_in_one_way();
    book.facts();
    let mut left = MAX_LINES;
    for _ in 0..MAX_LINES + 1 {
        book.facts();
        if !take_one(lines, reader, writer, left)? {
            return Ok(());
        }
        let reading = begin_line(alloc, lines.line(), group, writer)?;
        let most = group.min(left);
        let answered = answer_next(
            rt, alloc, book, reading, lines, workers, every, most, limit, gate, makers,
        )?;
        book.facts();
        left -= answered.count;
        write_answer(writer, &answered.answers)?;
    }
    Err(ServeFault::TooManyLines)
}

/// Takes the next line, where there is one. It is one too many where no more may be served.
fn take_one<R: Read, W: Write>(
    lines: &mut LineBuffer,
    reader: &mut R,
    writer: &mut W,
    left: usize,
) -> Result<bool, ServeFault>
    ensures taken { result ≡ Ok true → TakesLine lines.new.line
        (to_come lines.old (R.remaining reader.old)) (to_come lines.new (R.remaining reader.new)) }
    ensures some { result ≡ Ok true → left ≢ 0 }
    ensures short { result ≡ Ok true → length lines.new.line ≤ MAX_TEXT }
    ensures end { result ≡ Ok false → HasNoLine (to_come lines.old (R.remaining reader.old)) }
    ensures stays { result ≡ Ok false → Keeps (to_come lines.old (R.remaining reader.old))
        (to_come lines.new (R.remaining reader.new)) }
    ensures untaken { IfErr result (λ fault. IsUntaken left fault
        (to_come lines.old (R.remaining reader.old))) }
    ensures kept { Keeps (W.contents writer.old) (W.contents writer.new) }
{
    match lines.take_line(reader, writer) {
        Ok(some) => {
            if some && left == 0 {
                return Err(ServeFault::TooManyLines);
            }
            Ok(some)
        }
        Err(fault) => {
            if left == 0 {
                return Err(after_the_last(fault));
            }
            Err(fault.into())
        }
    }
}

/// Answers the line that was taken last, which is read so, and where it asks for a command, the lines
/// that are answered with it.
fn answer_next<T: Threads + Wait + Copy + Send + 'static, D: Disk, G: Gate>(
    rt: &T,
    alloc: Global,
    book: &mut Book<D>,
    reading: Reading,
    lines: &mut LineBuffer,
    workers: usize,
    every: u64,
    most: usize,
    limit: u64,
    gate: &G,
    makers: &mut Makers,
) -> Result<Answered, ServeFault>
    requires workers { 1 ≤ workers }
    requires every { 1 ≤ every }
    requires some { 1 ≤ most }
    requires few { most ≤ MAX_LINES }
    requires limit { IsLimit limit }
    requires reads { ReadsLine lines.old.line reading }
    ensures answered { IfOk result (λ group. IsNextAnswered limit most lines.old lines.new
        group.answers.items group.count book.old book.new) }
    ensures begun { IfErr result (λ fault. IsNextBegun most lines.old lines.new fault
        book.old book.new) }
    ensures fault { FaultLeaves ComesInLine result book.old book.new }
    ensures broken { is_broken book.old ≡ true → IfErr result ComesBroken }
    ensures still { is_broken book.old ≡ true → OnOk result (is_broken book.new ≡ true) }
    ensures alone { IfErr result ComesAlone }
    ensures few_unkept { IsAllKept book.old → unkept_of book.new ≤ max every most }
{
    ic_commands::laws::one_line_reading();
    ic_lines::laws::lines_are_served_in_one_way();
    match command_of(reading) {
        Ok(command) => answer_group(alloc, book, command, lines, most, limit),
        Err(reading) => {
            let answers = answer_read(
                rt, alloc, book, reading, workers, every, limit, gate, makers,
            )?;
            Ok(Answered { answers, count: 1 })
        }
    }
}

/// What a line asks. Before a run, and before a group of commands, or a command whose work is kept, the answers to the
/// lines before it are flushed, so that they don't wait for it.
fn begin_line<W: Write>(
    alloc: Global,
    line: &[u8],
    group: usize,
    writer: &mut W,
) -> Result<Reading, ServeFault>
    ensures read { IfOk result (λ reading. ReadsLine line.now reading) }
    ensures kept { Keeps (W.contents writer.old) (W.contents writer.new) }
    ensures fault { IfErr result (λ fault. (fault ≡ ServeFault.Memory)
        ⊎ (fault ≡ ServeFault.Write)) }
{
    let reading = read_line(alloc, line)?;
    if may_take_long(&reading, group) {
        writer.flush().map_err(|_| ServeFault::Write)?;
    }
    Ok(reading)
}

/// Whether what a line asks makes rounds or is kept: all but commands that only ask of the table, where no group begins
/// with them.
fn may_take_long(reading: &Reading, group: usize) -> bool {
    match reading {
        Ok(Line::Run(_)) => true,
        Ok(Line::Command(Command::Fetch(_) | Command::List)) => group > 1,
        Ok(Line::Command(_)) => true,
        Ok(Line::Blank) | Err(_) => false,
    }
}

/// The command that a line asks for, or what it is read as.
fn command_of(reading: Reading) -> Result<Command, Reading>
    ensures command { IfOk result (λ command. reading ≡ Ok (Asks command)) }
    ensures other { IfErr result (λ other. other ≡ reading) }
{
    match reading {
        Ok(Line::Command(command)) => Ok(command),
        Ok(Line::Blank) => Err(Ok(Line::Blank)),
        Ok(Line::Run(count)) => Err(Ok(Line::Run(count))),
        Err(fault) => Err(Err(fault)),
    }
}

/// Why no line is taken after the last one that may be served: one that is too long is one too
/// many.
fn after_the_last(fault: LineFault) -> ServeFault
    ensures long { fault ≡ LongLine → result ≡ ServeFault.TooManyLines }
    ensures others { fault ≢ LongLine → result ≡ fault_of_line fault }
    ensures causes { MayCome result }
    ensures broken { ComesBroken result }
    ensures alone { ComesAlone result }
{
    match fault {
        LineFault::LongLine => ServeFault::TooManyLines,
        fault => fault.into(),
    }
}

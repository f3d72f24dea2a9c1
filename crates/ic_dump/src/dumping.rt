//! Dumping a table, or some jobs of it.

ghost use Rattle.std.specs.Prelude.{◌≡◌, ◌≢◌, ◌++◌, ◌∷◌, [], ◌<◌, ◌≤◌, IfOk, IfErr, OnOk, OnErr, Ok, length};
ghost use Rattle.std.specs.List.{list_any};
ghost use Rattle.std.specs.Io.KnownBytes.{Appends, Keeps};
ghost use Rattle.ic_output.specs.Output.{AppendsFront};
ghost use Rattle.ic_jobs.specs.Table.{is_named};
ghost use Rattle.ic_dump.specs.Telling.{job_line};
ghost use Rattle.ic_dump.specs.Dumping.{is_chosen, first_missing, dumped, WritesDump, WritesDumpPart, FaultOf};

use crate::fault::DumpFault;
use crate::telling::job_line;
use ic_jobs::{Job, Table};
use ic_output::write_flushed;
use ic_rules::JobName;
use ic_text::MAX_TEXT;
use std::alloc::Global;
use std::io::Write;

/// Writes the line of each job of these names, or of each job where no name is given, in the order of the table.
///
/// Nothing is written before all lines are made: where no job has one of the names, or one of the lines is longer than
/// a line may be, nothing is. Where the writer fails a front of the lines is written.
pub fn dump_jobs<W: Write>(
    alloc: Global,
    table: &Table,
    names: &[JobName],
    writer: &mut W,
) -> Result<(), DumpFault>
    ensures written { OnOk result
        (WritesDump names.now table.now (W.contents writer.old) (W.contents writer.new)) }
    ensures refused { IfErr result (FaultOf names.now table.now) }
    ensures silent { IfErr result (λ fault. fault ≢ DumpFault.Write
        → Keeps (W.contents writer.old) (W.contents writer.new)) }
    ensures cut { IfErr result (λ fault. fault ≡ DumpFault.Write
        → WritesDumpPart names.now table.now
        (W.contents writer.old) (W.contents writer.new)) }
{
    let lines = dumped(alloc, table, names)?;
    write(writer, &lines)
}

/// The lines of the jobs that are asked for.
fn dumped(alloc: Global, table: &Table, names: &[JobName]) -> Result<Vec<u8>, DumpFault>
    ensures lines { IfOk result (λ lines. dumped names.now table.now ≡ Ok lines.items) }
    ensures refused { IfErr result (FaultOf names.now table.now) }
    ensures sort { IfErr result (λ fault. fault ≢ DumpFault.Write) }
{
    if let Some(name) = first_missing(table, names) {
        return Err(DumpFault::NoJob(name));
    }
    let mut lines = Vec::new(alloc);
    for job in table.jobs() {
        if is_chosen(names, job) {
            put_line(alloc, job, &mut lines)?;
        }
    }
    Ok(lines)
}

/// The first name that no job has.
fn first_missing(table: &Table, names: &[JobName]) -> Option<JobName>
    ensures { result ≡ first_missing names.now table.now }
{
    for name in names {
        if table.get(*name).is_none() {
            return Some(*name);
        }
    }
    None
}

/// Whether a job has one of the names, or no name is given.
fn is_chosen(names: &[JobName], job: &Job) -> bool
    ensures { result ≡ is_chosen names.now job.now }
{
    names.is_empty() || has_a_name(names, job)
}

/// Whether a job has one of the names.
fn has_a_name(names: &[JobName], job: &Job) -> bool
    ensures { result ≡ list_any (λ n. is_named n job.now) names.now }
{
    let own = job.name();
    for name in names {
        if name.as_bytes() == own.as_bytes() {
            return true;
        }
    }
    false
}

/// Appends the line of a job, with its line feed.
fn put_line(alloc: Global, job: &Job, lines: &mut Vec<u8>) -> Result<(), DumpFault>
    ensures line { OnOk result
        (lines.new.items ≡ lines.old.items ++ (job_line job.now ++ 10 ∷ [])) }
    ensures short { OnOk result (length (job_line job.now) ≤ MAX_TEXT) }
    ensures long { IfErr result (λ fault. fault ≢ DumpFault.Memory
        → (fault ≡ DumpFault.TooLong job.now.name) × (MAX_TEXT < length (job_line job.now))) }
{
    let line = job_line(alloc, job)?;
    if line.len() > MAX_TEXT {
        return Err(DumpFault::TooLong(job.name()));
    }
    lines.extend_from_slice(&line)?;
    lines.push(b'\n')?;
    Ok(())
}

/// Writes lines and flushes them.
fn write<W: Write>(writer: &mut W, lines: &[u8]) -> Result<(), DumpFault>
    ensures written { OnOk result
        (Appends (W.contents writer.old) (W.contents writer.new) lines.now) }
    ensures cut { OnErr result
        (AppendsFront (W.contents writer.old) (W.contents writer.new) [] lines.now) }
    ensures refused { IfErr result (λ fault. fault ≡ DumpFault.Write) }
{
    match write_flushed(writer, lines) {
        Ok(()) => Ok(()),
        Err(_) => Err(DumpFault::Write),
    }
}

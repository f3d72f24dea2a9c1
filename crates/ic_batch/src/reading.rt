//! Reading the lines that submit jobs.

ghost use Rattle.std.specs.Prelude.{◌≡◌, ◌<◌, false, length, IfErr, IfOk};
ghost use Rattle.std.specs.List.{count_by, list_any};
ghost use Rattle.std.specs.Str.{bytes_eq};
ghost use Rattle.ic_lines.specs.Lines.{lines};
ghost use Rattle.ic_batch.specs.Faults.{has_text, IsLineAfter, IsRefused, SaysOfLines};
ghost use Rattle.ic_batch.specs.Jobs.{AreJobsOf};
ghost use Rattle.ic_batch.specs.inner.Taking.{IsNext};

use crate::fault::{JobsCause, JobsFault};
use crate::jobs::NewJob;
use ic_jobs::{Command, MAX_JOBS, Refusal};
use ic_lines::read_script;
use ic_text::{TextFault, is_blank};
use std::alloc::Global;

/// The jobs of lines, in their order, or the first line with a fault. A line ends with a line feed,
/// and the last may go without; a blank one gives no job. Where each line can be read, any other command
/// than a submit is refused, and so is a name that a line before has, and a 33rd job.
pub fn read_jobs(alloc: Global, text: &[u8]) -> Result<Vec<NewJob>, JobsFault>
    ensures read { IfOk result (λ jobs. AreJobsOf text.now jobs.items) }
    ensures refused { IfErr result (SaysOfLines text.now) }
{
    ic_commands::laws::commands_ask();
    ic_commands::laws::script_lines_are_lines_without_runs();
    ic_commands::laws::one_script_line_reading();
    let commands = match read_script(alloc, text) {
        Ok(commands) => commands,
        Err(refusal) if refusal.fault == TextFault::Memory => return Err(JobsFault::Memory),
        Err(refusal) => {
            let cause = JobsCause::Text(refusal.fault);
            return Err(JobsFault::Line(refusal.line, cause));
        }
    };
    let mut jobs = Vec::new(alloc);
    for command in commands {
        let new = match next_job(&jobs, command) {
            Ok(new) => new,
            Err(cause) => return Err(JobsFault::Line(line_after(text, jobs.len()), cause)),
        };
        jobs.push(new)?;
    }
    Ok(jobs)
}

/// The job that a command submits, or why it isn't taken after these jobs.
fn next_job(jobs: &[NewJob], command: Command) -> Result<NewJob, JobsCause>
    ensures next { IfOk result (IsNext jobs.now command) }
    ensures refused { IfErr result (IsRefused jobs.now command) }
{
    let Command::Submit(name, system, budget) = command else {
        return Err(JobsCause::Text(TextFault::Syntax));
    };
    let new = NewJob {
        name,
        system,
        budget,
    };
    if is_taken(jobs, &new) {
        return Err(JobsCause::Refused(Refusal::Taken));
    }
    if jobs.len() >= MAX_JOBS {
        return Err(JobsCause::Refused(Refusal::Full));
    }
    Ok(new)
}

/// Whether one of these jobs has the name of another.
fn is_taken(jobs: &[NewJob], new: &NewJob) -> bool
    ensures { result ≡ list_any (λ job. bytes_eq job.name new.now.name) jobs.now }
{
    for job in jobs {
        if job.name.as_bytes() == new.name.as_bytes() {
            return true;
        }
    }
    false
}

/// The number, from 1, of the first line that isn't blank after so many that aren't blank; where
/// there is none, of the last line.
fn line_after(text: &[u8], many: usize) -> usize
    ensures { many < count_by has_text (lines text.now) → IsLineAfter text.now many result }
{
    let mut line: usize = 1;
    let mut left = many;
    let mut is_begun = false;
    for byte in text {
        if *byte == b'\n' {
            line += 1;
            is_begun = false;
        } else if !is_begun && !is_blank(*byte) {
            if left == 0 {
                return line;
            }
            left -= 1;
            is_begun = true;
        }
    }
    line
}

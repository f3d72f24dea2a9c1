//! What standard error is told of jobs that go no further and have come to no result.

use ic_batch::NewJob;
use ic_by_rounds::{circle_text, stuck_text};
use ic_inspect::{halt_of, halt_words};
use ic_jobs::{Job, State, Table};
use std::alloc::{AllocError, Global};
use std::io::Write;

/// What is said of a job that is done with a stuck pair, before the pair.
const STUCK: &[u8] = b" is done, but stuck: there is no rule for ";

/// What is said of a job that is done with a circle, before the symbol at which it is closed.
const CIRCLE: &[u8] = b" is done with a circle, which no step takes apart, at ";

/// What is said of a job that is halted, before the cause.
const HALTED: &[u8] = b" is halted";

/// Tells of each of these jobs that is done with a stuck pair or a circle, and of each that is halted.
pub(crate) fn tell_of_jobs(rt: &HostRuntime, jobs: &[Job]) {
    for job in jobs {
        if let Ok(line) = lines_of(rt.alloc(), job) {
            let _ = rt.stderr().write_all(&line);
        }
    }
}

/// The lines of a job, or nothing.
fn lines_of(alloc: Global, job: &Job) -> Result<Vec<u8>, AllocError> {
    let mut line = Vec::new(alloc);
    match job.state() {
        State::Done => {
            let symbols = job.rules().symbols();
            if let Some(pair) = stuck_text(alloc, symbols, job.config())? {
                put_done(job, STUCK, &pair, &mut line)?;
            }
            if let Some(symbol) = circle_text(alloc, symbols, job.config())? {
                put_done(job, CIRCLE, &symbol, &mut line)?;
            }
        }
        State::Halted => {
            put_name(job, &mut line)?;
            line.extend_from_slice(HALTED)?;
            put_cause(alloc, job, &mut line)?;
        }
        State::Running | State::Paused | State::Spent => {}
    }
    Ok(line)
}

/// Appends the line that says this of a job that is done.
fn put_done(job: &Job, words: &[u8], what: &[u8], line: &mut Vec<u8>) -> Result<(), AllocError> {
    put_name(job, line)?;
    line.extend_from_slice(words)?;
    line.extend_from_slice(what)?;
    line.push(b'\n')?;
    Ok(())
}

/// Appends which job it is.
fn put_name(job: &Job, line: &mut Vec<u8>) -> Result<(), AllocError> {
    line.extend_from_slice(b"job ")?;
    line.extend_from_slice(job.name().as_bytes())
}

/// Appends why no further round of a halted job can be made, if none can, and ends the line.
fn put_cause(alloc: Global, job: &Job, line: &mut Vec<u8>) -> Result<(), AllocError> {
    if let Some(halt) = halt_of(alloc, job)? {
        line.extend_from_slice(b": ")?;
        line.extend_from_slice(halt_words(halt))?;
    }
    line.push(b'\n')?;
    Ok(())
}

/// A line for each of these jobs that is halted in the table, which says why.
pub(crate) fn halted_lines(
    alloc: Global,
    table: &Table,
    jobs: &[NewJob],
) -> Result<Vec<u8>, AllocError> {
    let mut lines = Vec::new(alloc);
    for new in jobs {
        if let Some(job) = table.get(new.name) {
            put_halted(alloc, job, &mut lines)?;
        }
    }
    Ok(lines)
}

/// Appends the line of a job, if it is halted.
fn put_halted(alloc: Global, job: &Job, lines: &mut Vec<u8>) -> Result<(), AllocError> {
    if job.state() == State::Halted {
        lines.extend_from_slice(b"icserve: halted ")?;
        lines.extend_from_slice(job.name().as_bytes())?;
        put_cause(alloc, job, lines)?;
    }
    Ok(())
}

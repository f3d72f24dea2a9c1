//! What is told of scripts that are attended over a new disk in memory, where works and answers wait for one another:
//! what each client is told, why a runner ended that made no more rounds, and the jobs that are left, with their states.
//!
//! - `attended`: with no gate.
//! - `meeting`: each work waits until so many have begun.
//! - `pair`: each answer of one of two clients waits until the other was answered.
//! - `during`: the first answer waits until a work has begun, and each work until the second answer was given.

use crate::answers::number_first;
use crate::books::new_disk;
use crate::held::{Held, Way};
use crate::scripts::scripts_of;
use ic_attend::{Attended, ClientRun, RunnerEnd, attend};
use ic_commands::print_reply;
use ic_disk::MemDisk;
use ic_notation::Trouble;
use std::alloc::{AllocError, Global};
use std::sync::Wait;
use std::thread::Threads;
use std::time::Clock;

/// How many runners, turns and workers a row wants, and its gate.
#[derive(Clone, Copy)]
struct Wanted {
    runners: usize,
    turns: usize,
    workers: usize,
    way: Way,
}

/// What a row of this kind wants, and its scripts.
fn wanted_of<'a>(kind: &str, text: &'a str) -> (Wanted, &'a str) {
    let (runners, rest) = number_first(text);
    let (turns, rest) = number_first(rest);
    let (workers, rest) = number_first(rest);
    let (count, scripts) = number_first(rest);
    let wanted = Wanted {
        runners: runners as usize,
        turns: turns as usize,
        workers: workers as usize,
        way: way_of(kind, count),
    };
    (wanted, scripts)
}

fn way_of(kind: &str, count: u64) -> Way {
    match kind {
        "meeting" => Way::Meeting(count),
        "pair" => Way::Pair,
        "during" => Way::During,
        _ => Way::Open,
    }
}

/// What is told of scripts that are attended at a gate.
pub fn attended<R: Threads + Wait + Clock + Sync>(
    rt: &R,
    alloc: Global,
    kind: &str,
    text: &str,
) -> Result<Vec<u8>, Trouble> {
    let (wanted, scripts) = wanted_of(kind, text);
    let disk = new_disk(alloc)?;
    let scripts = scripts_of(alloc, scripts)?;
    let gate = Held::new(rt, wanted.way);
    let Wanted {
        runners,
        turns,
        workers,
        ..
    } = wanted;
    match attend(rt, alloc, disk, scripts, runners, turns, workers, &gate) {
        Ok(done) if gate.has_held() => told(alloc, &done),
        Ok(_) => Err(Trouble("a wait ran out")),
        Err(_fault) => Err(Trouble("not attended")),
    }
}

/// What is told of a history, with ` ; ` after each part.
fn told(alloc: Global, done: &Attended<MemDisk>) -> Result<Vec<u8>, Trouble> {
    let mut line = Vec::new(alloc);
    for run in &done.answers {
        tell_run(alloc, &mut line, run)?;
    }
    for end in &done.ends {
        line.extend_from_slice(end_words(end))?;
    }
    tell_jobs(alloc, &mut line, done)?;
    Ok(line)
}

/// What a client was answered.
fn tell_run(alloc: Global, line: &mut Vec<u8>, run: &ClientRun) -> Result<(), Trouble> {
    if run.end.is_some() {
        return Err(Trouble("a client was refused"));
    }
    for (_, reply) in &run.answers {
        line.append(&mut print_reply(alloc, reply)?)?;
        line.extend_from_slice(b" ; ")?;
    }
    line.extend_from_slice(b"| ")?;
    Ok(())
}

fn end_words(end: &RunnerEnd) -> &'static [u8] {
    match end {
        RunnerEnd::Idle | RunnerEnd::Turns(_) => b"",
        RunnerEnd::Book(_) => b"refused ; ",
        RunnerEnd::Pool(_) => b"not played ; ",
    }
}

/// The jobs, each with its state.
fn tell_jobs(
    alloc: Global,
    line: &mut Vec<u8>,
    done: &Attended<MemDisk>,
) -> Result<(), AllocError> {
    for job in done.book.table().jobs() {
        line.extend_from_slice(job.name().as_bytes())?;
        let state = job.state();
        line.extend_from_slice(format!(in alloc; " {state:?} ; ")?.as_bytes())?;
    }
    Ok(())
}

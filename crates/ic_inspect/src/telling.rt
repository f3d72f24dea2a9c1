//! The lines of what is seen of a file.

use crate::choosing::Newest;
use crate::halts::{halt_of, halt_words};
use crate::pairs::{circle_of, pairs_of, stuck_of};
use crate::seen::{Body, Looked, Seen};
use ic_jobs::{Job, State};
use std::alloc::{AllocError, Global};

/// The lines of what is seen of two slots.
pub(crate) fn report(alloc: Global, looked: &Looked) -> Result<Vec<u8>, AllocError> {
    let mut lines = Vec::new(alloc);
    put_slot(alloc, 1, &looked.first, &mut lines)?;
    put_slot(alloc, 2, &looked.second, &mut lines)?;
    put_both(b"held: ", held_words(looked).as_bytes(), &mut lines)?;
    lines.push(b'\n')?;
    if let Some(table) = looked.table() {
        for job in table.jobs() {
            put_job(alloc, job, &mut lines)?;
        }
    }
    Ok(lines)
}

/// Appends two texts.
fn put_both(one: &[u8], other: &[u8], out: &mut Vec<u8>) -> Result<(), AllocError> {
    out.extend_from_slice(one)?;
    out.extend_from_slice(other)
}

/// Which slot is held, or why none is.
pub(crate) fn held_words(looked: &Looked) -> &'static str {
    match (looked.newest(), looked.table()) {
        (Newest::NoSlot, _) => "no slot",
        (Newest::TwoAlike, _) => "two alike",
        (_, None) => "damaged",
        (Newest::First, Some(_)) => "slot 1",
        (Newest::Second, Some(_)) => "slot 2",
    }
}

/// The word of a slot's gate.
pub(crate) fn gate_word(opened: bool) -> &'static str {
    if opened { "open" } else { "closed" }
}

/// The words of a slot's body.
pub(crate) fn body_words(body: &Body) -> &'static str {
    match body {
        Body::TooLong => "too long",
        Body::CutShort => "cut short",
        Body::NoTable => "no table",
        Body::Holds(_) => "a table",
    }
}

/// The word of a state.
pub(crate) fn state_word(state: State) -> &'static str {
    match state {
        State::Running => "running",
        State::Paused => "paused",
        State::Done => "done",
        State::Halted => "halted",
        State::Spent => "spent",
    }
}

/// Appends the line of a slot.
fn put_slot(
    alloc: Global,
    place: u8,
    seen: &Option<Seen>,
    out: &mut Vec<u8>,
) -> Result<(), AllocError> {
    let line = match seen {
        None => format!(in alloc; "slot {place}: cut off\n")?,
        Some(seen) => {
            let (gate, body) = (gate_word(seen.opened), body_words(&seen.body));
            let (number, size) = (seen.number, seen.size);
            format!(in alloc; "slot {place}: {gate}, number {number}, body {size}, {body}\n")?
        }
    };
    out.extend_from_slice(line.as_bytes())
}

/// Appends the line of a job.
fn put_job(alloc: Global, job: &Job, out: &mut Vec<u8>) -> Result<(), AllocError> {
    let (state, rounds) = (state_word(job.state()), job.rounds());
    let (nodes, pairs) = (job.config().nodes(), pairs_of(job));
    let counts = format!(in alloc;
        ": {state}, rounds {rounds}, nodes {nodes}, active pairs {pairs}"
    )?;
    put_both(job.name().as_bytes(), counts.as_bytes(), out)?;
    if let Some(halt) = halt_of(alloc, job)? {
        put_both(b", ", halt_words(halt), out)?;
    }
    if let Some(pair) = stuck_of(alloc, job)? {
        put_both(b", stuck ", &pair, out)?;
    }
    if let Some(symbol) = circle_of(alloc, job)? {
        put_both(b", circle at ", &symbol, out)?;
    }
    out.extend_from_slice(b"\n")
}

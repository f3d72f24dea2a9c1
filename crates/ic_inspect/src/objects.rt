//! What is seen of a file as objects of JSON, one a line.

use crate::halts::{halt_of, halt_words};
use crate::pairs::{circle_of, pairs_of, stuck_of};
use crate::seen::{Looked, Seen};
use crate::telling::{body_words, gate_word, held_words, state_word};
use ic_jobs::Job;
use std::alloc::{AllocError, Global};

/// The objects of what is seen of two slots.
pub(crate) fn objects(alloc: Global, looked: &Looked) -> Result<Vec<u8>, AllocError> {
    let mut out = Vec::new(alloc);
    put_slot(alloc, 1, &looked.first, &mut out)?;
    put_slot(alloc, 2, &looked.second, &mut out)?;
    put_text(b"{\"held\":\"", held_words(looked).as_bytes(), &mut out)?;
    out.extend_from_slice(b"}\n")?;
    if let Some(table) = looked.table() {
        for job in table.jobs() {
            put_job(alloc, job, &mut out)?;
        }
    }
    Ok(out)
}

/// Appends a text, in which no byte has to be told otherwise, after what stands before it in its object, and the end of its string.
fn put_text(head: &[u8], text: &[u8], out: &mut Vec<u8>) -> Result<(), AllocError> {
    out.extend_from_slice(head)?;
    out.extend_from_slice(text)?;
    out.extend_from_slice(b"\"")
}

/// Appends the object of a slot.
fn put_slot(
    alloc: Global,
    place: u8,
    seen: &Option<Seen>,
    out: &mut Vec<u8>,
) -> Result<(), AllocError> {
    let line = match seen {
        None => format!(in alloc; "{{\"slot\":{place},\"state\":\"cut off\"}}\n")?,
        Some(seen) => {
            let (gate, body) = (gate_word(seen.opened), body_words(&seen.body));
            let (number, size) = (seen.number, seen.size);
            format!(in alloc;
                "{{\"slot\":{place},\"state\":\"{gate}\",\"number\":{number},\"size\":{size},\"body\":\"{body}\"}}\n"
            )?
        }
    };
    out.extend_from_slice(line.as_bytes())
}

/// Appends the object of a job.
fn put_job(alloc: Global, job: &Job, out: &mut Vec<u8>) -> Result<(), AllocError> {
    put_text(b"{\"job\":\"", job.name().as_bytes(), out)?;
    put_text(b",\"state\":\"", state_word(job.state()).as_bytes(), out)?;
    let (rounds, nodes, pairs) = (job.rounds(), job.config().nodes(), pairs_of(job));
    let counts = format!(in alloc;
        ",\"rounds\":{rounds},\"nodes\":{nodes},\"active_pairs\":{pairs}"
    )?;
    out.extend_from_slice(counts.as_bytes())?;
    if let Some(halt) = halt_of(alloc, job)? {
        put_text(b",\"halt\":\"", halt_words(halt), out)?;
    }
    if let Some(pair) = stuck_of(alloc, job)? {
        put_text(b",\"stuck\":\"", &pair, out)?;
    }
    if let Some(symbol) = circle_of(alloc, job)? {
        put_text(b",\"circle\":\"", &symbol, out)?;
    }
    out.extend_from_slice(b"}\n")
}

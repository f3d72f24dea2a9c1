//! What is answered to a row, by its kind. A fault of a call is told by its name in the code.
//!
//! - `round SYSTEM`: the places that pass the gate in a round, each once, and the text and `next` after it: by each
//!   number of workers the same, at a gate that yields at every second place.
//! - `at_once WORKERS COUNT SYSTEM`: the same of a round by so many workers, and how many are in the gate at once,
//!   where each waits in it until so many have begun; or why there is no round.
//! - `deal COUNT SYSTEM`: the places of the works of a round, dealt to so many parts.
//! - `matched SYSTEM`: what becomes of the works of the second round with their own answers, one missing, one twice,
//!   those of the first round beside them, those alone, and those in place of one.
//! - `made WORKERS`: how many workers a crew and how many posts it has. `dropped WORKERS SYSTEM`: what a crew answers
//!   twice whose posts were dropped, and whether it is spent then.
//! - `undumped`, `unshown`: the number of the fault of a dump, and of a look at a disk, whose output can't be flushed.
//! - `book LIVES`: what a book on a disk answers (`books` has the words).
//! - `meeting`, `pair`, `during`, `attended`, with RUNNERS TURNS WORKERS COUNT SCRIPTS: what clients are told at a gate,
//!   and the jobs that are left (`attended` has the ways).
//! - `reached LINE`: how many jobs a book has that the witness of the law over several lives hands out, where this
//!   command was answered.

use crate::attended::attended;
use crate::books::book;
use crate::crews::{dropped, made};
use crate::lives::reached;
use crate::rounds::{at_once, round};
use crate::streams::{undumped, unshown};
use crate::works::{dealt, matched};
use ic_notation::{Row, Trouble, expanded};
use std::alloc::Global;
use std::sync::Wait;
use std::thread::Threads;
use std::time::Clock;

/// What is answered to a row.
pub fn answer<R: Threads + Wait + Clock + Sync>(
    rt: &R,
    alloc: Global,
    row: &Row<'_>,
) -> Result<Vec<u8>, Trouble> {
    let text = expanded(alloc, row.text)?;
    let Ok(text) = str::from_utf8(&text) else {
        return Err(Trouble("no text"));
    };
    match row.kind {
        "round" => round(rt, alloc, text),
        "at_once" => at_once(rt, alloc, text),
        "dropped" => dropped(rt, alloc, text),
        "meeting" | "pair" | "during" | "attended" => attended(rt, alloc, row.kind, text),
        kind => alone(alloc, kind, text),
    }
}

/// What is answered where no thread is started and none is waited for.
fn alone(alloc: Global, kind: &str, text: &str) -> Result<Vec<u8>, Trouble> {
    match kind {
        "book" => book(alloc, text),
        "deal" => dealt(alloc, text),
        "matched" => matched(alloc, text),
        "made" => made(alloc, text),
        "undumped" => undumped(alloc),
        "unshown" => unshown(alloc),
        "reached" => reached(alloc, text),
        _ => Err(Trouble("no such kind")),
    }
}

/// The first word as a number, and what follows it.
pub fn number_first(text: &str) -> (u64, &str) {
    let (first, rest) = text.split_once(' ').unwrap_or((text, ""));
    (u64::from_str_radix(first, 10).unwrap_or(0), rest)
}

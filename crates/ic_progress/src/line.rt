//! The line of progress, as a terminal is sent it: to the begin of its line, the text, and what erases the rest. It stays in
//! one row, however narrow the terminal is: what has no room there isn't shown.

use std::alloc::{AllocError, Global};

/// At which pace rounds land, and how many jobs are running.
#[derive(Clone, Copy)]
pub(crate) struct Pace {
    pub rounds_a_second: u64,
    pub jobs_running: u64,
}

/// How many there are in a second, of so many in these milliseconds. Less than a millisecond counts as one.
pub(crate) fn a_second(count: u64, millis: u64) -> u64 {
    count.saturating_mul(1_000) / millis.max(1)
}

/// To the begin of the line; from here on a text doesn't go on in the next row.
const BEGIN: &str = "\r\x1b[?7l";

/// Erases the rest of the line. From here on a text goes on in the next row again.
const END: &str = "\x1b[K\x1b[?7h";

/// The line of so many events and their pace, in place of the one before.
pub(crate) fn progress_line(
    alloc: Global,
    events: u64,
    pace: Option<Pace>,
) -> Result<String, AllocError> {
    match pace {
        Some(pace) => {
            let (rounds, jobs) = (pace.rounds_a_second, pace.jobs_running);
            format!(in alloc;
                "{BEGIN}events {events}, rounds a second {rounds}, jobs running {jobs}{END}"
            )
        }
        None => format!(in alloc; "{BEGIN}events {events}{END}"),
    }
}

/// The line of so many interactions, so many a second and so many names and agents, in place of the one before.
pub(crate) fn reducing_line(
    alloc: Global,
    interactions: u64,
    a_second: u64,
    nodes: u64,
) -> Result<String, AllocError> {
    format!(in alloc; "{BEGIN}interactions {interactions}, a second {a_second}, nodes {nodes}{END}")
}

//! The worked rows of what only calls of the libraries reach: rounds, clients and runners behind gates, works that are
//! dealt out and matched, a book over a disk that fails, and a run that meets the premises of the law over several
//! lives. `answers` says what a row may ask. What the built program is asked is in `trials/rows`.
#![tactic(auto)]

mod answers;
mod attended;
mod books;
mod crews;
mod held;
mod lives;
mod rounds;
mod scripts;
mod streams;
mod turnstile;
mod works;

use crate::answers::answer;
use ic_notation::{Row, Tally};
use std::io;

/// The loop of `check_rows`: its gates need a runtime that threads share, which a method of a trait can't pass on.
fn main(rt: HostRuntime) -> io::Result<()> {
    let mut tally = Tally::new();
    for line in rt.lines(rt.alloc()) {
        let line = line?;
        if let Some(row) = Row::of(&line) {
            tally.compare(&rt, rt.alloc(), &row, answer(&rt, rt.alloc(), &row))?;
        }
    }
    tally.finish(&rt)
}

//! How several threads shared a reduction, in lines and in an object of JSON.

use std::alloc::{AllocError, Global};
use std::fmt::Write;

/// Nanoseconds of a millisecond.
const MILLI: u64 = 1_000_000;

/// What several threads did before one had all.
#[derive(Drop)]
pub struct Shares {
    /// How many interactions each of them made.
    by_thread: Vec<u64>,
    /// How many trees went from the part of one to that of another.
    handed_on: u64,
    /// For how many nanoseconds they made no interactions, all together.
    idle: u64,
}

impl Shares {
    /// Nothing so far.
    pub fn new(alloc: Global) -> Shares {
        Shares {
            by_thread: Vec::new(alloc),
            handed_on: 0,
            idle: 0,
        }
    }

    /// Adds what threads did in one more run. Where memory is refused for a thread, it isn't told.
    pub(crate) fn add(&mut self, by_thread: &[u64], handed_on: u64, idle: u64) {
        self.handed_on = self.handed_on.saturating_add(handed_on);
        self.idle = self.idle.saturating_add(idle);
        for (place, made) in by_thread.iter().enumerate() {
            if place < self.by_thread.len() {
                let sum = self.by_thread[place].saturating_add(*made);
                self.by_thread[place] = sum;
            } else if self.by_thread.push(*made).is_err() {
                return;
            }
        }
    }

    /// Whether several threads made anything.
    fn are_some(&self) -> bool {
        for made in &self.by_thread {
            if *made > 0 {
                return true;
            }
        }
        false
    }

    /// Appends their line, if they made anything.
    pub(crate) fn put_line(&self, out: &mut String) -> Result<(), AllocError> {
        if !self.are_some() {
            return Ok(());
        }
        out.push_str("icserve: ")?;
        for (place, made) in self.by_thread.iter().enumerate() {
            let number = place.saturating_add(1);
            let plural = if *made == 1 { "" } else { "s" };
            write!(out, "thread {number}: {made} interaction{plural}, ")?;
        }
        let (handed_on, millis) = (self.handed_on, self.idle / MILLI);
        let (seconds, thousandths) = (millis / 1_000, millis % 1_000);
        write!(
            out,
            "trees handed on {handed_on}, seconds idle {seconds}.{thousandths:03}\n"
        )
    }

    /// Appends their fields of an object, if they made anything.
    pub(crate) fn put_fields(&self, out: &mut String) -> Result<(), AllocError> {
        if !self.are_some() {
            return Ok(());
        }
        out.push_str(",\"by_thread\":[")?;
        for (place, made) in self.by_thread.iter().enumerate() {
            let before = if place > 0 { "," } else { "" };
            write!(out, "{before}{made}")?;
        }
        let (handed_on, millis) = (self.handed_on, self.idle / MILLI);
        write!(
            out,
            "],\"handed_on\":{handed_on},\"idle_milliseconds\":{millis}"
        )
    }
}

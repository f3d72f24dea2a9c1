//! The limits of a serving.

/// Lines that are served, blank and refused ones counted.
pub const MAX_LINES: usize = 1_000_000;

/// What the entries of a page may weigh at most, in units of 1,024 bytes, before a new page begins: 64 MB. A caller may have one
/// begin earlier.
pub const PAGE_WEIGHT: u64 = 65_536;

/// What a round of an equation takes, in the time that a word takes which is copied.
pub(crate) const WORDS_EACH: usize = 16;

/// A lap is left to the thread that serves where all rounds of a job take less time than so many words, since threads are started
/// for it.
pub(crate) const ENOUGH: u64 = 16_000;

/// So is one where a round takes less, since handing it on takes as long.
pub(crate) const ENOUGH_EACH: usize = 32;

/// So is one where the rounds that are handed on together take less.
pub(crate) const ENOUGH_AT_ONCE: usize = 256;

/// A lap hands on no more rounds of a job at once than these.
pub(crate) const MOST_ROUNDS: usize = 256;

/// How many times a lap hands on rounds of each job in a run, if the run is short: while some are landed, the next are made.
pub(crate) const TIMES: u64 = 4;

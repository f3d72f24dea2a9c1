//! How large a lap may be.

/// The most flights of one lap. Further ones are left out.
pub const MAX_FLIGHTS: usize = 64;

/// The most threads that make laps, the one that asks for them included.
pub const MAX_WORKERS: usize = 64;

/// The nets after the rounds that wait have together about so many words: of each job no further round is made once those of
/// its rounds have its share of them. With less, rounds of large nets are handed on one by one, and threads wait for each other.
pub const LAP_WORDS: usize = 1_048_576;

/// The most tasks that are out at a time.
pub(crate) const MOST_TASKS: usize = 128;

/// A thread keeps shares of no more words than these.
pub(crate) const SHARED_WORDS: usize = 524_288;

/// How many numbers a worker's first list has room for. Once so much memory is given back, the C library keeps as much of it for
/// what comes, and doesn't give each net's back to the system.
pub(crate) const ROOM: usize = 524_288;

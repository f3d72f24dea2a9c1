//! The limit of threads.

/// Threads of one round.
pub const MAX_THREADS: usize = 64;

//! The limit of rounds.

/// Rounds of a job.
pub const MAX_ROUNDS: u64 = 1 << 62;

//! The limits of a job table.

/// Jobs of a table.
pub const MAX_JOBS: usize = 32;

/// The greatest budget of a job, in rounds: 2^32 - 1.
pub const MAX_BUDGET: u64 = 4_294_967_295;

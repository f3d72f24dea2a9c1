//! The limit of a line.

/// The greatest number of a `run` line.
pub const MAX_RUN: u64 = 1_000;

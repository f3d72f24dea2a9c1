//! The limits of a history.

/// Entries of a history.
pub const MAX_ENTRIES: usize = 65_536;

/// What an entry of a submit or of a fetch weighs, in units of 1,024 bytes: it may hold a system.
pub const SYSTEM_WEIGHT: u64 = 512;

/// What an entry of a list weighs: it tells of at most 32 jobs.
pub const LIST_WEIGHT: u64 = 2;

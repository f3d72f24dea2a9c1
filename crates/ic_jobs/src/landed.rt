//! What became of a round that came to a table.

/// What became of a round that was made or can't be made.
#[derive(Clone, Copy, PartialEq, Eq)]
pub enum Landed {
    /// The job was as awaited, and has changed.
    Moved,
    /// The job is gone, isn't running, or is another than the round was made of. Nothing has
    /// changed.
    Stale,
}

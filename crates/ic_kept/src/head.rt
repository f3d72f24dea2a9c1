//! The head of a file in which a state is kept.

/// How many bytes the head of a file has: its gate, its number and the length of its state.
pub const HEAD: u64 = 17;

/// What the head of a file with an open gate says.
#[derive(Clone, Copy)]
pub(crate) struct Head {
    pub(crate) number: u64,
    pub(crate) size: u64,
}

//! What is found in a disk.

use crate::Slot;

// What the head of an open slot says.
#[derive(Clone, Copy)]
pub(crate) struct Head {
    pub number: u64,
    pub size: u32,
}

// The newest slot, and whether the other is closed.
#[derive(Clone, Copy)]
pub(crate) struct Newest {
    pub slot: Slot,
    pub head: Head,
    pub alone: bool,
}

// The newest slot, whether both heads lie within the disk, and a frame with the body.
#[derive(Drop)]
pub(crate) struct Found {
    pub newest: Newest,
    pub made: bool,
    pub frame: Vec<u8>,
}

//! What an opening hands out.

use crate::Frames;
use ic_disk::Disk;

/// Two frames that were found on a disk, and a frame with the body that they keep.
#[derive(Drop)]
pub struct Opened<D: Disk> {
    pub frames: Frames<D>,
    pub frame: Vec<u8>,
}
